// What the program compare draws and keeps, without the index: random calls, a model of the plain list and of the readers' moments, how many
// nodes each reading compares, and counts.
#![tactic(auto)]

pub mod aims;
pub mod draws;
pub mod lengths;
pub mod model;
pub mod rows;
