// Document 01's numbers in code, each named once; their definitions: crate spec, Numbers.
#![tactic(auto)]

// words a node (document 02, C-18), and the least and the largest number of nodes
pub const NODE_WORDS: usize = 9;

pub const LEAST_NODES: usize = 8;

pub const MOST_NODES: usize = 1023;

// the words of a program's array: more than the longest pool has
pub const POOL_WORDS: usize = (MOST_NODES + 1) * NODE_WORDS;

// a word is below this, as is each half of a record
pub const WORD_LIMIT: u64 = 4_294_967_296;

// reader slots, as a length and as a slot's number
pub const SLOTS: usize = 32;

pub const SLOT_LIMIT: u32 = SLOTS as u32;

// the most nodes of a path, and its most links: one more, and the right link below it
pub const PATH_BOUND: u32 = 64;

pub const MOST_LINKS: usize = PATH_BOUND as usize + 2;

// the most stores of a write, as a length and as a count
pub const MOST_STORES: usize = 7;

pub const STORE_LIMIT: u32 = MOST_STORES as u32;

// nodes that the keys held leave over, and the free nodes that an insert and a delete ask for
pub const RESERVE: u64 = 4;

pub const FREE_FOR_INSERT: u32 = 3;

pub const FREE_FOR_DELETE: u32 = 4;
