// No code: the theorem, in which the stores of crate heap meet the readers of crate readers, and what holds of records given, in specs/.
#![tactic(auto)]
