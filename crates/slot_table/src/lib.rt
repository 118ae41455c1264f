// No code: the examples of the 32 slots stand in specs/.
#![tactic(auto)]
