// No code: no call leaves the ranges of pool and register; what holds of every record given holds of every record kept; in specs/.
#![tactic(auto)]
