// No code: the examples of the counts and of the tally stand in specs/.
#![tactic(auto)]
