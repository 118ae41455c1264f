// No code: the examples of wide records stand in specs/.
#![tactic(auto)]
