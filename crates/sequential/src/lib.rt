// No code: the definitions of the sequential red-black tree stand in specs/.
#![tactic(auto)]
