// No code: document 01, with what has landed of 02, stands as definitions in specs/, in the order of 01's sections as far as one needs no other.
#![tactic(auto)]
