// No code: what a whole list of calls promises (demands 2 and 3) stands in specs/.
#![tactic(auto)]
