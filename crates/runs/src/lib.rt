// No code: from the invariant of a state to the promises about whole lists of calls, in specs/.
#![tactic(auto)]
