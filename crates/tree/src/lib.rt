// No code: the theory of the ticket index (trees, lookups, the sequential red-black tree) stands in specs/.
#![tactic(auto)]
