// No code: lists of numbers, walks over a range of numbers, and the laws that loops cite, stand in specs/.
#![tactic(auto)]
