// No code: the examples of the writer's forms and fix-ups, of refusals, damaged pools and registers, the plain list and the largest pool stand in
// specs/.
#![tactic(auto)]
