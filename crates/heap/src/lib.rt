// No code: what the writer's stores do to the tree that the pool's links unfold to stands in specs/.
#![tactic(auto)]
