// No code: what the calls of readers do to pool and register, and what a store does to readers on their way, stands in specs/.
#![tactic(auto)]
