// No code: what the promise excludes, by runs that are computed.
#![tactic(auto)]
