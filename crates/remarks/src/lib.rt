// No code: what the remarks of a channel say of its floats, and that all else is as it is without them.
#![tactic(auto)]
