// No code: demand 3 once more, of the readings as the probes sent them.
#![tactic(auto)]
