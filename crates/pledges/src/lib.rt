// No code: demand 3 once more, of what the panel's calls return.
#![tactic(auto)]
