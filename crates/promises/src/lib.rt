// Demand 3: what the panel promises about its densities and its needle, as laws.
#![tactic(auto)]
