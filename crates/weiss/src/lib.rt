// No code: how near ln K0 is to the published equation.
#![tactic(auto)]
