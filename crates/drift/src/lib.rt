// No code: how far the formula moves between a reading as it was sent and its place on the grid.
#![tactic(auto)]
