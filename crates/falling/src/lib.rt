// The letting go of groups: what holds while marked pieces stand in a queue and their places are erased; definitions and theorems, no code.
#![tactic(auto)]
