// The counts over labels, and the laws by which a hold or a link moves one: definitions and theorems, no code.
#![tactic(auto)]
