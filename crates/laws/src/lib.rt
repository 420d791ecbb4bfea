// Theorems about the rules; no code.
#![tactic(auto)]
