// Theorems about calls and histories of the store; no code.
#![tactic(auto)]
