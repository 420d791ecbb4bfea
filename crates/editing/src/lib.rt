// What set, acquire, release and bin do to sound tables before the letting go: definitions and theorems, no code.
#![tactic(auto)]
