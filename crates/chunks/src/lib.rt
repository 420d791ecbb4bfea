// A text in chunks: theorems about the lines that it has and what answers them; no code.
#![tactic(auto)]

// The bytes of a line without its end that are enough to keep: one more than the 64 that a line may have, since a longer line is bad whatever its bytes.
pub const ENOUGH: usize = 65;
