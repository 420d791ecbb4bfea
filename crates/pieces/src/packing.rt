// What a call answers, as one u64.
ghost use Rattle.std.specs.Prelude.{◌≡◌, ◌+◌, ◌*◌, ◌≤◌, ◌<◌};
ghost use Rattle.rules.specs.Calls.{answered, saw, checked};
ghost use Rattle.pieces.specs.Packed.{packed};
ghost use Rattle.pieces.specs.Looks.{Fitting};

use rules::{Answer, Checked, Piece, Seen, Store};

// The number that C reads of every call but look: refusal + 2^16 · value + 2^32 · freed
fn join(refusal: u32, value: u16, freed: u16) -> u64
    ensures { result ≡ refusal + 65536 * value + 4294967296 * freed }
{
    let number = u64::from(refusal);
    let given = u64::from(value);
    let gone = u64::from(freed);
    number + 65536 * given + 4294967296 * gone
}

// The number that C reads of an accepted look: 2^8 · state + 2^16 · leader + 2^32 · count + 2^52 · holds
fn join_seen(piece: Piece) -> u64
    requires { (piece.count < 1028097) × (piece.holds ≤ 1000) }
    ensures { result ≡ 256 * piece.state + 65536 * piece.leader + 4294967296 * piece.count + 4503599627370496 * piece.holds }
{
    let kind = u64::from(piece.state);
    let led = u64::from(piece.leader);
    let all = u64::from(piece.count);
    let own = u64::from(piece.holds);
    256 * kind + 65536 * led + 4294967296 * all + 4503599627370496 * own
}

// An answer of start, new, set, freeze, acquire, release or bin.
pub fn pack(answer: Answer) -> u64
    ensures { result ≡ packed (answered answer) }
{
    match answer {
        Ok(done) => join(0, done.value, done.freed),
        Err(refusal) => join(refusal.into(), Store::NONE, 0),
    }
}

// What look answers.
pub fn pack_seen(seen: Seen) -> u64
    requires { Fitting seen }
    ensures { result ≡ packed (saw seen) }
{
    match seen {
        Ok(piece) => join_seen(piece),
        Err(refusal) => join(refusal.into(), Store::NONE, 0),
    }
}

// What check answers.
pub fn pack_checked(answer: Checked) -> u64
    ensures { result ≡ packed (checked answer) }
{
    match answer {
        Ok(sound) => join(0, sound.into(), 0),
        Err(refusal) => join(refusal.into(), 0, 0),
    }
}
