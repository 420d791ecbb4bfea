// One line of a text whose last byte is 10, read from left to right, one word at a time.
#![tactic(auto)]

ghost use Rattle.std.specs.Prelude.{◌≡◌, ◌≤◌, ◌<◌, length, drop, MatchOption, slice_index, ◌≢◌, ◌+◌};
ghost use Rattle.rules.specs.Trace.{number, word, target, target_word};
ghost use Rattle.rules.specs.declared.Command.TheVariants.{New};
ghost use Rattle.lines.specs.Cursor.{digit_of, taken_of, word_of, place_of};
ghost use Rattle.lines.specs.Ending.{Names, Seats, ended_by, Closed, Reads, front_of, next_of, set_piece_by};

use rules::{Command, Store};

// The place in a text up to which it is read.
#[derive(Clone, Copy)]
pub struct Cursor {
    pub at: usize,
}

// The most digits of a number.
const DIGITS: usize = 5;

// A digit's value.
fn digit(b: u8) -> Option<u32>
    ensures { MatchOption result (9 < digit_of b) (λ d. (d ≡ digit_of b) × (d < 10)) }
{
    match b {
        b'0'..=b'9' => Some(u32::from(b - b'0')),
        _ => None,
    }
}

// The number v of k digits, at most 5, that ends before a place: 1 to 5 digits, at most 65,535.
fn finished(v: u32, k: usize, at: usize) -> Option<(u16, Cursor)>
    ensures { result ≡ taken_of v k at }
{
    if k < 1 {
        return None;
    }
    let p = u16::try_from(v).ok()?;
    Some((p, Cursor { at }))
}

impl Cursor {
    // The number at the cursor.
    pub fn number(self, text: &[u8]) -> Option<(u16, Cursor)>
        requires { (self.at < length text.now) × Closed text.now }
        ensures { (word_of text.now result ≡ number (drop self.at text.now)) × (place_of result < length text.now) }
    {
        let mut v: u32 = 0;
        for k in 0..DIGITS {
            let at = self.at + k;
            let Some(d) = digit(text[at]) else {
                return finished(v, k, at);
            };
            v = v * 10 + d;
        }
        let at = self.at + DIGITS;
        match digit(text[at]) {
            Some(_) => None,
            None => finished(v, DIGITS, at),
        }
    }

    // Exactly one space.
    fn space(self, text: &[u8]) -> Option<Cursor>
        requires { (self.at < length text.now) × Closed text.now }
        ensures { MatchOption result (slice_index text.now self.at ≢ 32) (λ c. (slice_index text.now self.at ≡ 32) × (c.at ≡ self.at + 1)) }
    {
        if text[self.at] != b' ' {
            return None;
        }
        Some(Cursor { at: self.at + 1 })
    }

    // Exactly one space, then a number.
    #[tactic(auto, using(crate::specs::Says::word_space, crate::specs::Says::word_other))]
    pub fn word(self, text: &[u8]) -> Option<(u16, Cursor)>
        requires { (self.at < length text.now) × Closed text.now }
        ensures { (word_of text.now result ≡ word (drop self.at text.now)) × (place_of result < length text.now) }
    {
        self.space(text)?.number(text)
    }

    // A number, or `-` for none.
    #[tactic(auto, using(crate::specs::Says::target_none))]
    pub fn target(self, text: &[u8]) -> Option<(u16, Cursor)>
        requires { (self.at < length text.now) × Closed text.now }
        ensures { (word_of text.now result ≡ target (drop self.at text.now)) × (place_of result < length text.now) }
    {
        if text[self.at] == b'-' {
            return Some((Store::NONE, Cursor { at: self.at + 1 }));
        }
        self.number(text)
    }

    // Exactly one space, then a target.
    #[tactic(auto, using(crate::specs::Says::target_space, crate::specs::Says::target_other))]
    pub fn target_word(self, text: &[u8]) -> Option<(u16, Cursor)>
        requires { (self.at < length text.now) × Closed text.now }
        ensures { (word_of text.now result ≡ target_word (drop self.at text.now)) × (place_of result < length text.now) }
    {
        self.space(text)?.target(text)
    }
}

// The one word that is left of a line, with byte 10 behind it, and the place behind that.
fn name_line(text: &[u8], at: usize) -> Option<(u16, usize)>
    requires { (at < length text.now) × Closed text.now }
    ensures { Names text.now at result }
{
    let (p, c) = Cursor { at }.word(text)?;
    let end = c.at;
    if text[end] != b'\n' {
        return None;
    }
    Some((p, end + 1))
}

// The seat that a line names behind its piece, which ends there: without a seat, seat 0 acts.
fn seat_line(text: &[u8], end: usize) -> Option<(u16, usize)>
    requires { (end < length text.now) × Closed text.now }
    ensures { Seats text.now end result }
{
    if text[end] == b'\n' {
        return Some((0, end + 1));
    }
    name_line(text, end)
}

// A line `n` behind its first byte.
fn new_line(text: &[u8], at: usize) -> Option<(Command, usize)>
    requires { at < length text.now }
    ensures { (front_of text.now result ≡ ended_by New (drop at text.now)) × (next_of result ≤ length text.now) }
{
    if text[at] != b'\n' {
        return None;
    }
    Some((Command::New, at + 1))
}

// A line `s P K T` behind its first byte.
fn set_line(text: &[u8], at: usize) -> Option<(Command, usize)>
    requires { (at < length text.now) × Closed text.now }
    ensures { (front_of text.now result ≡ set_piece_by (word (drop at text.now))) × (next_of result ≤ length text.now) }
{
    let (p, c) = Cursor { at }.word(text)?;
    let (k, d) = c.word(text)?;
    let (t, e) = d.target_word(text)?;
    let end = e.at;
    if text[end] != b'\n' {
        return None;
    }
    Some((Command::Set { p, k, t }, end + 1))
}

// What the line at a place says, if it is right, and the place behind its end. The first byte of the line chooses the command.
pub fn read(text: &[u8], at: usize) -> Option<(Command, usize)>
    requires { (at < length text.now) × Closed text.now }
    ensures { Reads text.now at result }
{
    // One helper for `f`, `a` and `r`, a closure that makes the command, and `?` here were tried: each line took 16 to 25 instructions more.
    match text[at] {
        b'n' => new_line(text, at + 1),
        b's' => set_line(text, at + 1),
        b'f' => {
            let Some((p, c)) = Cursor { at: at + 1 }.word(text) else {
                return None;
            };
            let Some((seat, next)) = seat_line(text, c.at) else {
                return None;
            };
            Some((Command::Freeze { p, seat }, next))
        }
        b'a' => {
            let Some((p, c)) = Cursor { at: at + 1 }.word(text) else {
                return None;
            };
            let Some((seat, next)) = seat_line(text, c.at) else {
                return None;
            };
            Some((Command::Acquire { p, seat }, next))
        }
        b'r' => {
            let Some((p, c)) = Cursor { at: at + 1 }.word(text) else {
                return None;
            };
            let Some((seat, next)) = seat_line(text, c.at) else {
                return None;
            };
            Some((Command::Release { p, seat }, next))
        }
        b'b' => {
            let Some((p, next)) = name_line(text, at + 1) else {
                return None;
            };
            Some((Command::Bin(p), next))
        }
        b'l' => {
            let Some((p, next)) = name_line(text, at + 1) else {
                return None;
            };
            Some((Command::Look(p), next))
        }
        _ => None,
    }
}
