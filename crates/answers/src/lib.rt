// The lines that a trace answers, written into lent bytes from a place on. Each public function hands back the place after what it wrote.
#![tactic(auto)]

ghost use Rattle.std.specs.Prelude.{◌≡◌, [], ◌∷◌, ◌+◌, ◌*◌, ◌≤◌, ◌<◌, length, take};
ghost use Rattle.rules.specs.Limits.{none};
ghost use Rattle.rules.specs.Calls.{number_of, answered};
ghost use Rattle.rules.specs.History.{freed_in};
ghost use Rattle.rules.specs.Trace.{decimal, value_or, spaced, answer_line, look_line, bad_line};
ghost use Rattle.answers.specs.Wrote.{Wrote, digits_of, piece_line, line_of, closing_line};
ghost use Rattle.answers.specs.Page.{Puts};

use rules::{Answer, Done, Piece, Refusal, Seen, Store};

// The most bytes of a line: 64, and 6 for each of 1,024 freed numbers.
pub const LONGEST: usize = 6208;

// Lent bytes, and the place where the next one goes.
#[derive(Drop)]
struct Page<'a> {
    out: &'a mut [u8],
    at: usize,
}

// How many decimal digits a number has, without leading zeros: one more for each power of ten that it reaches.
fn width(v: u32) -> usize
    ensures { result ≡ length (decimal v) }
{
    let mut power: u64 = 10;
    for k in 1..10 {
        if u64::from(v) < power {
            return k;
        }
        power *= 10;
    }
    10
}

impl<'a> Page<'a> {
    // One byte.
    fn byte(&mut self, b: u8)
        requires { self.old.at < length self.old.out.now }
        ensures { Puts (b ∷ []) self.old self.new }
    {
        self.out[self.at] = b;
        self.at += 1;
    }

    // The last k decimal digits of a number, the last one first.
    fn digits(&mut self, k: usize, v: u32)
        requires { self.old.at + k ≤ length self.old.out.now }
        ensures { Puts (digits_of k v) self.old self.new }
    {
        let at = self.at;
        let mut left = v;
        for i in (0..k).rev() {
            let d = (left % 10) as u8;
            self.out[at + i] = b'0' + d;
            left /= 10;
        }
        self.at = at + k;
    }

    // A number below 100, by two digits.
    fn two(&mut self, v: u32)
        requires { (self.old.at + 2 ≤ length self.old.out.now) × (v < 100) }
        ensures { Puts (digits_of 2 v) self.old self.new }
    {
        let tens = v / 10;
        let t = tens as u8;
        let o = (v - 10 * tens) as u8;
        self.byte(b'0' + t);
        self.byte(b'0' + o);
    }

    // A number in decimal, without leading zeros, compiled into each line. By hand: the digits of the library `itoa` were tried, and a line took a sixth to a third more instructions.
    #[inline(always)]
    fn number(&mut self, v: u32)
        requires { self.old.at + 10 ≤ length self.old.out.now }
        ensures puts { Puts (decimal v) self.old self.new }
        ensures upper_bound { self.new.at ≤ self.old.at + 10 }
    {
        if v < 10 {
            let d = v as u8;
            self.byte(b'0' + d);
        } else if v < 100 {
            self.two(v);
        } else if v < 1000 {
            let hundreds = v / 100;
            let h = hundreds as u8;
            self.byte(b'0' + h);
            self.two(v - 100 * hundreds);
        } else {
            let k = width(v);
            self.digits(k, v);
        }
    }

    // A value, or `-` for none.
    fn value(&mut self, v: u16)
        requires { self.old.at + 10 ≤ length self.old.out.now }
        ensures puts { Puts (value_or v) self.old self.new }
        ensures upper_bound { self.new.at ≤ self.old.at + 10 }
    {
        if v == Store::NONE {
            self.byte(b'-');
        } else {
            self.number(u32::from(v));
        }
    }

    // A single space and a number.
    fn word(&mut self, v: u32)
        requires { self.old.at + 11 ≤ length self.old.out.now }
        ensures puts { Puts (32 ∷ decimal v) self.old self.new }
        ensures upper_bound { self.new.at ≤ self.old.at + 11 }
    {
        self.byte(b' ');
        self.number(v);
    }

    // The freed numbers, each after a single space.
    fn freed(&mut self, freed: &[u16])
        requires { self.old.at + 6 * length freed.now + 5 ≤ length self.old.out.now }
        ensures puts { Puts (spaced freed.now) self.old self.new }
        ensures upper_bound { self.new.at ≤ self.old.at + 6 * length freed.now }
    {
        for number in freed {
            self.word(u32::from(*number));
        }
    }

    // The line of a number, a value or `-`, and 0.
    fn plain(&mut self, number: u32, value: u16)
        requires { self.old.at + 64 ≤ length self.old.out.now }
        ensures puts { Puts (answer_line number value []) self.old self.new }
        ensures upper_bound { self.new.at ≤ self.old.at + 64 }
    {
        self.number(number);
        self.byte(b' ');
        self.value(value);
        self.word(0);
        self.byte(b'\n');
    }

    // The line of a number, `-` and 0: what follows the number is the same bytes always, which are written at once.
    fn bare(&mut self, number: u32)
        requires { self.old.at + 64 ≤ length self.old.out.now }
        ensures puts { Puts (answer_line number none []) self.old self.new }
        ensures upper_bound { self.new.at ≤ self.old.at + 64 }
    {
        self.number(number);
        self.byte(b' ');
        self.byte(b'-');
        self.byte(b' ');
        self.byte(b'0');
        self.byte(b'\n');
    }

    // The line of an accepted command but look: `0`, value or `-`, number freed, then the freed numbers.
    fn done(&mut self, value: u16, freed: &[u16])
        requires { (length freed.now < 65536) × (self.old.at + 64 + 6 * length freed.now ≤ length self.old.out.now) }
        ensures puts { Puts (answer_line 0 value freed.now) self.old self.new }
        ensures upper_bound { self.new.at ≤ self.old.at + 64 + 6 * length freed.now }
    {
        if freed.len() == 0 {
            if value == Store::NONE {
                self.bare(0);
            } else {
                self.plain(0, value);
            }
        } else {
            let count = freed.len() as u32;
            self.number(0);
            self.byte(b' ');
            self.value(value);
            self.word(count);
            self.freed(freed);
            self.byte(b'\n');
        }
    }

    // The line of a refused command: its number, `-` and 0.
    fn refused(&mut self, refusal: Refusal)
        requires { self.old.at + 64 ≤ length self.old.out.now }
        ensures puts { Puts (answer_line (number_of refusal) none []) self.old self.new }
        ensures upper_bound { self.new.at ≤ self.old.at + 64 }
    {
        self.bare(u32::from(refusal));
    }

    // The line of an answer, whose freed numbers are the first of the list.
    fn answer(&mut self, answer: Answer, list: &[u16])
        requires { (freed_in (answered answer) ≤ length list.now) × (self.old.at + 64 + 6 * freed_in (answered answer) ≤ length self.old.out.now) }
        ensures puts { Puts (line_of answer list.now) self.old self.new }
        ensures upper_bound { self.new.at ≤ self.old.at + 64 + 6 * freed_in (answered answer) }
    {
        match answer {
            Ok(Done { value, freed }) => {
                let size = freed as usize;
                self.done(value, &list[..size]);
            }
            Err(refusal) => self.refused(refusal),
        }
    }

    // The line of an accepted look: `0`, state, leader or `-`, count, holds.
    fn piece(&mut self, piece: Piece)
        requires { self.old.at + 64 ≤ length self.old.out.now }
        ensures puts { Puts (piece_line piece.state piece.leader piece.count piece.holds) self.old self.new }
        ensures upper_bound { self.new.at ≤ self.old.at + 64 }
    {
        self.number(0);
        self.word(u32::from(piece.state));
        self.byte(b' ');
        self.value(piece.leader);
        self.word(piece.count);
        self.word(u32::from(piece.holds));
        self.byte(b'\n');
    }

    // The line of a look at a draft without holds: the same bytes always, which are written at once.
    fn draft(&mut self)
        requires { self.old.at + 64 ≤ length self.old.out.now }
        ensures puts { Puts (piece_line 1 none 0 0) self.old self.new }
        ensures upper_bound { self.new.at ≤ self.old.at + 64 }
    {
        self.byte(b'0');
        self.byte(b' ');
        self.byte(b'1');
        self.byte(b' ');
        self.byte(b'-');
        self.byte(b' ');
        self.byte(b'0');
        self.byte(b' ');
        self.byte(b'0');
        self.byte(b'\n');
    }

    // The line of an accepted look, a draft's by itself.
    fn seen(&mut self, piece: Piece)
        requires { self.old.at + 64 ≤ length self.old.out.now }
        ensures puts { Puts (piece_line piece.state piece.leader piece.count piece.holds) self.old self.new }
        ensures upper_bound { self.new.at ≤ self.old.at + 64 }
    {
        let Piece {
            state,
            leader,
            count,
            holds,
        } = piece;
        if leader == Store::NONE && state == Store::DRAFT && count == 0 && holds == 0 {
            self.draft();
        } else {
            self.piece(piece);
        }
    }

    // The last line: `=`, drafts, frozen pieces, groups.
    fn end(&mut self, drafts: u32, frozen: u32, groups: u32)
        requires { self.old.at + 64 ≤ length self.old.out.now }
        ensures puts { Puts (closing_line drafts frozen groups) self.old self.new }
        ensures upper_bound { self.new.at ≤ self.old.at + 64 }
    {
        self.byte(b'=');
        self.word(drafts);
        self.word(frozen);
        self.word(groups);
        self.byte(b'\n');
    }
}

// A number in decimal, without leading zeros.
pub fn put_number(out: &mut [u8], at: usize, v: u32) -> usize
    requires { at + 10 ≤ length out.old }
    ensures wrote { Wrote out.old at (decimal v) out.new result }
    ensures upper_bound { result ≤ at + 10 }
{
    let mut page = Page { out, at };
    page.number(v);
    page.at
}

// The line of an answer, whose freed numbers are the first of the list.
pub fn put_answer(out: &mut [u8], at: usize, answer: Answer, list: &[u16]) -> usize
    requires { (freed_in (answered answer) ≤ length list.now) × (at + 64 + 6 * freed_in (answered answer) ≤ length out.old) }
    ensures wrote { Wrote out.old at (line_of answer list.now) out.new result }
    ensures upper_bound { result ≤ at + 64 + 6 * freed_in (answered answer) }
{
    let mut page = Page { out, at };
    page.answer(answer, list);
    page.at
}

// The line of a look.
pub fn put_look(out: &mut [u8], at: usize, seen: Seen) -> usize
    requires { at + 64 ≤ length out.old }
    ensures wrote { Wrote out.old at (look_line seen) out.new result }
    ensures upper_bound { result ≤ at + 64 }
{
    let mut page = Page { out, at };
    match seen {
        Ok(piece) => page.seen(piece),
        Err(refusal) => page.refused(refusal),
    }
    page.at
}

// `x` for a bad line.
pub fn put_bad(out: &mut [u8], at: usize) -> usize
    requires { at + 64 ≤ length out.old }
    ensures wrote { Wrote out.old at bad_line out.new result }
    ensures upper_bound { result ≤ at + 64 }
{
    let mut page = Page { out, at };
    page.byte(b'x');
    page.byte(b'\n');
    page.at
}

// The last line: `=`, drafts, frozen pieces, groups.
pub fn put_end(out: &mut [u8], at: usize, drafts: u32, frozen: u32, groups: u32) -> usize
    requires { at + 64 ≤ length out.old }
    ensures wrote { Wrote out.old at (closing_line drafts frozen groups) out.new result }
    ensures upper_bound { result ≤ at + 64 }
{
    let mut page = Page { out, at };
    page.end(drafts, frozen, groups);
    page.at
}
