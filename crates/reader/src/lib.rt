// The trace reader: a line in, a line out, on tables that are sound by proof.
#![tactic(auto)]

ghost use Rattle.std.specs.Prelude.{◌≡◌, ◌+◌, ◌≤◌, ◌<◌, eqb, length, Some};
ghost use Rattle.rules.specs.Tests.{◌&◌, only_if};
ghost use Rattle.rules.specs.Limits.{most};
ghost use Rattle.rules.specs.History.{freed_in};
ghost use Rattle.lines.specs.Ending.{Closed};
ghost use Rattle.obeying.specs.Obeyed.{reply_of};
ghost use Rattle.obeying.specs.Held.{held, Same};
ghost use Rattle.answers.specs.Wrote.{longest, Wrote};
ghost use Rattle.answers.specs.Replies.{reply_line};
ghost use Rattle.reader.specs.Answered.{Answered};
ghost use Rattle.reader.specs.Lines.{NoEnd, LineEnd, Whole};
ghost use Rattle.reader.specs.Blocks.{Back};
ghost use Rattle.reader.specs.Fed.{Feeding, Stopped};
ghost use Rattle.reader.specs.Ended.{Totalled, LastLine};

use obeying::{Areas, Reply};
use rules::{Command, Store};

mod blocks;

// Writes the line of a reply.
fn write_reply(out: &mut [u8], at: usize, reply: Reply, list: &[u16]) -> usize
    requires { (freed_in (reply_of reply) ≤ length list.now) × (freed_in (reply_of reply) ≤ most) × (at + longest ≤ length out.old) }
    ensures { Wrote out.old at (reply_line (reply_of reply) list.now) out.new result × (result ≤ at + longest) }
{
    match reply {
        Reply::Answered(answer) => answers::put_answer(out, at, answer, list),
        Reply::Saw(seen) => answers::put_look(out, at, seen),
    }
}

// Does a command and writes its answer at a place of out; answers where the output goes on.
fn act(command: Command, areas: &mut Areas, out: &mut [u8], at: usize) -> usize
    requires { at + longest ≤ length out.old }
    ensures same { Same areas.old areas.new }
    ensures capacity { (held areas.new).store.tables.base.n ≡ (held areas.old).store.tables.base.n }
    ensures answered { let a = held areas.old in let b = held areas.new in
        Answered a.store.tables.base.n a.store (Some command) out.old at b.store b.list b.work out.new result b.from }
{
    let reply = areas.obey(command);
    write_reply(out, at, reply, areas.list())
}

// How far a text was read, and how much was written.
#[derive(Clone, Copy)]
pub struct Fed {
    pub taken: usize,
    pub written: usize,
}

// Where the line that starts at a place ends, byte by byte.
fn end_by_byte(text: &[u8], at: usize) -> usize
    requires { (at < length text.now) × Closed text.now }
    ensures { LineEnd text.now at result }
{
    at + text[at..].iter().position(|b| *b == b'\n').unwrap()
}

// Where the line that starts at a place ends, most often in the next 64 bytes.
fn near_end(text: &[u8], at: usize) -> usize
    requires { (at < length text.now) × Closed text.now }
    ensures { LineEnd text.now at result }
{
    if 64 <= text.len() - at {
        if let Some(first) = blocks::first_end(text, at) {
            return at + first;
        }
    }
    end_by_byte(text, at)
}

// Where the line that starts at a place ends, most often in the next 64 bytes. Further blocks begin at multiples of 64, as vectors lie best.
fn line_end(text: &[u8], at: usize) -> usize
    requires { (at < length text.now) × Closed text.now }
    ensures { LineEnd text.now at result }
{
    if text.len() - at < 64 {
        return end_by_byte(text, at);
    }
    if let Some(first) = blocks::first_end(text, at) {
        return at + first;
    }
    let far = blocks::pass(text, 64 * (at / 64 + 1), 512, |i| blocks::has_low(text, i));
    let near = blocks::pass(text, far, 64, |i| blocks::ends(text, i, 64));
    near_end(text, near)
}

// Back to the last byte that ends a line, byte by byte, to a place at most, from one behind which none does.
fn back(text: &[u8], from: usize, to: usize) -> usize
    requires { (to ≤ from) × (from ≤ length text.now) × NoEnd text.now from (length text.now) }
    ensures { Back text.now to result }
{
    match text[to..from].iter().rposition(|b| *b == b'\n') {
        Some(i) => to + i + 1,
        None => to,
    }
}

// How many bytes the whole lines of a text are. The first 16 are looked at by themselves: where they lie in the program's buffer is known, and so where all blocks lie.
pub fn whole(text: &[u8]) -> usize
    ensures { Whole text.now result }
{
    let edge = text.len() / 512 * 512;
    let near = blocks::pass_back(text, text.len(), edge, 16, |i| blocks::ends(text, i, 16));
    let last = back(text, near, edge);
    if edge < last {
        return last;
    }
    let high = blocks::pass_back(text, edge, 0, 512, |i| blocks::has_low(text, i));
    let far = blocks::pass_back(text, high, 0, 256, |i| blocks::ends(text, i, 256));
    if far < 16 {
        return back(text, far, 0);
    }
    let front = blocks::pass_back(text, far, 16, 16, |i| blocks::ends(text, i, 16));
    if front == 16 && !blocks::ends(text, 0, 16) {
        return 0;
    }
    back(text, front, 0)
}

// Answers the lines from a place on of a text whose last byte is 10, while out has room for the longest line.
pub fn feed(text: &[u8], start: usize, areas: &mut Areas, out: &mut [u8]) -> Fed
    requires { Closed text.now × (start ≤ length text.now) × (longest ≤ length out.old) }
    ensures fed { let a = held areas.old in let b = held areas.new in
        Feeding a.store.tables.base.n a.store text.now start b.store b.list b.work out.new result.taken result.written b.from
        × Stopped text.now out.new result.taken result.written × (b.store.tables.base.n ≡ a.store.tables.base.n) }
    ensures same { Same areas.old areas.new }
{
    let most = out.len() - answers::LONGEST;
    let mut at = start;
    let mut written = 0;
    areas.stands();
    while at < text.len() && written <= most {
        match lines::read(text, at) {
            Some((command, next)) => {
                written = act(command, areas, out, written);
                at = next;
            }
            None => {
                at = line_end(text, at) + 1;
                written = answers::put_bad(out, written);
            }
        }
    }
    Fed { taken: at, written }
}

// How many drafts, frozen pieces and groups there are.
#[derive(Clone, Copy)]
pub struct Totals {
    pub drafts: u32,
    pub frozen: u32,
    pub groups: u32,
}

// 1 where the state is k, else 0.
fn is_state(state: u8, k: u8) -> u32
    ensures { (result ≡ only_if (eqb state k) 1) × (result ≤ 1) }
{
    u32::from(state == k)
}

// 1 where a piece of this state and leader leads a group, else 0.
fn leads_one(state: u8, leader: u16, p: usize) -> u32
    ensures { (result ≡ only_if (eqb state 2 & eqb leader p) 1) × (result ≤ 1) }
{
    u32::from(state == Store::FROZEN && usize::from(leader) == p)
}

// Counts drafts, frozen pieces and groups.
fn total(states: &[u8], leaders: &[u16]) -> Totals
    requires { (length states.now ≤ most) × (length leaders.now ≡ length states.now) }
    ensures { Totalled states.now leaders.now (length states.now) result.drafts result.frozen result.groups }
{
    let mut drafts = 0;
    let mut frozen = 0;
    let mut groups = 0;
    for (p, state) in states.iter().enumerate() {
        drafts += is_state(*state, Store::DRAFT);
        frozen += is_state(*state, Store::FROZEN);
        groups += leads_one(*state, leaders[p], p);
    }
    Totals {
        drafts,
        frozen,
        groups,
    }
}

// Writes the last line of a trace, that of every store with these states and leaders.
pub fn close(n: usize, states: &[u8], leaders: &[u16], out: &mut [u8], at: usize) -> usize
    requires { (n ≤ most) × (length states.now ≡ n) × (length leaders.now ≡ n) × (at + 64 ≤ length out.old) }
    ensures { LastLine n states.now leaders.now out.old at out.new result }
{
    let all = total(states, leaders);
    answers::put_end(out, at, all.drafts, all.frozen, all.groups)
}
