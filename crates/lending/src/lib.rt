// A trace lent in memory: its output in the room lent, then zeros.
#![tactic(auto)]

ghost use Rattle.std.specs.Prelude.{◌≡◌, List, ◌++◌, ℕ, ◌+◌, ◌^◌, ◌≤◌, ◌<◌, length, take};
ghost use Rattle.rules.specs.Calls.{number_of};
ghost use Rattle.rules.specs.Trace.{in_room, lent_trace};
ghost use Rattle.lines.specs.Ending.{Closed};
ghost use Rattle.chunks.specs.Short.{enough};
ghost use Rattle.answers.specs.Wrote.{longest};
ghost use Rattle.obeying.specs.Held.{held, Same};
ghost use Rattle.lending.specs.Poured.{Poured};
ghost use Rattle.lending.specs.Filled.{Ends, Filled};
ghost use Rattle.lending.specs.Lent.{given};

use chunks::ENOUGH;
use obeying::Areas;
use rules::{Refusal, Store};

// A refused trace gives 2^63 and the refusal's number.
fn refused(refusal: Refusal) -> u64
    ensures { result ≡ 2 ^ 63 + number_of refusal }
{
    (1 << 63) + u64::from(u32::from(refusal))
}

// Answers a text whose last byte is 10 into the room behind what is written there: where that ends; None where the room is too small.
// Compiled into `lent_trace`, where `out` is an array of its own: so the library copies by memcpy, and asks for no memmove.
#[inline(always)]
fn pour(
    text: &[u8],
    areas: &mut Areas,
    out: &mut [u8],
    room: &mut [u8],
    start: usize,
) -> Option<usize>
    requires { Closed text.now × (longest ≤ length out.old) × (start ≤ length room.old) }
    ensures poured { Poured (held areas.old).store text.now room.old start (held areas.new) room.new result }
    ensures same { Same areas.old areas.new }
{
    let mut at = 0;
    let mut size = start;
    while at < text.len() {
        let fed = reader::feed(text, at, areas, out);
        let k = fed.written;
        if room.len() - size < k {
            return None;
        }
        room[size..size + k].copy_from_slice(&out[..k]);
        size += k;
        at = fed.taken;
    }
    areas.stands();
    Some(size)
}

// A line without its end, or the first bytes of it that are enough, with byte 10 behind them; nothing where the line is empty.
fn end_line(line: &[u8], last: &mut [u8]) -> usize
    requires { enough < length last.old }
    ensures { Ends line.now last.new result }
{
    if line.is_empty() {
        return 0;
    }
    let size = line.len().min(ENOUGH);
    last[..size].copy_from_slice(&line[..size]);
    last[size] = 10;
    size + 1
}

// Answers a whole text into the room: its whole lines, then what is left of it as a line.
#[inline(always)]
fn pour_all(text: &[u8], areas: &mut Areas, out: &mut [u8], room: &mut [u8]) -> Option<usize>
    requires { longest ≤ length out.old }
    ensures filled { Filled (held areas.old).store text.now room.old (held areas.new) room.new result }
    ensures same { Same areas.old areas.new }
{
    let whole = reader::whole(text);
    let size = pour(&text[..whole], areas, out, room, 0)?;
    let mut last = [0u8; ENOUGH + 1];
    let end = end_line(&text[whole..], &mut last);
    pour(&last[..end], areas, out, room, size)
}

// An output that is longer than the room: the room is all zeros.
fn no_room(room: &mut [u8]) -> u64
    ensures { (out : List ℕ) → length room.old < length out → given result room.new ≡ in_room out room.old }
{
    room.fill(0);
    refused(Refusal::Room)
}

// These bytes behind the first bytes of the room, then zeros, where they fit.
fn finish(room: &mut [u8], size: usize, end: &[u8]) -> u64
    requires { size ≤ length room.old }
    ensures { given result room.new ≡ in_room (take size room.old ++ end.now) room.old }
{
    if room.len() - size < end.len() {
        return no_room(room);
    }
    let all = size + end.len();
    room[size..all].copy_from_slice(end);
    room[all..].fill(0);
    all as u64
}

// A trace lent in memory, on a store of its own of capacity 1,024. LONG is checked first.
pub fn lent_trace(text: &[u8], room: &mut [u8]) -> u64
    ensures { given result room.new ≡ lent_trace text.now room.old }
{
    if Store::TRACE < text.len() {
        return refused(Refusal::Long);
    }
    // The areas stand in this function's frame, since there is no heap: so they are made here.
    let mut states = [0u8; 1024];
    let mut links = [65535u16; 4096];
    let mut leaders = [65535u16; 1024];
    let mut holds = [0u16; 1024];
    let mut counts = [0u32; 1024];
    let mut register = [0u16; Store::ENTRIES];
    let mut into = [0u16; 1024];
    let mut list = [0u16; 1024];
    let mut work = [0u32; 8192];
    let mut areas = Areas::new(
        Store::MOST,
        &mut states,
        &mut links,
        &mut leaders,
        &mut holds,
        &mut counts,
        &mut register,
        &mut into,
        &mut list,
        &mut work,
        0,
    );
    let mut out = [0u8; 8192];
    let Some(size) = pour_all(text, &mut areas, &mut out, room) else {
        return no_room(room);
    };
    let tables = areas.tables();
    let k = reader::close(tables.n, tables.states, tables.leaders, &mut out, 0);
    finish(room, size, &out[..k])
}
