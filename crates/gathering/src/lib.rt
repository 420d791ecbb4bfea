// The drafts that a draft reaches, gathered in a queue: what a freeze touches, and nothing else.
// The areas come one by one: some are read and some are written, and a struct of `&mut` slices would need a clause for each that it stays the same slice.
#![tactic(auto)]

ghost use Rattle.gathering.specs.Put.{Putting, Put};
ghost use Rattle.gathering.specs.Queue.{Gathering};
ghost use Rattle.gathering.specs.Looked.{Looking, LookedAt};
ghost use Rattle.gathering.specs.Walked.{Gathered};

use rules::Store;

// Puts t at the tail of the queue, if it is a draft that does not stand there yet. Gives the new tail.
fn put(
    n: usize,
    states: &[u8],
    leaders: &mut [u16],
    entries: &mut [u32],
    t: usize,
    tail: usize,
) -> usize
    requires { Putting n states.now leaders.old entries.old t tail }
    ensures { Put n states.now leaders.old entries.old t tail leaders.new entries.new result }
{
    if n <= t {
        return tail;
    }
    if leaders[t] != Store::NONE {
        return tail;
    }
    if states[t] != Store::DRAFT {
        return tail;
    }
    leaders[t] = t as u16;
    entries[tail] = t as u32;
    tail + 1
}

// Puts what q names at the tail of the queue.
fn look(
    n: usize,
    states: &[u8],
    links: &[u16],
    leaders: &mut [u16],
    entries: &mut [u32],
    q: usize,
    mut tail: usize,
) -> usize
    requires { Looking n states.now links.now leaders.old entries.old q tail }
    ensures { LookedAt n states.now links.now q leaders.old entries.old tail 4 leaders.new entries.new result }
{
    for k in 0..Store::LINKS {
        let t = links[Store::LINKS * q + k] as usize;
        tail = put(n, states, leaders, entries, t, tail);
    }
    tail
}

// Gathers draft p and every draft that it reaches at the front of the entries. Gives how many they are.
pub fn gather(
    n: usize,
    states: &[u8],
    links: &[u16],
    leaders: &mut [u16],
    entries: &mut [u32],
    p: usize,
) -> usize
    requires { Gathering n states.now links.now leaders.old entries.old p }
    ensures { Gathered n states.now links.now leaders.old entries.old p leaders.new entries.new result }
{
    leaders[p] = p as u16;
    entries[0] = p as u32;
    let mut tail: usize = 1;
    let mut j: usize = 0;
    // No `for`: the end of the queue moves while it is walked.
    while j < tail {
        let q = entries[j] as usize;
        j += 1;
        tail = look(n, states, links, leaders, entries, q, tail);
    }
    tail
}
