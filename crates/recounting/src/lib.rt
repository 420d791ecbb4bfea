// What stands in the queue of a freeze becomes frozen, and its groups are counted: the links into its drafts, added up, less the places within each group.
// The areas come one by one: some are read and some are written, and a struct of `&mut` slices would need a clause for each that it stays the same slice.
#![tactic(auto)]

ghost use Rattle.std.specs.Prelude.{length};
ghost use Rattle.recounting.specs.Taken.{Taking, Taken};
ghost use Rattle.recounting.specs.Summing.{Handing, Summed};
ghost use Rattle.recounting.specs.Inner.{Uncounting, Uncounted};
ghost use Rattle.recounting.specs.Within.{Turnable};
ghost use Rattle.recounting.specs.Turning.{Turned};

use rules::Store;

// Each piece of the queue gets its leader, and the links into it go to its group's count.
fn hand_over(
    leaders: &mut [u16],
    counts: &mut [u32],
    into: &mut [u16],
    found: &[u32],
    queue: &[u32],
)
    requires { Handing (length leaders.old) leaders.old counts.old into.old found.now queue.now }
    ensures { Summed (length leaders.old) leaders.old counts.old into.old found.now queue.now (length queue.now)
        leaders.new counts.new into.new }
{
    for &piece in queue {
        let q = piece as usize;
        let l = found[q];
        leaders[q] = l as u16;
        counts[l as usize] += u32::from(into[q]);
        into[q] = 0;
    }
}

// Takes the places by which q names another piece of its group off the group's count.
fn uncount(n: usize, links: &[u16], leaders: &[u16], counts: &mut [u32], q: usize)
    requires { Uncounting n links.now leaders.now counts.old q }
    ensures { Uncounted n links.now leaders.now counts.old q 4 counts.new }
{
    let own = leaders[q] as usize;
    let at = Store::LINKS * q;
    for &place in &links[at..at + Store::LINKS] {
        let t = place as usize;
        if t < n && leaders[t] as usize == own {
            counts[own] -= u32::from(t != q);
        }
    }
}

// Each piece of the queue is frozen, and the places within its group are taken off.
fn turn(
    n: usize,
    states: &mut [u8],
    links: &[u16],
    leaders: &[u16],
    counts: &mut [u32],
    queue: &[u32],
)
    requires { Turnable n states.old links.now leaders.now counts.old queue.now }
    ensures { Turned n states.old links.now leaders.now counts.old queue.now (length queue.now) states.new counts.new }
{
    for &piece in queue {
        let q = piece as usize;
        uncount(n, links, leaders, counts, q);
        states[q] = Store::FROZEN;
    }
}

// Freezes what stands in the queue, whose leaders are found, and counts its groups.
pub fn take_all(
    n: usize,
    states: &mut [u8],
    links: &[u16],
    leaders: &mut [u16],
    counts: &mut [u32],
    into: &mut [u16],
    found: &[u32],
    queue: &[u32],
)
    requires { Taking n states.old links.now leaders.old counts.old into.old found.now queue.now }
    ensures { Taken n states.old links.now leaders.old counts.old into.old found.now queue.now
        states.new leaders.new counts.new into.new }
{
    hand_over(leaders, counts, into, found, queue);
    turn(n, states, links, leaders, counts, queue);
}
