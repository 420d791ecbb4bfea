// Freeze by a seat, on a sound store: groups are found once, at freeze.
// The areas come one by one: some are read and some are written, and a struct of `&mut` slices would need a clause for each that it stays the same slice.
#![tactic(auto)]

ghost use Rattle.std.specs.Prelude.{◌≡◌, [], ◌*◌, ◌≤◌, length, drop};
ghost use Rattle.rules.specs.Tables.{tables_of, store_of};
ghost use Rattle.rules.specs.Calls.{ReadyStore, Did, answered, effect};
ghost use Rattle.rules.specs.Commands.{next_tables};
ghost use Rattle.rules.specs.declared.Command.TheVariants.{Freeze};
ghost use Rattle.into.specs.Into.{Into};
ghost use Rattle.freezing.specs.Freezable.{Freezable};
ghost use Rattle.freezing.specs.Unmarked.{Unmarkable, Unmarked};
ghost use Rattle.freezing.specs.Found.{Findable, Found};

use rules::{Answer, Refusal, Store};

// Marks what stands in the queue as unseen.
fn unmark(n: usize, work: &mut [u32], queue: &[u32])
    requires { Unmarkable n work.old queue.now }
    ensures { Unmarked n work.old queue.now (length queue.now) work.new }
{
    for &piece in queue {
        let q = piece as usize;
        work[q] = 0;
        work[n + q] = 0;
    }
}

// Finds the leaders of the drafts that p reaches, which stand in the queue: of p alone without a search.
fn find(n: usize, states: &[u8], links: &[u16], work: &mut [u32], p: usize, queue: &[u32])
    requires { Findable n states.now links.now work.old p queue.now }
    ensures { Found n states.now links.now work.old p work.new }
{
    if queue.len() == 1 {
        work[2 * n + p] = p as u32;
        return;
    }
    unmark(n, work, queue);
    groups::visit(n, states, links, Store::DRAFT, work, p);
}

// Draft p and every draft it reaches become frozen; p gets one hold.
fn freeze_draft(
    n: usize,
    states: &mut [u8],
    links: &[u16],
    leaders: &mut [u16],
    holds: &mut [u16],
    counts: &mut [u32],
    into: &mut [u16],
    work: &mut [u32],
    p: usize,
)
    requires { Freezable (tables_of n states.old links.now leaders.old holds.old counts.old) work.old p × Into n states.old links.now into.old }
    ensures frozen { tables_of n states.new links.now leaders.new holds.new counts.new
        ≡ next_tables (tables_of n states.old links.now leaders.old holds.old counts.old) (Freeze p 0) }
    ensures named { Into n states.new links.now into.new }
    ensures later { drop (8 * n) work.new ≡ drop (8 * n) work.old }
{
    let (regions, entries) = work.split_at_mut(6 * n);
    let size = gathering::gather(n, states, links, leaders, entries, p);
    let queue = &entries[..size];
    find(n, states, links, regions, p, queue);
    let found = &regions[2 * n..3 * n];
    recounting::take_all(n, states, links, leaders, counts, into, found, queue);
    let l = leaders[p] as usize;
    holds[p] = 1;
    counts[l] += 1;
}

// P and every draft it reaches become frozen; P gets one hold of the seat's. If P is frozen already it gets one where the seat has none, and else nothing changes.
pub fn freeze(
    n: usize,
    states: &mut [u8],
    links: &[u16],
    leaders: &mut [u16],
    holds: &mut [u16],
    counts: &mut [u32],
    register: &mut [u16],
    into: &mut [u16],
    work: &mut [u32],
    p: u16,
    seat: u16,
) -> Answer
    requires { ReadyStore (store_of n states.old links.now leaders.old holds.old counts.old register.old into.old) × (8 * n ≤ length work.old) }
    ensures did { Did (Freeze p seat)
        (store_of n states.old links.now leaders.old holds.old counts.old register.old into.old) []
        (effect (answered result)
        (store_of n states.new links.now leaders.new holds.new counts.new register.new into.new) []) }
    ensures later { drop (8 * n) work.new ≡ drop (8 * n) work.old }
{
    if Store::SEATS <= seat {
        return Err(Refusal::Seat);
    }
    naming::piece(n, states, p)?;
    let q = p as usize;
    let line = register::find(register, seat, p);
    if states[q] == Store::DRAFT {
        if !register::has_room(register, line, seat, p) {
            return Err(Refusal::Register);
        }
        freeze_draft(n, states, links, leaders, holds, counts, into, work, q);
        register::first(register, line, seat, p);
        return Store::fresh();
    }
    if register::number_at(register, line, seat, p) != 0 {
        return Store::fresh();
    }
    if holds[q] >= Store::HOLDS {
        return Err(Refusal::Limit);
    }
    if !register::has_room(register, line, seat, p) {
        return Err(Refusal::Register);
    }
    holding::add_hold(n, leaders, holds, counts, q);
    register::first(register, line, seat, p);
    Store::fresh()
}
