// The nine public calls: sizes, soundness, then the work; a call that is lent work clears it on the way out, unless a size is wrong.
// The areas stand one by one, as C lends them: a call borrows what it does not change to read alone. Each call names the tables that are read
// field by field, since a helper would be handed the same six.
#![tactic(auto, using(entering::specs::Entered::entered_laws))]

ghost use Rattle.std.specs.Prelude.{[]};
ghost use Rattle.rules.specs.Tables.{store_of};
ghost use Rattle.rules.specs.Calls.{start, does, check, areas_of, answered, saw, checked, outcome, Promise};
ghost use Rattle.rules.specs.declared.Command.TheVariants.{New, Set, Freeze, Acquire, Release, Bin, Look};

use areas::Tables;
use rules::{Answer, Checked, Refusal, Seen, Store};

// Any contents become the empty store.
pub fn start(
    n: usize,
    states: &mut [u8],
    links: &mut [u16],
    leaders: &mut [u16],
    holds: &mut [u16],
    counts: &mut [u32],
    register: &mut [u16],
    into: &mut [u16],
) -> Answer
    ensures { Promise start
        (areas_of (store_of n states.old links.old leaders.old holds.old counts.old register.old into.old) [] [])
        (outcome (answered result)
        (areas_of (store_of n states.new links.new leaders.new holds.new counts.new register.new into.new) [] [])) }
{
    let tables = Tables {
        n,
        states,
        links,
        leaders,
        holds,
        counts,
    };
    if !entering::sized(tables, register, into) {
        return Err(Refusal::Size);
    }
    states.fill(Store::FREE);
    links.fill(Store::NONE);
    leaders.fill(Store::NONE);
    holds.fill(0);
    counts.fill(0);
    register::clear(register);
    into.fill(0);
    Store::fresh()
}

// The lowest free number becomes a draft with four empty links; its number is the value.
pub fn new(
    n: usize,
    states: &mut [u8],
    links: &[u16],
    leaders: &[u16],
    holds: &[u16],
    counts: &[u32],
    register: &[u16],
    into: &[u16],
    list: &[u16],
    work: &mut [u32],
) -> Answer
    ensures { Promise (does New)
        (areas_of (store_of n states.old links.now leaders.now holds.now counts.now register.now into.now)
        list.now work.old)
        (outcome (answered result)
        (areas_of (store_of n states.new links.now leaders.now holds.now counts.now register.now into.now)
        list.now work.new)) }
{
    let tables = Tables {
        n,
        states,
        links,
        leaders,
        holds,
        counts,
    };
    entering::enter(tables, register, into, list.len(), work)?;
    let answer = giving::new(n, states, 0);
    entering::leave(n, work);
    answer
}

// Draft P's link K becomes T (none, a draft, a frozen piece, P itself); then every frozen piece no longer kept becomes free.
pub fn set(
    n: usize,
    states: &mut [u8],
    links: &mut [u16],
    leaders: &mut [u16],
    holds: &[u16],
    counts: &mut [u32],
    register: &[u16],
    into: &mut [u16],
    list: &mut [u16],
    work: &mut [u32],
    p: u16,
    k: u16,
    t: u16,
) -> Answer
    ensures { Promise (does (Set p k t))
        (areas_of (store_of n states.old links.old leaders.old holds.now counts.old register.now into.old)
        list.old work.old)
        (outcome (answered result) (areas_of (store_of n states.new links.new leaders.new holds.now counts.new register.now into.new)
        list.new work.new)) }
{
    let tables = Tables {
        n,
        states,
        links,
        leaders,
        holds,
        counts,
    };
    entering::enter(tables, register, into, list.len(), work)?;
    let answer = setting::set_link(
        n, states, links, leaders, holds, counts, into, list, p, k, t,
    );
    entering::leave(n, work);
    answer
}

// P and every draft it reaches become frozen; P gets one hold of the seat's. If P is frozen already it gets one where the seat has none, and else nothing changes.
pub fn freeze(
    n: usize,
    states: &mut [u8],
    links: &[u16],
    leaders: &mut [u16],
    holds: &mut [u16],
    counts: &mut [u32],
    register: &mut [u16],
    into: &mut [u16],
    list: &[u16],
    work: &mut [u32],
    p: u16,
    seat: u16,
) -> Answer
    ensures { Promise (does (Freeze p seat))
        (areas_of (store_of n states.old links.now leaders.old holds.old counts.old register.old into.old)
        list.now work.old)
        (outcome (answered result) (areas_of (store_of n states.new links.now leaders.new holds.new counts.new register.new into.new)
        list.now work.new)) }
{
    let tables = Tables {
        n,
        states,
        links,
        leaders,
        holds,
        counts,
    };
    entering::enter(tables, register, into, list.len(), work)?;
    let answer = freezing::freeze(
        n, states, links, leaders, holds, counts, register, into, work, p, seat,
    );
    entering::leave(n, work);
    answer
}

// One hold more of the seat on frozen P.
pub fn acquire(
    n: usize,
    states: &[u8],
    links: &[u16],
    leaders: &[u16],
    holds: &mut [u16],
    counts: &mut [u32],
    register: &mut [u16],
    into: &[u16],
    list: &[u16],
    work: &mut [u32],
    p: u16,
    seat: u16,
) -> Answer
    ensures { Promise (does (Acquire p seat))
        (areas_of (store_of n states.now links.now leaders.now holds.old counts.old register.old into.now)
        list.now work.old)
        (outcome (answered result) (areas_of (store_of n states.now links.now leaders.now holds.new counts.new register.new into.now)
        list.now work.new)) }
{
    let tables = Tables {
        n,
        states,
        links,
        leaders,
        holds,
        counts,
    };
    entering::enter(tables, register, into, list.len(), work)?;
    let answer = holding::acquire(n, states, leaders, holds, counts, register, p, seat);
    entering::leave(n, work);
    answer
}

// One hold less of the seat on frozen P; then every frozen piece no longer kept becomes free.
pub fn release(
    n: usize,
    states: &mut [u8],
    links: &mut [u16],
    leaders: &mut [u16],
    holds: &mut [u16],
    counts: &mut [u32],
    register: &mut [u16],
    into: &[u16],
    list: &mut [u16],
    work: &mut [u32],
    p: u16,
    seat: u16,
) -> Answer
    ensures { Promise (does (Release p seat))
        (areas_of (store_of n states.old links.old leaders.old holds.old counts.old register.old into.now)
        list.old work.old)
        (outcome (answered result) (areas_of (store_of n states.new links.new leaders.new holds.new counts.new register.new into.now)
        list.new work.new)) }
{
    let tables = Tables {
        n,
        states,
        links,
        leaders,
        holds,
        counts,
    };
    entering::enter(tables, register, into, list.len(), work)?;
    let answer = holding::release(
        n, states, links, leaders, holds, counts, register, list, p, seat,
    );
    entering::leave(n, work);
    answer
}

// Draft P becomes free; then every frozen piece no longer kept becomes free.
pub fn bin(
    n: usize,
    states: &mut [u8],
    links: &mut [u16],
    leaders: &mut [u16],
    holds: &[u16],
    counts: &mut [u32],
    register: &[u16],
    into: &mut [u16],
    list: &mut [u16],
    work: &mut [u32],
    p: u16,
) -> Answer
    ensures { Promise (does (Bin p))
        (areas_of (store_of n states.old links.old leaders.old holds.now counts.old register.now into.old)
        list.old work.old)
        (outcome (answered result) (areas_of (store_of n states.new links.new leaders.new holds.now counts.new register.now into.new)
        list.new work.new)) }
{
    let tables = Tables {
        n,
        states,
        links,
        leaders,
        holds,
        counts,
    };
    entering::enter(tables, register, into, list.len(), work)?;
    let answer = binning::bin(n, states, links, leaders, holds, counts, into, list, p);
    entering::leave(n, work);
    answer
}

// State, leader, count of its group, holds of P; for a draft 1, none, 0, 0.
pub fn look(
    n: usize,
    states: &[u8],
    links: &[u16],
    leaders: &[u16],
    holds: &[u16],
    counts: &[u32],
    register: &[u16],
    into: &[u16],
    work: &mut [u32],
    p: u16,
) -> Seen
    ensures { Promise (does (Look p))
        (areas_of (store_of n states.now links.now leaders.now holds.now counts.now register.now into.now)
        [] work.old)
        (outcome (saw result) (areas_of (store_of n states.now links.now leaders.now holds.now counts.now register.now into.now)
        [] work.new)) }
{
    let tables = Tables {
        n,
        states,
        links,
        leaders,
        holds,
        counts,
    };
    entering::enter(tables, register, into, n, work)?;
    let seen = looking::look(tables, p);
    entering::leave(n, work);
    seen
}

// Yes exactly if the store is sound.
pub fn check(
    n: usize,
    states: &[u8],
    links: &[u16],
    leaders: &[u16],
    holds: &[u16],
    counts: &[u32],
    register: &[u16],
    into: &[u16],
    work: &mut [u32],
) -> Checked
    ensures { Promise check
        (areas_of (store_of n states.now links.now leaders.now holds.now counts.now register.now into.now)
        [] work.old)
        (outcome (checked result)
        (areas_of (store_of n states.now links.now leaders.now holds.now counts.now register.now into.now)
        [] work.new)) }
{
    let tables = Tables {
        n,
        states,
        links,
        leaders,
        holds,
        counts,
    };
    match entering::enter(tables, register, into, n, work) {
        Ok(()) => {
            entering::leave(n, work);
            Ok(true)
        }
        Err(refusal) => match refusal {
            Refusal::Unsound => Ok(false),
            _ => Err(refusal),
        },
    }
}
