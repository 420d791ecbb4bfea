// The door for C: the nine calls, each with N, the areas in the rulebook's order, then P, K, T or P and the seat. Each answers one u64.
// The C interface wants a function for each call, and each area by itself.
#![tactic(auto)]

ghost use Rattle.std.specs.Prelude.{◌≡◌, []};
ghost use Rattle.rules.specs.Tables.{store_of};
ghost use Rattle.rules.specs.Calls.{start, does, check, areas_of};
ghost use Rattle.rules.specs.declared.Command.TheVariants.{New, Set, Freeze, Acquire, Release, Bin, Look};
ghost use Rattle.rules.specs.Trace.{lent_trace};
ghost use Rattle.lending.specs.Lent.{given};
ghost use Rattle.pieces.specs.Packed.{Packs};

mod packing;

// Any table contents become the empty store.
#[unsafe(no_mangle)]
pub extern "C" fn pieces_start(
    n: usize,
    states: &mut [u8],
    links: &mut [u16],
    leaders: &mut [u16],
    holds: &mut [u16],
    counts: &mut [u32],
    register: &mut [u16],
    into: &mut [u16],
) -> u64
    ensures { Packs start
        (areas_of (store_of n states.old links.old leaders.old holds.old counts.old register.old into.old) [] [])
        result (areas_of (store_of n states.new links.new leaders.new holds.new counts.new register.new into.new) [] []) }
{
    packing::pack(store::start(n, states, links, leaders, holds, counts, register, into))
}

// The lowest free number becomes a draft with four empty links; its number is the value.
#[unsafe(no_mangle)]
pub extern "C" fn pieces_new(
    n: usize,
    states: &mut [u8],
    links: &[u16],
    leaders: &[u16],
    holds: &[u16],
    counts: &[u32],
    register: &[u16],
    into: &[u16],
    list: &[u16],
    work: &mut [u32],
) -> u64
    ensures { Packs (does New)
        (areas_of (store_of n states.old links.now leaders.now holds.now counts.now register.now into.now)
        list.now work.old)
        result (areas_of (store_of n states.new links.now leaders.now holds.now counts.now register.now into.now)
        list.now work.new) }
{
    packing::pack(store::new(
        n, states, links, leaders, holds, counts, register, into, list, work,
    ))
}

// Draft P's link K becomes T (none, a draft, a frozen piece, P itself); then every frozen piece no longer kept becomes free.
#[unsafe(no_mangle)]
pub extern "C" fn pieces_set(
    n: usize,
    states: &mut [u8],
    links: &mut [u16],
    leaders: &mut [u16],
    holds: &[u16],
    counts: &mut [u32],
    register: &[u16],
    into: &mut [u16],
    list: &mut [u16],
    work: &mut [u32],
    p: u16,
    k: u16,
    t: u16,
) -> u64
    ensures { Packs (does (Set p k t))
        (areas_of (store_of n states.old links.old leaders.old holds.now counts.old register.now into.old)
        list.old work.old)
        result (areas_of (store_of n states.new links.new leaders.new holds.now counts.new register.now into.new)
        list.new work.new) }
{
    packing::pack(store::set(
        n, states, links, leaders, holds, counts, register, into, list, work, p, k, t,
    ))
}

// P and every draft it reaches become frozen; P gets one hold of the seat's. If P is frozen already it gets one where the seat has none, and else nothing changes.
#[unsafe(no_mangle)]
pub extern "C" fn pieces_freeze(
    n: usize,
    states: &mut [u8],
    links: &[u16],
    leaders: &mut [u16],
    holds: &mut [u16],
    counts: &mut [u32],
    register: &mut [u16],
    into: &mut [u16],
    list: &[u16],
    work: &mut [u32],
    p: u16,
    seat: u16,
) -> u64
    ensures { Packs (does (Freeze p seat))
        (areas_of (store_of n states.old links.now leaders.old holds.old counts.old register.old into.old)
        list.now work.old)
        result (areas_of (store_of n states.new links.now leaders.new holds.new counts.new register.new into.new)
        list.now work.new) }
{
    packing::pack(store::freeze(
        n, states, links, leaders, holds, counts, register, into, list, work, p, seat,
    ))
}

// One hold more of the seat on frozen P.
#[unsafe(no_mangle)]
pub extern "C" fn pieces_acquire(
    n: usize,
    states: &[u8],
    links: &[u16],
    leaders: &[u16],
    holds: &mut [u16],
    counts: &mut [u32],
    register: &mut [u16],
    into: &[u16],
    list: &[u16],
    work: &mut [u32],
    p: u16,
    seat: u16,
) -> u64
    ensures { Packs (does (Acquire p seat))
        (areas_of (store_of n states.now links.now leaders.now holds.old counts.old register.old into.now)
        list.now work.old)
        result (areas_of (store_of n states.now links.now leaders.now holds.new counts.new register.new into.now)
        list.now work.new) }
{
    packing::pack(store::acquire(
        n, states, links, leaders, holds, counts, register, into, list, work, p, seat,
    ))
}

// One hold less of the seat on frozen P; then every frozen piece no longer kept becomes free.
#[unsafe(no_mangle)]
pub extern "C" fn pieces_release(
    n: usize,
    states: &mut [u8],
    links: &mut [u16],
    leaders: &mut [u16],
    holds: &mut [u16],
    counts: &mut [u32],
    register: &mut [u16],
    into: &[u16],
    list: &mut [u16],
    work: &mut [u32],
    p: u16,
    seat: u16,
) -> u64
    ensures { Packs (does (Release p seat))
        (areas_of (store_of n states.old links.old leaders.old holds.old counts.old register.old into.now)
        list.old work.old)
        result (areas_of (store_of n states.new links.new leaders.new holds.new counts.new register.new into.now)
        list.new work.new) }
{
    packing::pack(store::release(
        n, states, links, leaders, holds, counts, register, into, list, work, p, seat,
    ))
}

// Draft P becomes free; then every frozen piece no longer kept becomes free.
#[unsafe(no_mangle)]
pub extern "C" fn pieces_bin(
    n: usize,
    states: &mut [u8],
    links: &mut [u16],
    leaders: &mut [u16],
    holds: &[u16],
    counts: &mut [u32],
    register: &[u16],
    into: &mut [u16],
    list: &mut [u16],
    work: &mut [u32],
    p: u16,
) -> u64
    ensures { Packs (does (Bin p))
        (areas_of (store_of n states.old links.old leaders.old holds.now counts.old register.now into.old)
        list.old work.old)
        result (areas_of (store_of n states.new links.new leaders.new holds.now counts.new register.now into.new)
        list.new work.new) }
{
    packing::pack(store::bin(
        n, states, links, leaders, holds, counts, register, into, list, work, p,
    ))
}

// State, leader, count of its group, holds of P; for a draft 1, none, 0, 0.
#[unsafe(no_mangle)]
pub extern "C" fn pieces_look(
    n: usize,
    states: &[u8],
    links: &[u16],
    leaders: &[u16],
    holds: &[u16],
    counts: &[u32],
    register: &[u16],
    into: &[u16],
    work: &mut [u32],
    p: u16,
) -> u64
    ensures { Packs (does (Look p))
        (areas_of (store_of n states.now links.now leaders.now holds.now counts.now register.now into.now)
        [] work.old)
        result (areas_of (store_of n states.now links.now leaders.now holds.now counts.now register.now into.now)
        [] work.new) }
{
    packing::pack_seen(store::look(
        n, states, links, leaders, holds, counts, register, into, work, p,
    ))
}

// Yes exactly if the store is sound.
#[unsafe(no_mangle)]
pub extern "C" fn pieces_check(
    n: usize,
    states: &[u8],
    links: &[u16],
    leaders: &[u16],
    holds: &[u16],
    counts: &[u32],
    register: &[u16],
    into: &[u16],
    work: &mut [u32],
) -> u64
    ensures { Packs check
        (areas_of (store_of n states.now links.now leaders.now holds.now counts.now register.now into.now)
        [] work.old)
        result (areas_of (store_of n states.now links.now leaders.now holds.now counts.now register.now into.now)
        [] work.new) }
{
    packing::pack_checked(store::check(
        n, states, links, leaders, holds, counts, register, into, work,
    ))
}

// A trace lent in memory: the output's length, and the room holds the output, then zeros; or LONG or ROOM above 2^63.
#[unsafe(no_mangle)]
pub extern "C" fn pieces_trace(trace: &[u8], room: &mut [u8]) -> u64
    ensures { given result room.new ≡ lent_trace trace.now room.old }
{
    lending::lent_trace(trace, room)
}
