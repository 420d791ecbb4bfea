// Acquire and release by a seat, on a sound store: one hold more or less.
// The areas come one by one: some are read and some are written, and a struct of `&mut` slices would need a clause for each that it stays the same slice.
#![tactic(auto)]

ghost use Rattle.std.specs.Prelude.{◌≡◌, ◌+◌, ◌≤◌, length, set};
ghost use Rattle.rules.specs.Lists.{◌!◌};
ghost use Rattle.rules.specs.Tables.{tables_of, store_by};
ghost use Rattle.rules.specs.Calls.{answered, effect, ReadyStore, Did};
ghost use Rattle.rules.specs.declared.Command.TheVariants.{Release};
ghost use Rattle.editing.specs.Verdicts.{Worked};
ghost use Rattle.editing.specs.Holds.{Releasing};
ghost use Rattle.holding.specs.Acquired.{Acquiring, Acquired, OneMore};

use rules::{Answer, Done, Refusal, Store};

// One hold more on frozen p, and one more in its leader's count.
pub fn add_hold(n: usize, leaders: &[u16], holds: &mut [u16], counts: &mut [u32], p: usize)
    requires { OneMore n leaders.now holds.old counts.old p }
    ensures { (holds.new ≡ set holds.old p (holds.old ! p + 1))
        × (counts.new ≡ set counts.old (leaders.now ! p) (counts.old ! (leaders.now ! p) + 1)) }
{
    let l = leaders[p] as usize;
    holds[p] = holds[p] + 1;
    counts[l] = counts[l] + 1;
}

// One hold more of the seat on frozen P.
pub fn acquire(
    n: usize,
    states: &[u8],
    leaders: &[u16],
    holds: &mut [u16],
    counts: &mut [u32],
    register: &mut [u16],
    p: u16,
    seat: u16,
) -> Answer
    requires { Acquiring n states.now leaders.now holds.old counts.old register.old }
    ensures { Acquired n states.now leaders.now holds.old counts.old register.old p seat result
        holds.new counts.new register.new }
{
    if Store::SEATS <= seat {
        return Err(Refusal::Seat);
    }
    naming::piece(n, states, p)?;
    let at = p as usize;
    if states[at] == Store::DRAFT {
        return Err(Refusal::State);
    }
    if holds[at] >= Store::HOLDS {
        return Err(Refusal::Limit);
    }
    let line = register::find(register, seat, p);
    if !register::has_room(register, line, seat, p) {
        return Err(Refusal::Register);
    }
    add_hold(n, leaders, holds, counts, at);
    register::more(register, line, seat, p);
    Store::fresh()
}

// One hold less on frozen and held p; then every frozen piece no longer kept becomes free. Gives how many.
fn let_hold_go(
    n: usize,
    states: &mut [u8],
    links: &mut [u16],
    leaders: &mut [u16],
    holds: &mut [u16],
    counts: &mut [u32],
    list: &mut [u16],
    p: usize,
) -> usize
    requires { Releasing (tables_of n states.old links.old leaders.old holds.old counts.old) list.old p }
    ensures { Worked (Release p 0)
        (tables_of n states.old links.old leaders.old holds.old counts.old) list.old
        (tables_of n states.new links.new leaders.new holds.new counts.new) list.new result }
{
    let l = leaders[p] as usize;
    holds[p] = holds[p] - 1;
    counts[l] = counts[l] - 1;
    let first = letting_go::fall(n, states, leaders, counts, list, p, 0);
    if first == 0 {
        return 0;
    }
    letting_go::let_go(n, states, links, leaders, counts, list, first)
}

// One hold less of the seat on frozen P.
pub fn release(
    n: usize,
    states: &mut [u8],
    links: &mut [u16],
    leaders: &mut [u16],
    holds: &mut [u16],
    counts: &mut [u32],
    register: &mut [u16],
    list: &mut [u16],
    p: u16,
    seat: u16,
) -> Answer
    requires { ReadyStore (store_by (tables_of n states.old links.old leaders.old holds.old counts.old) register.old) × (n ≤ length list.old) }
    ensures { Did (Release p seat)
        (store_by (tables_of n states.old links.old leaders.old holds.old counts.old) register.old) list.old
        (effect (answered result) (store_by (tables_of n states.new links.new leaders.new holds.new counts.new) register.new)
        list.new) }
{
    if Store::SEATS <= seat {
        return Err(Refusal::Seat);
    }
    naming::piece(n, states, p)?;
    let at = p as usize;
    if states[at] == Store::DRAFT {
        return Err(Refusal::State);
    }
    if holds[at] == 0 {
        return Err(Refusal::NotHeld);
    }
    let line = register::find(register, seat, p);
    if register::number_at(register, line, seat, p) == 0 {
        return Err(Refusal::NotYours);
    }
    let freed = let_hold_go(n, states, links, leaders, holds, counts, list, at) as u16;
    register::less(register, line, seat, p);
    Ok(Done {
        value: Store::NONE,
        freed,
    })
}
