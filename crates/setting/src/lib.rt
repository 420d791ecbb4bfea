// Set on sound tables: draft P's link K becomes T, and the links into each draft follow.
// The areas come one by one: some are read and some are written, and a struct of `&mut` slices would need a clause for each that it stays the same slice.
#![tactic(auto)]

ghost use Rattle.std.specs.Prelude.{◌≤◌, length};
ghost use Rattle.rules.specs.Tables.{tables_of};
ghost use Rattle.rules.specs.Calls.{answered, Ready};
ghost use Rattle.rules.specs.declared.Command.TheVariants.{Set};
ghost use Rattle.laws.specs.ByTables.{DidTables, tables_effect};
ghost use Rattle.into.specs.Into.{Into};
ghost use Rattle.editing.specs.Verdicts.{Worked};
ghost use Rattle.editing.specs.Set.{Setting};

use rules::{Answer, Done, Refusal, Store};

// Draft p's link k becomes t; then every frozen piece no longer kept becomes free. Gives how many.
fn set_place(
    n: usize,
    states: &mut [u8],
    links: &mut [u16],
    leaders: &mut [u16],
    holds: &[u16],
    counts: &mut [u32],
    list: &mut [u16],
    p: usize,
    k: usize,
    t: u16,
) -> usize
    requires { Setting (tables_of n states.old links.old leaders.old holds.now counts.old) list.old p k t }
    ensures { Worked (Set p k t)
        (tables_of n states.old links.old leaders.old holds.now counts.old) list.old
        (tables_of n states.new links.new leaders.new holds.now counts.new) list.new result }
{
    let old = linking::relink(n, links, leaders, counts, p, k, t);
    let first = letting_go::fall(n, states, leaders, counts, list, old, 0);
    if first == 0 {
        return 0;
    }
    letting_go::let_go(n, states, links, leaders, counts, list, first)
}

// Draft P's link K becomes T: none, a draft, a frozen piece, P itself.
pub fn set_link(
    n: usize,
    states: &mut [u8],
    links: &mut [u16],
    leaders: &mut [u16],
    holds: &[u16],
    counts: &mut [u32],
    into: &mut [u16],
    list: &mut [u16],
    p: u16,
    k: u16,
    t: u16,
) -> Answer
    requires { Ready (tables_of n states.old links.old leaders.old holds.now counts.old) × Into n states.old links.old into.old × (n ≤ length list.old) }
    ensures { DidTables (Set p k t)
        (tables_of n states.old links.old leaders.old holds.now counts.old) list.old
        (tables_effect (answered result) (tables_of n states.new links.new leaders.new holds.now counts.new) list.new)
        × Into n states.new links.new into.new }
{
    naming::link(n, states, p, k, t)?;
    let at = p as usize;
    if states[at] == Store::FROZEN {
        return Err(Refusal::State);
    }
    let place = k as usize;
    let was = links[Store::LINKS * at + place] as usize;
    into::follow(n, states, into, at, was, t);
    let freed = set_place(n, states, links, leaders, holds, counts, list, at, place, t) as u16;
    Ok(Done {
        value: Store::NONE,
        freed,
    })
}
