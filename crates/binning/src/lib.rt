// Bin on sound tables: draft P becomes free, where no other piece links to it.
// The areas come one by one: some are read and some are written, and a struct of `&mut` slices would need a clause for each that it stays the same slice.
#![tactic(auto)]

ghost use Rattle.std.specs.Prelude.{◌≡◌, ◌*◌, ◌≤◌, ◌<◌, length};
ghost use Rattle.rules.specs.Tables.{tables_of};
ghost use Rattle.rules.specs.Calls.{answered, Ready};
ghost use Rattle.rules.specs.declared.Command.TheVariants.{Bin};
ghost use Rattle.laws.specs.ByTables.{DidTables, tables_effect};
ghost use Rattle.into.specs.Into.{Into};
ghost use Rattle.editing.specs.Verdicts.{Worked};
ghost use Rattle.editing.specs.Started.{Tippings, Tumbled};
ghost use Rattle.editing.specs.Emptied.{Emptying, Emptied};
ghost use Rattle.editing.specs.Bin.{Binning};

use rules::{Answer, Done, Refusal, Store};

// Empties the four places of draft p.
fn empty_places(n: usize, links: &mut [u16], leaders: &[u16], counts: &mut [u32], p: usize)
    requires { Emptying n links.old leaders.now counts.old p }
    ensures { Emptied n links.old leaders.now counts.old p 4 links.new counts.new }
{
    for k in 0..Store::LINKS {
        linking::relink(n, links, leaders, counts, p, k, Store::NONE);
    }
}

// Puts the leaders of the groups of these pieces into the queue, those whose count has fallen to 0. Gives how many.
fn fall_each(
    n: usize,
    states: &mut [u8],
    leaders: &[u16],
    counts: &[u32],
    list: &mut [u16],
    named: &[u16],
) -> usize
    requires { Tippings n states.old leaders.now counts.now list.old 0 named.now }
    ensures { Tumbled n states.old leaders.now counts.now list.old 0 named.now states.new list.new result }
{
    let mut tail = 0;
    for &t in named {
        tail = letting_go::fall(n, states, leaders, counts, list, t as usize, tail);
    }
    tail
}

// Draft p, which no other piece names, becomes free; then every frozen piece no longer kept does. Gives how many frozen pieces.
fn bin_draft(
    n: usize,
    states: &mut [u8],
    links: &mut [u16],
    leaders: &mut [u16],
    holds: &[u16],
    counts: &mut [u32],
    list: &mut [u16],
    p: usize,
) -> usize
    requires { Binning (tables_of n states.old links.old leaders.old holds.now counts.old) list.old p }
    ensures { Worked (Bin p)
        (tables_of n states.old links.old leaders.old holds.now counts.old) list.old
        (tables_of n states.new links.new leaders.new holds.now counts.new) list.new result }
{
    let at = Store::LINKS * p;
    let named = [links[at], links[at + 1], links[at + 2], links[at + 3]];
    empty_places(n, links, leaders, counts, p);
    states[p] = Store::FREE;
    let first = fall_each(n, states, leaders, counts, list, &named);
    if first == 0 {
        return 0;
    }
    letting_go::let_go(n, states, links, leaders, counts, list, first)
}

// Draft P becomes free.
pub fn bin(
    n: usize,
    states: &mut [u8],
    links: &mut [u16],
    leaders: &mut [u16],
    holds: &[u16],
    counts: &mut [u32],
    into: &mut [u16],
    list: &mut [u16],
    p: u16,
) -> Answer
    requires { Ready (tables_of n states.old links.old leaders.old holds.now counts.old) × Into n states.old links.old into.old × (n ≤ length list.old) }
    ensures { DidTables (Bin p)
        (tables_of n states.old links.old leaders.old holds.now counts.old) list.old
        (tables_effect (answered result) (tables_of n states.new links.new leaders.new holds.now counts.new) list.new)
        × Into n states.new links.new into.new }
{
    naming::piece(n, states, p)?;
    let at = p as usize;
    if states[at] == Store::FROZEN {
        return Err(Refusal::State);
    }
    if into[at] != 0 {
        return Err(Refusal::Linked);
    }
    into::forget(n, states, links, into, at);
    let freed = bin_draft(n, states, links, leaders, holds, counts, list, at) as u16;
    Ok(Done {
        value: Store::NONE,
        freed,
    })
}
