// One link place of a draft goes to another target, and the counts follow.
// The areas come one by one: some are read and some are written, and a struct of `&mut` slices would need a clause for each that it stays the same slice.
#![tactic(auto)]

ghost use Rattle.std.specs.Prelude.{◌≡◌, ◌+◌, ◌*◌, ◌<◌, length, set};
ghost use Rattle.editing.specs.Relink.{Uncounting, Uncounted, Relinking, Relinked};

use rules::Store;

// One less for the group of t, if it has one.
fn count_out(n: usize, leaders: &[u16], counts: &mut [u32], t: usize)
    requires { Uncounting n leaders.now counts.old t }
    ensures { Uncounted n leaders.now counts.old t counts.new }
{
    if n <= t {
        return;
    }
    let l = leaders[t] as usize;
    if n <= l {
        return;
    }
    counts[l] = counts[l] - 1;
}

// Writes link k of the piece whose four links start the part.
fn put_link(part: &mut [u16], k: usize, t: u16)
    requires { k < length part.old }
    ensures { part.new ≡ set part.old k t }
{
    part[k] = t;
}

// Draft p's link k becomes t. The new target is counted, as named by a piece without a leader, before the old one is taken away. Gives the old one.
pub fn relink(
    n: usize,
    links: &mut [u16],
    leaders: &[u16],
    counts: &mut [u32],
    p: usize,
    k: usize,
    t: u16,
) -> usize
    requires { Relinking n links.old leaders.now counts.old (4 * p + k) t }
    ensures { Relinked n links.old leaders.now counts.old (4 * p + k) t links.new counts.new result }
{
    let at = Store::LINKS * p;
    let i = at + k;
    let old = links[i] as usize;
    let none = Store::NONE as usize;
    counts::add_link(n, leaders, counts, none, t);
    put_link(&mut links[at..], k, t);
    count_out(n, leaders, counts, old);
    old
}
