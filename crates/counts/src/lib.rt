// What a link adds to the counts of the groups.
#![tactic(auto)]

ghost use Rattle.tallies.specs.Places.{LinkAdded};
ghost use Rattle.counts.specs.Added.{Countable};

// Adds one to the count of the target's label, unless it is the label of the piece that names it.
pub fn add_link(n: usize, leaders: &[u16], counts: &mut [u32], own: usize, target: u16)
    requires { Countable n leaders.now counts.old }
    ensures { LinkAdded n leaders.now own target counts.old counts.new }
{
    let t = target as usize;
    if n <= t {
        return;
    }
    let l = leaders[t] as usize;
    if n <= l {
        return;
    }
    if l == own {
        return;
    }
    counts[l] = counts[l] + 1;
}
