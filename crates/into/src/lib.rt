// The links into each draft: for a draft the link places of other pieces that name it, 0 for all else.
// The areas come one by one: C lends some of them to read alone.
#![tactic(auto)]

ghost use Rattle.std.specs.Prelude.{◌≡◌, length};
ghost use Rattle.into.specs.Forgotten.{Forgetting, Forgotten};
ghost use Rattle.into.specs.Moves.{Counting, Reckoned, More, Takable, Less, Followable, Followed};

use rules::Store;

// Whether a link of piece r to t counts for t: t is another draft.
fn counts_for(n: usize, states: &[u8], r: usize, t: usize) -> bool
    requires { length states.now ≡ n }
    ensures { Counting n states.now r t result }
{
    t < n && states[t] == Store::DRAFT && t != r
}

// One link more from piece r to t.
fn more(n: usize, states: &[u8], into: &mut [u16], r: usize, t: usize)
    requires { Reckoned n states.now into.old }
    ensures { More n states.now r t into.old into.new }
{
    if counts_for(n, states, r, t) {
        into[t] += 1;
    }
}

// One less.
fn less(n: usize, states: &[u8], into: &mut [u16], r: usize, t: usize)
    requires { Takable n states.now into.old r t }
    ensures { Less n states.now r t into.old into.new }
{
    if counts_for(n, states, r, t) {
        into[t] -= 1;
    }
}

// A link place of piece r goes from one target to another.
pub fn follow(n: usize, states: &[u8], into: &mut [u16], r: usize, was: usize, t: u16)
    requires { Followable n states.now into.old r was }
    ensures { Followed n states.now r was t into.old into.new }
{
    more(n, states, into, r, t as usize);
    less(n, states, into, r, was);
}

// The links of piece p are taken off.
pub fn forget(n: usize, states: &[u8], links: &[u16], into: &mut [u16], p: usize)
    requires { Forgetting n states.now links.now into.old p }
    ensures { Forgotten n states.now links.now into.old p 4 into.new }
{
    for k in 0..Store::LINKS {
        less(n, states, into, p, links[Store::LINKS * p + k] as usize);
    }
}
