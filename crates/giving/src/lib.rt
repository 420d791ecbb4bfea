// New on sound tables: the lowest free number is given out.
#![tactic(auto)]

ghost use Rattle.giving.specs.Gave.{Giving, Gave};

use rules::{Answer, Done, Refusal, Store};

// The lowest free number becomes a draft, where no number below from is free; its number is the value.
pub fn new(n: usize, states: &mut [u8], from: usize) -> Answer
    requires { Giving n states.old from }
    ensures { Gave n states.old result states.new }
{
    let p = areas::lowest_free(n, states, from);
    if p == n {
        return Err(Refusal::Full);
    }
    states[p] = Store::DRAFT;
    let value = p as u16;
    Ok(Done { value, freed: 0 })
}
