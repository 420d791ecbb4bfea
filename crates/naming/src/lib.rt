// The names that a command gives: a piece, or a piece, a place and a target. The first refusal that applies to them, in the table's order.
#![tactic(auto)]

ghost use Rattle.std.specs.Prelude.{◌≡◌, length};
ghost use Rattle.naming.specs.Told.{ToldPiece, ToldLink};

use rules::{Refusal, Store};

// Whether P names a piece: NUMBER, FREE.
#[tactic(auto, using(crate::specs::Told::told_piece))]
pub fn piece(n: usize, states: &[u8], p: u16) -> Result<(), Refusal>
    requires { length states.now ≡ n }
    ensures { ToldPiece n states.now p result }
{
    let at = p as usize;
    if n <= at {
        return Err(Refusal::Number);
    }
    if states[at] == Store::FREE {
        return Err(Refusal::Free);
    }
    Ok(())
}

// Whether P names a piece, K one of its places, and T none or a piece: NUMBER, PLACE, TARGET, FREE, FREETARGET.
#[tactic(auto, using(crate::specs::Told::told_link))]
pub fn link(n: usize, states: &[u8], p: u16, k: u16, t: u16) -> Result<(), Refusal>
    requires { length states.now ≡ n }
    ensures { ToldLink n states.now p k t result }
{
    let at = p as usize;
    if n <= at {
        return Err(Refusal::Number);
    }
    let place = k as usize;
    if Store::LINKS <= place {
        return Err(Refusal::Place);
    }
    // A T of none is not looked up.
    if t == Store::NONE {
        if states[at] == Store::FREE {
            return Err(Refusal::Free);
        }
        return Ok(());
    }
    let to = t as usize;
    if n <= to {
        return Err(Refusal::Target);
    }
    if states[at] == Store::FREE {
        return Err(Refusal::Free);
    }
    if states[to] == Store::FREE {
        return Err(Refusal::FreeTarget);
    }
    Ok(())
}
