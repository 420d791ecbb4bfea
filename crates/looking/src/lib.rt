// Look on sound tables: what a piece is, and nothing changes.
#![tactic(auto)]

ghost use Rattle.std.specs.Prelude.{[]};
ghost use Rattle.rules.specs.Calls.{Ready, saw};
ghost use Rattle.rules.specs.declared.Command.TheVariants.{Look};
ghost use Rattle.laws.specs.ByTables.{DidTables, tables_effect};
ghost use Rattle.areas.specs.Read.{told};

use areas::Tables;
use rules::{Piece, Seen};

// State, leader, count of its group, holds of P; for a draft 1, none, 0, 0.
#[tactic(auto, using(naming::specs::Told::piece_named))]
pub fn look(tables: Tables, p: u16) -> Seen
    requires { Ready (told tables) }
    ensures { DidTables (Look p) (told tables.entry) [] (tables_effect (saw result) (told tables.entry) []) }
{
    naming::piece(tables.n, tables.states, p)?;
    let q = p as usize;
    let leader = tables.leaders[q];
    let l = leader as usize;
    // A leader of none has no count.
    let count = tables.counts.get(l).copied().unwrap_or(0);
    Ok(Piece {
        state: tables.states[q],
        leader,
        count,
        holds: tables.holds[q],
    })
}
