// How every call but start begins and ends: the sizes, then the soundness; on the way out work is cleared.
#![tactic(auto)]

ghost use Rattle.std.specs.Prelude.{◌≡◌, ◌*◌, ◌≤◌, length};
ghost use Rattle.rules.specs.Tables.{store_on, is_sound_store};
ghost use Rattle.rules.specs.Words.{SizedStore};
ghost use Rattle.rules.specs.Calls.{is_sized_store, clear};
ghost use Rattle.areas.specs.Read.{told};
ghost use Rattle.tallies.specs.Adding.{LaterSame};
ghost use Rattle.entering.specs.Entered.{fits, Entered, Leaving};

use areas::Tables;
use rules::{Refusal, Store};

// Whether n is a capacity and each area of the store has exactly its length.
#[tactic(auto, unfolding(rules::specs::Calls::is_sized_store))]
pub fn sized(tables: Tables, register: &[u16], into: &[u16]) -> bool
    ensures { result ≡ is_sized_store (store_on (told tables.entry) register.now into.now) }
{
    areas::sized(tables) && register.len() == Store::ENTRIES && into.len() == tables.n
}

// Whether every size is right, with room entries of list.
#[tactic(auto, unfolding(crate::specs::Entered::fits))]
fn fits(tables: Tables, register: &[u16], into: &[u16], room: usize, work: &[u32]) -> bool
    ensures { result ≡ fits (store_on (told tables.entry) register.now into.now) room work.now }
{
    sized(tables, register, into) && 8 * tables.n <= work.len() && tables.n <= room
}

// Whether the store is sound: its tables and the links into each draft, then the register, whose holds are added up in the eighth region of work.
fn is_sound(tables: Tables, register: &[u16], into: &[u16], work: &mut [u32]) -> bool
    requires { SizedStore (store_on (told tables) register.now into.now) × (8 * tables.n ≤ length work.old) }
    ensures { (result ≡ is_sound_store (store_on (told tables.entry) register.now into.now)) × LaterSame (8 * tables.entry.n) work.old work.new }
{
    let n = tables.n;
    sound::is_sound(tables, into, work)
        && register::agrees(n, register, tables.holds, &mut work[7 * n..])
}

// What every call but start does first: the sizes, with room entries of list, then the soundness.
// A wrong size leaves work unchanged, and an unsound store leaves its first 8N entries 0; where the store is sound they may hold anything afterwards.
pub fn enter(
    tables: Tables,
    register: &[u16],
    into: &[u16],
    room: usize,
    work: &mut [u32],
) -> Result<(), Refusal>
    ensures { Entered (store_on (told tables.entry) register.now into.now) room work.old result work.new }
{
    if !fits(tables, register, into, room, work) {
        return Err(Refusal::Size);
    }
    if !is_sound(tables, register, into, work) {
        leave(tables.n, work);
        return Err(Refusal::Unsound);
    }
    Ok(())
}

// What every call but start does last, unless a size is wrong: the first 8N entries of work become 0.
#[tactic(auto, unfolding(rules::specs::Calls::clear))]
pub fn leave(n: usize, work: &mut [u32])
    requires { Leaving n work.old }
    ensures { work.new ≡ clear n work.old }
{
    work[..8 * n].fill(0);
}
