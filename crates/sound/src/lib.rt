// The check of whole tables: every piece is well, leaders, counts and the links into each draft are as defined, and no group has count 0.
// Of the work, the first six regions of n entries are the search's; the seventh has what is counted: for a group at its leader, for a draft at its number; the eighth is left at 0.
// A pass that only compares counts its faults and is not left early: such a loop compiles to vector instructions. The first sets what the walks read to 0 too.
#![tactic(auto)]

ghost use Rattle.std.specs.Prelude.{◌≡◌, true, ◌+◌, ◌*◌, ◌≤◌, ◌<◌, length};
ghost use Rattle.rules.specs.Lists.{◌!◌};
ghost use Rattle.rules.specs.Tests.{◌&◌};
ghost use Rattle.rules.specs.Tables.{is_sound, into_right};
ghost use Rattle.rules.specs.Words.{Sized};
ghost use Rattle.areas.specs.Read.{told};
ghost use Rattle.tallies.specs.Adding.{LaterSame};
ghost use Rattle.counts.specs.Added.{HoldAdded};
ghost use Rattle.sound.specs.Truthful.{Truthful, Below};
ghost use Rattle.sound.specs.Faults.{Faults};
ghost use Rattle.sound.specs.Wells.{HoldsWell, MostHolds, HeldWell};
ghost use Rattle.sound.specs.Zeros.{PiecesZeroed};
ghost use Rattle.sound.specs.Labels.{label_by, labels};
ghost use Rattle.sound.specs.Link.{HoldGiven, LinkGiven, LinkTested};
ghost use Rattle.sound.specs.Links.{LinksGiven, LinksTested, RestEmpty};
ghost use Rattle.sound.specs.Tested.{TablesGiven, AllTested};
ghost use Rattle.sound.specs.Leaders.{Led, LeaderFound};
ghost use Rattle.sound.specs.Counted.{CountGiven, UpTested};
ghost use Rattle.sound.specs.Compared.{Compared, CountFound};
ghost use Rattle.sound.specs.Judged.{SumsZero};

use areas::Tables;
use rules::Store;

// The most holds that a piece of this state may have: none unless frozen.
fn most_holds(state: u8) -> u16
    ensures { MostHolds state result }
{
    if state == Store::FROZEN {
        Store::HOLDS
    } else {
        0
    }
}

// 1 unless the holds of a piece of this state are well: 0 unless frozen, and at most 1,000.
fn holds_fault(state: u8, holds: u16) -> u16
    ensures { Faults (HoldsWell state holds) 1 result }
{
    u16::from(Store::FROZEN < state || most_holds(state) < holds)
}

// How many pieces have states or holds that are not well.
fn held_faults(states: &[u8], holds: &[u16]) -> u16
    requires { (length states.now ≤ 1024) × (length holds.now ≡ length states.now) }
    ensures { Faults (Below (HeldWell states.now holds.now) (length states.now)) (length states.now) result }
{
    let mut faults = 0;
    for (state, held) in states.iter().zip(holds) {
        faults += holds_fault(*state, *held);
    }
    faults
}

// Sets what the walks read of all pieces to 0: marks and next places, what is counted and what is added up.
fn zero_pieces(n: usize, work: &mut [u32])
    requires { (n ≤ 1024) × (8 * n ≤ length work.old) }
    ensures { PiecesZeroed n 0 n work.old work.new }
{
    work[..2 * n].fill(0);
    work[6 * n..8 * n].fill(0);
}

// Whether the states and the holds of all pieces are well. What the walks read is set to 0.
fn all_held(tables: Tables, work: &mut [u32]) -> bool
    requires { (tables.n ≤ 1024) × (length tables.states.now ≡ tables.n) × (length tables.holds.now ≡ tables.n) × (8 * tables.n ≤ length work.old) }
    ensures { let t = told tables.entry in
        Truthful (Below (HeldWell t.base.states t.base.holds) t.base.n) result × PiecesZeroed t.base.n 0 t.base.n work.old work.new }
{
    let faults = held_faults(tables.states, tables.holds);
    zero_pieces(tables.n, work);
    faults == 0
}

// The label of a piece: its leader, and its own number if it has none.
fn label(tables: Tables, p: usize) -> usize
    requires { p < length tables.leaders.now }
    ensures { result ≡ label_by tables.entry.n (tables.entry.leaders.now ! p) p }
{
    let l = tables.leaders[p] as usize;
    if l < tables.n { l } else { p }
}

// Adds the holds of a piece, if it has any, to the count of its label.
fn add_hold(tables: Tables, counts: &mut [u32], p: usize)
    requires { HoldGiven (told tables) counts.old p }
    ensures counted { let t = told tables.entry in HoldAdded t.base.n t.base.holds (labels t.base.n t.leaders) p counts.old counts.new }
    ensures wide { tables.entry.holds.now ! p < 65536 }
{
    if tables.holds[p] != 0 {
        let l = label(tables, p);
        counts[l] += tables.holds[p] as u32;
    }
}

// Whether a piece of this state, not free, may name the target: none, from a draft a live piece, from a frozen piece a frozen one.
// If it may, the link is counted, unless the target's label is the piece's own.
fn link_well(tables: Tables, counts: &mut [u32], state: u8, own: usize, target: u16) -> bool
    requires { LinkGiven (told tables) counts.old state }
    ensures { LinkTested (told tables.entry) state own target counts.old counts.new result }
{
    let t = target as usize;
    if tables.n <= t {
        return target == Store::NONE;
    }
    if tables.states[t] < state {
        return false;
    }
    let l = label(tables, t);
    if l != own {
        counts[l] += 1;
    }
    true
}

// Whether the word of a piece tells that its links from k on are empty, where k is 1 or 2.
fn rest_empty(word: u64, k: usize) -> bool
    ensures { Truthful (RestEmpty word k) result }
{
    k == 1 && areas::ONE_AT_MOST <= word || k == 2 && areas::TWO_AT_MOST <= word
}

// Whether the four links of a piece are well. If they are, each is counted.
fn links_well(tables: Tables, counts: &mut [u32], p: usize) -> bool
    requires { LinksGiven (told tables) counts.old p }
    ensures { LinksTested (told tables.entry) p counts.old counts.new result }
{
    let word = areas::four(tables.links, p);
    if word == areas::FOUR_NONE {
        return true;
    }
    let state = tables.states[p];
    if state == Store::FREE {
        return false;
    }
    let own = label(tables, p);
    for k in 0..Store::LINKS {
        if rest_empty(word, k) {
            return true;
        }
        let target = tables.links[Store::LINKS * p + k];
        if !link_well(tables, counts, state, own, target) {
            return false;
        }
    }
    true
}

// Whether the links of all pieces are well. If they are, their holds and their links are counted, into entries that are 0.
fn all_linked(tables: Tables, counts: &mut [u32]) -> bool
    requires { TablesGiven (told tables) counts.old }
    ensures { AllTested (told tables.entry) counts.old counts.new result }
{
    for p in 0..tables.n {
        add_hold(tables, counts, p);
        if !links_well(tables, counts, p) {
            return false;
        }
    }
    true
}

// Whether the links of all pieces are well. If they are, all labels are counted, into the seventh region.
fn count_up(tables: Tables, work: &mut [u32]) -> bool
    requires { CountGiven (told tables) work.old }
    ensures { UpTested (told tables.entry) work.old work.new result }
{
    all_linked(tables, &mut work[6 * tables.n..])
}

// 1 unless the leader of a piece of this state is the one found: none unless frozen.
fn leader_fault(state: u8, leader: u16, found: u32) -> u32
    ensures { Faults (Led state leader found) 1 result }
{
    let right = if state == Store::FROZEN {
        found
    } else {
        Store::NONE as u32
    };
    u32::from(leader as u32 != right)
}

// Whether all leaders are those found.
fn leaders_found(tables: Tables, work: &[u32]) -> bool
    requires { Sized (told tables) × (8 * tables.n ≤ length work.now) }
    ensures { let t = told tables.entry in Truthful (Below (LeaderFound t.base.n t.base.states t.leaders work.now) t.base.n) result }
{
    let n = tables.n;
    let mut faults = 0;
    for p in 0..n {
        faults += leader_fault(tables.states[p], tables.leaders[p], work[2 * n + p]);
    }
    faults == 0
}

// 1 unless the entries of a piece are those counted, and its count is not 0 if it leads.
fn count_fault(leader: u16, p: u16, count: u32, into: u16, counted: u32) -> u32
    ensures { Faults (Compared leader p count into counted) 1 result }
{
    // What is counted is its count if it has a leader, else the links into it; the other has to be 0.
    let (found, other) = if leader == Store::NONE {
        (into as u32, count)
    } else {
        (count, into as u32)
    };
    u32::from(found != counted || other != 0 || leader == p && count == 0)
}

// Whether all counts and the links into each draft are those counted, and no group has count 0.
fn counts_found(tables: Tables, into: &[u16], work: &[u32]) -> bool
    requires { Sized (told tables) × (length into.now ≡ tables.n) × (8 * tables.n ≤ length work.now) }
    ensures { let t = told tables.entry in Truthful (Below (CountFound t.base.n t.leaders t.counts into.now work.now) t.base.n) result }
{
    let n = tables.n;
    let mut faults = 0;
    for p in 0..n {
        faults += count_fault(
            tables.leaders[p],
            p as u16,
            tables.counts[p],
            into[p],
            work[6 * n + p],
        );
    }
    faults == 0
}

// Whether the tables are sound and the links into each draft right. Work may hold anything; if they are its eighth region is 0 afterwards, and what is behind the first 8N entries is unchanged.
pub fn is_sound(tables: Tables, into: &[u16], work: &mut [u32]) -> bool
    requires { Sized (told tables) × (length into.now ≡ tables.n) × (8 * tables.n ≤ length work.old) }
    ensures { let t = told tables.entry in (result ≡ (is_sound t & into_right t.base into.now)) ×
        LaterSame (8 * t.base.n) work.old work.new × (result ≡ true → SumsZero t.base.n work.new) }
{
    if !all_held(tables, work) {
        return false;
    }
    if !count_up(tables, work) {
        return false;
    }
    groups::visit_all(tables.n, tables.states, tables.links, 2, work);
    leaders_found(tables, work) && counts_found(tables, into, work)
}
