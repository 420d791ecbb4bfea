// Leaves over the areas: the tables as they are read, sizes, the lowest free number, one piece's links.
#![tactic(auto)]

ghost use Rattle.std.specs.Prelude.{◌≡◌, ◌+◌, ◌*◌, ◌≤◌, ◌<◌, length};
ghost use Rattle.rules.specs.Calls.{is_sized};
ghost use Rattle.areas.specs.Read.{told};
ghost use Rattle.areas.specs.Lowest.{NoneFree, LowestFree};
ghost use Rattle.areas.specs.Blocks.{Shows};
ghost use Rattle.areas.specs.Four.{Four};

use rules::Store;

// The store's tables where they are read.
#[derive(Clone, Copy)]
pub struct Tables<'a> {
    pub n: usize,
    pub states: &'a [u8],
    pub links: &'a [u16],
    pub leaders: &'a [u16],
    pub holds: &'a [u16],
    pub counts: &'a [u32],
}

// Whether n is a capacity and each area of the store has exactly its length.
#[tactic(auto, unfolding(rules::specs::Calls::is_sized))]
pub fn sized(tables: Tables) -> bool
    ensures { result ≡ is_sized (told tables.entry) }
{
    let n = tables.n;
    1 <= n
        && n <= Store::MOST
        && tables.states.len() == n
        && tables.links.len() == Store::LINKS * n
        && tables.leaders.len() == n
        && tables.holds.len() == n
        && tables.counts.len() == n
}

// The lowest free number, or n, where no number below from is free: number by number.
fn lowest_near(n: usize, states: &[u8], from: usize) -> usize
    requires { (length states.now ≡ n) × (from ≤ n) × NoneFree states.now from }
    ensures { LowestFree n states.now result }
{
    for p in from..n {
        if states[p] == Store::FREE {
            return p;
        }
    }
    n
}

// Whether one of the `size` numbers from `from` on is free.
fn shows(states: &[u8], from: usize, size: usize) -> bool
    requires { from + size ≤ length states.now }
    ensures { Shows states.now from size result }
{
    let mut some = false;
    for state in &states[from..from + size] {
        some |= *state == Store::FREE;
    }
    some
}

// The start of the first block of `size` numbers that has a free one, counted from `from`, below which nothing is free.
fn pass_blocks(n: usize, states: &[u8], from: usize, size: usize) -> usize
    requires { (length states.now ≡ n) × (from ≤ n) × (1 ≤ size) × NoneFree states.now from }
    ensures { (result ≤ n) × NoneFree states.now result }
{
    let mut p = from;
    while size <= n - p {
        if shows(states, p, size) {
            return p;
        }
        p += size;
    }
    p
}

// The lowest free number, or n, where no number below from is free: most often it is from, and else blocks of 64 and of 8 are passed.
pub fn lowest_free(n: usize, states: &[u8], from: usize) -> usize
    requires { (length states.now ≡ n) × (from ≤ n) × NoneFree states.now from }
    ensures { LowestFree n states.now result }
{
    if n <= from {
        return from;
    }
    if states[from] == Store::FREE {
        return from;
    }
    let far = pass_blocks(n, states, from + 1, 64);
    let near = pass_blocks(n, states, far, 8);
    lowest_near(n, states, near)
}

// The word of four empty links, and the lowest of those whose last three are empty, and last two.
pub const FOUR_NONE: u64 = u64::MAX;

pub const ONE_AT_MOST: u64 = u64::MAX << 16;

pub const TWO_AT_MOST: u64 = u64::MAX << 32;

// The four links of a piece as one word, the first lowest.
pub fn four(links: &[u16], p: usize) -> u64
    requires { 4 * p + 3 < length links.now }
    ensures { Four links.now p result }
{
    let a = links[Store::LINKS * p] as u64;
    let b = links[Store::LINKS * p + 1] as u64;
    let c = links[Store::LINKS * p + 2] as u64;
    let d = links[Store::LINKS * p + 3] as u64;
    a + 65536 * b + 4294967296 * c + 281474976710656 * d
}
