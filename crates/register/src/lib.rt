// The register: 1,024 lines of seat, piece and number, the used ones first and ascending by seat, then piece.
#![tactic(auto)]

ghost use Rattle.std.specs.Prelude.{◌≡◌, Bool, List, drop, not, ℕ, ◌+◌, ◌*◌, ◌≤◌, ◌<◌, eqb, length, replicate};
ghost use Rattle.rules.specs.Tests.{◌&◌, only_if};
ghost use Rattle.rules.specs.Limits.{lines, entries};
ghost use Rattle.rules.specs.Lists.{◌!◌};
ghost use Rattle.rules.specs.Below.{every};
ghost use Rattle.rules.specs.Register.{number_at, order, Ordered, is_right, held_by, held_in, has_line, is_full, inserted, removed, one_more_by, one_less_by};
ghost use Rattle.tallies.specs.Adding.{LaterSame};
ghost use Rattle.register.specs.Found.{Found, Used};
ghost use Rattle.register.specs.Lines.{IsLines, before, up_to};
ghost use Rattle.register.specs.Points.{Fronts, PointSaid};
ghost use Rattle.std.specs.Fn.{ComputesKey};
ghost use Rattle.register.specs.Moved.{Movable, Lifted, Sunk};
ghost use Rattle.register.specs.Opened.{Opened};
ghost use Rattle.register.specs.Room.{Room};
ghost use Rattle.register.specs.Folds.{all_zeros, all_same};
ghost use Rattle.register.specs.Judged.{RightSaid};

use rules::Store;

pub const LINES: usize = Store::LINES;

pub const ENTRIES: usize = Store::ENTRIES;

// The register as its lines, of each its seat, piece and number.
#[tactic(auto, using(crate::specs::Lines::chunks_lines))]
fn lines(register: &[u16]) -> &[[u16; 3]]
    requires { length register.now ≡ entries }
    ensures { IsLines register.now result.now }
{
    register.as_chunks::<3>().0
}

// Seat and piece as one number, by which the lines ascend.
fn order_of(seat: u16, piece: u16) -> u32
    ensures { result ≡ order seat piece }
{
    65536 * u32::from(seat) + u32::from(piece)
}

// Whether a line is used and stands before the pair.
fn is_before(line: &[u16; 3], pair: u32) -> bool
    ensures { result ≡ before line.now pair }
{
    let [seat, piece, number] = *line;
    number != 0 && order_of(seat, piece) < pair
}

// Whether a line behind a used one is used and stands at most at the pair: one comparison, as only the first used line may be zeros.
fn is_up_to(line: &[u16; 3], pair: u32) -> bool
    ensures { result ≡ up_to line.now pair }
{
    let [seat, piece, _] = *line;
    order_of(seat, piece).wrapping_sub(1) < pair
}

// How many of the lines behind the first the test holds of. Few lines are halved less often: each number stands as such, so that its halving compiles to steps
// without a loop or a branch.
fn point<F: FnMut(&[u16; 3]) -> bool>(register: &[u16], test: F) -> usize
    requires { Ordered register.now × F.IsAlwaysCallable test }
    ensures most { result ≤ 1023 }
    ensures said { (p : List ℕ → Bool) → ComputesKey F.FnMut p test → Fronts register.now p → PointSaid register.now p result }
{
    let lines = lines(register);
    if lines[2][2] == 0 {
        return lines[1..2].partition_point(test);
    }
    if lines[8][2] == 0 {
        return lines[1..8].partition_point(test);
    }
    if lines[32][2] == 0 {
        return lines[1..32].partition_point(test);
    }
    if lines[128][2] == 0 {
        return lines[1..128].partition_point(test);
    }
    lines[1..Store::LINES].partition_point(test)
}

// The line where the pair stands or would stand: the first that is unused or not before it.
pub fn find(register: &[u16], seat: u16, piece: u16) -> usize
    requires { Ordered register.now }
    ensures { Found register.now seat piece result }
{
    let pair = order_of(seat, piece);
    if !is_before(&lines(register)[0], pair) {
        return 0;
    }
    let last = pair - 1;
    1 + point(register, |line| is_up_to(line, last))
}

// The number of used lines.
fn used(register: &[u16]) -> usize
    requires { Ordered register.now }
    ensures { Used register.now result }
{
    if register[2] == 0 {
        return 0;
    }
    1 + point(register, |line| line[2] != 0)
}

// The number of line i, 0 where it is not that of this seat and piece.
#[tactic(auto, using(crate::specs::Halves::number_laws))]
fn number_by(register: &[u16], i: usize, seat: u16, piece: u16) -> u16
    requires { length register.now ≡ entries }
    ensures { result ≡ only_if (has_line register.now i seat piece) (number_at register.now i) }
{
    if Store::LINES <= i {
        return 0;
    }
    let [s, p, number] = lines(register)[i];
    if s == seat && p == piece { number } else { 0 }
}

// Whether line i is used, by this seat and piece.
#[tactic(auto, using(crate::specs::Has::number_has))]
pub fn has(register: &[u16], i: usize, seat: u16, piece: u16) -> bool
    requires { (length register.now ≡ entries) × (i ≤ lines) }
    ensures { result ≡ has_line register.now i seat piece }
{
    number_by(register, i, seat, piece) != 0
}

// The holds of the seat on the piece, where line i is found for them: its number, 0 if it is another's or unused.
#[tactic(auto, using(crate::specs::Has::number_held))]
pub fn number_at(register: &[u16], i: usize, seat: u16, piece: u16) -> u16
    requires { Ordered register.now × Found register.now seat piece i }
    ensures { result ≡ held_by register.now seat piece }
{
    number_by(register, i, seat, piece)
}

// Empties the register.
pub fn clear(register: &mut [u16])
    requires { length register.old ≡ entries }
    ensures { register.new ≡ replicate entries 0 }
{
    register.fill(0);
}

// Whether one hold more can be noted, where line i is found for the pair: the last line is free, or the pair has one.
#[tactic(auto, using(crate::specs::Done::room_laws))]
pub fn has_room(register: &[u16], i: usize, seat: u16, piece: u16) -> bool
    requires { Ordered register.now × Found register.now seat piece i }
    ensures { result ≡ not (eqb (held_by register.now seat piece) 0 & is_full register.now) }
{
    register[Store::ENTRIES - 1] == 0 || number_at(register, i, seat, piece) != 0
}

// So many entries from `from` on stand three further, the last one first.
fn lift(register: &mut [u16], from: usize, many: usize)
    requires { Movable register.old from many }
    ensures { Lifted register.old from (from + many) register.new }
{
    let mut k = many;
    while 0 < k {
        k -= 1;
        register[from + k + 3] = register[from + k];
    }
}

// So many entries from `from` on become those three further on.
fn sink(register: &mut [u16], from: usize, many: usize)
    requires { Movable register.old from many }
    ensures { Sunk register.old from (from + many) register.new }
{
    let mut k: usize = 0;
    while k < many {
        register[from + k] = register[from + k + 3];
        k += 1;
    }
}

// How many blocks of 32 lines from line i on are still to move one further: the last of them may have unused lines, unless it would pass the end.
fn open_last(register: &mut [u16], i: usize, lines: usize) -> usize
    requires { Ordered register.old × Used register.old lines × (i ≤ lines) × (lines ≤ 1023) }
    ensures { Opened register.old i (3 * i + 96 * result) register.new }
{
    let blocks = (lines - i + 31) / 32;
    if i + 32 * blocks < Store::LINES {
        return blocks;
    }
    let from = 3 * i + 96 * (blocks - 1);
    lift(register, from, 3 * lines - from);
    blocks - 1
}

// A line with number 1 comes in at line i, where the pair belongs: the lines from there on move one further, in blocks, which compile to vector instructions.
fn insert(register: &mut [u16], i: usize, seat: u16, piece: u16)
    requires { Ordered register.old × Found register.old seat piece i × (number_at register.old 1023 ≡ 0) }
    ensures { register.new ≡ inserted register.old i seat piece }
{
    let from = 3 * i;
    let lines = used(register);
    let mut blocks = open_last(register, i, lines);
    while 0 < blocks {
        blocks -= 1;
        lift(register, from + 96 * blocks, 96);
    }
    register[from] = seat;
    register[from + 1] = piece;
    register[from + 2] = 1;
}

// Line i goes: the lines behind it move up, in blocks of 32, until one is unused.
fn remove(register: &mut [u16], i: usize)
    requires { Ordered register.old × (0 < number_at register.old i) }
    ensures { register.new ≡ removed register.old i }
{
    let mut m = i;
    while m + 32 < Store::LINES {
        sink(register, 3 * m, 96);
        m += 32;
        if register[3 * m + 2] == 0 {
            return;
        }
    }
    sink(register, 3 * m, 3069 - 3 * m);
    register[3069] = 0;
    register[3070] = 0;
    register[3071] = 0;
}

// A first hold of the seat on the piece, where line i is found for them: a new line comes in its place.
pub fn first(register: &mut [u16], i: usize, seat: u16, piece: u16)
    requires { Ordered register.old × Found register.old seat piece i × Room register.old seat piece × (held_by register.old seat piece ≡ 0) }
    ensures { register.new ≡ one_more_by register.old seat piece }
{
    insert(register, i, seat, piece);
}

// One hold more of the seat on the piece, where line i is found for them: it counts one more, or a new line comes in its place.
pub fn more(register: &mut [u16], i: usize, seat: u16, piece: u16)
    requires { Ordered register.old × Found register.old seat piece i × Room register.old seat piece × (held_by register.old seat piece < 65535) }
    ensures { register.new ≡ one_more_by register.old seat piece }
{
    if has(register, i, seat, piece) {
        register[3 * i + 2] += 1;
        return;
    }
    insert(register, i, seat, piece);
}

// One hold less of the seat on the piece, where line i is found for them: a line that falls to 0 is removed.
pub fn less(register: &mut [u16], i: usize, seat: u16, piece: u16)
    requires { Ordered register.old × Found register.old seat piece i × (0 < held_by register.old seat piece) }
    ensures { register.new ≡ one_less_by register.old seat piece }
{
    let held = register[3 * i + 2];
    if held == 1 {
        remove(register, i);
        return;
    }
    register[3 * i + 2] = held - 1;
}

// Whether all entries from this one on are 0. The pass is not left early.
fn all_zero(register: &[u16], from: usize) -> bool
    requires { from ≤ length register.now }
    ensures { result ≡ all_zeros (drop from register.now) }
{
    register[from..]
        .iter()
        .fold(true, |all, entry| all & (*entry == 0))
}

// Whether the register is right for capacity n. If it is, the holds of each piece are added up, into entries that are 0.
pub fn is_right(n: usize, register: &[u16], sums: &mut [u32]) -> bool
    requires { (n ≤ 1024) × (length register.now ≡ entries) × (n ≤ length sums.old) × ((p : ℕ) → p < n → sums.old ! p ≡ 0) }
    ensures { RightSaid n register.now sums.old sums.new result }
{
    let mut low: u32 = 0;
    for (i, [seat, piece, number]) in lines(register).iter().enumerate() {
        if *number == 0 {
            return all_zero(register, 3 * i);
        }
        let p = *piece as usize;
        if Store::SEATS <= *seat || n <= p || Store::HOLDS < *number {
            return false;
        }
        let next = order_of(*seat, *piece);
        if next < low {
            return false;
        }
        sums[p] += u32::from(*number);
        low = next + 1;
    }
    true
}

// Whether the holds are those added up, piece by piece. The pass is not left early: it compiles to vector instructions.
fn compare(holds: &[u16], sums: &[u32]) -> bool
    ensures { result ≡ all_same holds.now sums.now }
{
    holds.iter().zip(sums).fold(
        true,
        |all, (held, added)| all & (u32::from(*held) == *added),
    )
}

// Whether the register is right and every piece's holds are the sum over the lines that name it. They are added up into the first n entries of work, which are 0.
pub fn agrees(n: usize, register: &[u16], holds: &[u16], work: &mut [u32]) -> bool
    requires { (n ≤ 1024) × (length register.now ≡ entries) × (length holds.now ≡ n) × (n ≤ length work.old) × ((p : ℕ) → p < n → work.old ! p ≡ 0) }
    ensures { (result ≡ (is_right n register.now & every (λ p. eqb (holds.now ! p) (held_in register.now p)) n))
        × LaterSame n work.old work.new }
{
    is_right(n, register, work) && compare(holds, work)
}
