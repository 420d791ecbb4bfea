// The search for groups over lent tables, in one work slice of six regions of n entries.
// By piece: marks (0 unseen, q + 1 on the stack at position q, and the mark of a finished piece), next places, leaders.
// By position: the stack, the starts of its blocks, the parent's position.
// A region is read and written by its offset: as a struct of six slices the work would need, in each contract, what each of six references keeps.
// The search is called with the tables that it reads one by one, as a freeze has them: some of the others are written meanwhile.
#![tactic(auto)]

ghost use Rattle.std.specs.Prelude.{◌≡◌, ◌+◌, ◌*◌, ◌≤◌, ◌<◌, length, set};
ghost use Rattle.rules.specs.Lists.{◌!◌};
ghost use Rattle.paths.specs.Ground.{OneWay, ground};
ghost use Rattle.paths.specs.Moves.Pop.{LowestOnStack};
ghost use Rattle.groups.specs.Layout.{part};
ghost use Rattle.groups.specs.Steps.{UnderWay, Exhausted, Progressed, Followed, Advanced, Stackable, stacked, Blocks, Cut, Ending, closed_one};
ghost use Rattle.groups.specs.Steps.{Pieces, ClosedOff, Standing, Closed, Resumable, Resumed, Started, Searched};
ghost use Rattle.groups.specs.Explore.{entered};
ghost use Rattle.groups.specs.Class.{in_class};
ghost use Rattle.groups.specs.Grouped.{Searchable, Visitable, Grouped, Led, ReachedFrom, Of};

use rules::Store;

// Where the search stands.
#[derive(Clone, Copy)]
pub struct At {
    // The pieces on the stack, and their blocks.
    pub size: usize,
    pub blocks: usize,
    // The position on the stack, the piece there, and its next place.
    pub stand: usize,
    pub piece: usize,
    pub place: usize,
}

// The pieces of one state, which the search looks at, in the tables that it reads.
// It is made where a search begins: the rooms above lend states and links beside areas that they change.
#[derive(Clone, Copy)]
struct Class<'a> {
    n: usize,
    states: &'a [u8],
    links: &'a [u16],
    state: u8,
}

fn get(work: &[u32], i: usize) -> usize
    requires { i < length work.now }
    ensures { result ≡ work.now ! i }
{
    work[i] as usize
}

fn put(work: &mut [u32], i: usize, x: usize)
    requires { (i < length work.old) × (x ≤ 65535) }
    ensures { work.new ≡ set work.old i x }
{
    work[i] = x as u32;
}

// Puts a piece on the stack, as a block of its own, with its parent where the search stands, and goes on there.
fn push(n: usize, work: &mut [u32], at: At, piece: usize) -> At
    requires { Stackable n work.old at.size at.blocks at.stand piece }
    ensures stored { work.new ≡ stacked n work.old at.size at.blocks at.stand piece }
    ensures stands { result ≡ entered at piece }
{
    put(work, piece, at.size + 1);
    put(work, 3 * n + at.size, piece);
    put(work, 4 * n + at.blocks, at.size);
    put(work, 5 * n + at.size, at.stand);
    At {
        size: at.size + 1,
        blocks: at.blocks + 1,
        stand: at.size,
        piece,
        place: 0,
    }
}

// How many blocks are left when those that start above a position are merged into the one below.
// The first does not start above it: so the loop asks for no end, as a `for` would at each block.
fn merge(starts: &[u32], position: usize) -> usize
    requires { Blocks starts.now position }
    ensures { Cut starts.now position result }
{
    let mut left = starts.len();
    while position < starts[left - 1] as usize {
        left -= 1;
    }
    left
}

// The place from which on a piece names nothing, where its four links at once show it after one place or two; else 4.
fn until(links: &[u16], piece: usize, place: usize) -> usize
    requires { 4 * piece + 3 < length links.now }
    ensures { Ending links.now piece result }
{
    if place == 1 {
        let word = areas::four(links, piece);
        if areas::ONE_AT_MOST <= word {
            return 1;
        }
        if areas::TWO_AT_MOST <= word {
            return 2;
        }
    }
    if place == 2 {
        if areas::TWO_AT_MOST <= areas::four(links, piece) {
            return 2;
        }
    }
    4
}

// Finishes a piece as a group of its own.
fn close_one(n: usize, work: &mut [u32], piece: usize)
    requires { (n ≤ 1024) × (6 * n ≤ length work.old) × (piece < n) }
    ensures { work.new ≡ closed_one n work.old piece }
{
    put(work, piece, paths::FINISHED_MARK as usize);
    put(work, 2 * n + piece, piece);
}

// Explores the next place of the piece at which the search stands: its target is passed, finished or pushed, or blocks are merged.
fn follow(class: Class, work: &mut [u32], from: At) -> At
    requires { in_class class UnderWay work.old from × (from.place < 4) }
    ensures { in_class class.entry Followed work.old from work.new result }
{
    let n = class.n;
    let target = class.links[Store::LINKS * from.piece + from.place] as usize;
    let at = At {
        place: from.place + 1,
        ..from
    };
    if target >= n {
        return at;
    }
    if class.states[target] != class.state {
        return at;
    }
    let mark = get(work, target);
    if mark == paths::FINISHED_MARK as usize {
        return at;
    }
    if mark != 0 {
        let starts = &work[4 * n..4 * n + at.blocks];
        let blocks = merge(starts, mark - 1);
        return At { blocks, ..at };
    }
    if areas::four(class.links, target) == areas::FOUR_NONE {
        close_one(n, work, target);
        return at;
    }
    put(work, n + at.piece, at.place);
    push(n, work, at, target)
}

// Explores places, from where the search stands and of each piece that it pushes, until a piece has none left.
// Each piece that is pushed begins at its own first place, so no `for` goes over the places.
fn explore(class: Class, work: &mut [u32], from: At) -> At
    requires { in_class class UnderWay work.old from }
    ensures { in_class class.entry Advanced work.old from work.new result }
{
    let mut at = from;
    let mut end = until(class.links, at.piece, at.place);
    while at.place < end {
        at = follow(class, work, at);
        if at.place == 0 {
            end = 4;
        }
    }
    At { place: 4, ..at }
}

// The lowest of some pieces.
fn lowest(pieces: &[u32]) -> usize
    requires { 0 < length pieces.now }
    ensures { LowestOnStack pieces.now 0 (length pieces.now) result }
{
    let mut low = pieces[0];
    for piece in &pieces[1..] {
        low = low.min(*piece);
    }
    low as usize
}

// Finishes the pieces on the stack from position `stand` up, with leader `low`.
fn close(n: usize, work: &mut [u32], stand: usize, size: usize, low: usize)
    requires { Pieces n work.old stand size × (low < n) }
    ensures { ClosedOff n work.old stand size low work.new }
{
    for q in stand..size {
        let piece = get(work, 3 * n + q);
        put(work, piece, paths::FINISHED_MARK as usize);
        put(work, 2 * n + piece, low);
    }
}

// Finishes the block that starts where the search stands, with its lowest piece as leader.
fn close_block(n: usize, work: &mut [u32], at: At)
    requires { Standing n work.old at }
    ensures { Closed n work.old at.stand at.size work.new }
{
    if at.stand + 1 == at.size {
        close_one(n, work, at.piece);
        return;
    }
    let low = lowest(&work[3 * n + at.stand..3 * n + at.size]);
    close(n, work, at.stand, at.size, low);
}

// Goes on where the search is said to stand, with the piece there and its next place.
fn resume(n: usize, work: &[u32], at: At) -> At
    requires { Resumable n work.now at.stand }
    ensures { Resumed n work.now at.size at.blocks at.stand result }
{
    let piece = get(work, 3 * n + at.stand);
    let place = get(work, n + piece);
    At { piece, place, ..at }
}

// The piece at which the search stands is explored: its block is finished if it starts there, and the search goes back to its parent.
fn finish(class: Class, work: &mut [u32], at: At) -> At
    requires { in_class class Exhausted work.old at }
    ensures { in_class class.entry Progressed work.old at work.new result }
{
    let n = class.n;
    put(work, n + at.piece, 4);
    let start = get(work, 4 * n + (at.blocks - 1));
    let parent = get(work, 5 * n + at.stand);
    let back = At {
        stand: parent,
        ..at
    };
    if start != at.stand {
        return resume(n, work, back);
    }
    close_block(n, work, at);
    let left = At {
        size: at.stand,
        blocks: at.blocks - 1,
        ..back
    };
    resume(n, work, left)
}

// Explores places until a piece has none left, and goes back from it.
fn step(class: Class, work: &mut [u32], at: At) -> At
    requires { in_class class UnderWay work.old at × OneWay (in_class class ground) }
    ensures { in_class class.entry Progressed work.old at work.new result }
{
    let explored = explore(class, work, at);
    finish(class, work, explored)
}

// Searches from a root that is not seen yet: every piece of the class that it reaches is then finished, with its leader.
fn search(n: usize, states: &[u8], links: &[u16], class: u8, work: &mut [u32], root: usize)
    requires started { Started n states.now links.now class work.old root }
    requires unseen { work.old ! root ≡ 0 }
    ensures { Searched n states.now links.now class work.old root work.new }
{
    let state = class;
    let class = Class {
        n,
        states,
        links,
        state,
    };
    let nowhere = At {
        size: 0,
        blocks: 0,
        stand: 0,
        piece: root,
        place: 0,
    };
    let mut at = push(n, work, nowhere, root);
    while 0 < at.size {
        at = step(class, work, at);
    }
}

// Finds the leader of every piece of the class that root reaches. The marks and the next places of the others may hold anything.
pub fn visit(n: usize, states: &[u8], links: &[u16], class: u8, work: &mut [u32], root: usize)
    requires { Visitable n states.now links.now class work.old root }
    ensures { Led n links.now (ReachedFrom n states.now links.now class root) work.old work.new }
{
    search(n, states, links, class, work, root);
}

// Finishes every piece of the class, and no other, each with its leader, where the marks and the next places are 0.
pub fn visit_all(n: usize, states: &[u8], links: &[u16], class: u8, work: &mut [u32])
    requires { Searchable n states.now links.now class work.old }
    ensures { Grouped n links.now (Of states.now class) work.old work.new }
{
    for root in 0..n {
        if states[root] == class {
            if get(work, root) == 0 {
                search(n, states, links, class, work, root);
            }
        }
    }
}
