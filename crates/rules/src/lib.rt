// The store's limits, its refusals, commands and answers, as the rulebook names them. What they mean stands in specs/.
#![tactic(auto)]

ghost use Rattle.std.specs.Prelude.{◌≡◌};
ghost use Rattle.rules.specs.Calls.{number_of, fresh};

// The store of pattern pieces.
#[derive(Drop)]
pub struct Store {}

impl Store {
    // The largest capacity.
    pub const MOST: usize = 1024;

    // The links of a piece.
    pub const LINKS: usize = 4;

    // The most holds of a piece.
    pub const HOLDS: u16 = 1000;

    // The seats: 0 to 31.
    pub const SEATS: u16 = 32;

    // The lines of the register, and their entries.
    pub const LINES: usize = 1024;

    pub const ENTRIES: usize = 3072;

    // The most bytes of a trace lent in memory.
    pub const TRACE: usize = 65536;

    // The mark for none: a number, as C lends leaders, links and lists.
    pub const NONE: u16 = 65535;

    // The states of a piece: free, draft, frozen. Bytes, as C lends them, which may be any.
    pub const FREE: u8 = 0;

    pub const DRAFT: u8 = 1;

    pub const FROZEN: u8 = 2;

    // The answer of an accepted call that gives no value and frees nothing.
    pub fn fresh() -> Answer
        ensures { result ≡ fresh }
    {
        Ok(Done {
            value: Store::NONE,
            freed: 0,
        })
    }
}

// The refusals, in the order in which they are checked.
#[derive(Clone, Copy)]
pub enum Refusal {
    // N outside 1 to 1,024, an area of the store not exactly its length, list or work too short.
    Size,
    // Tables or register not sound.
    Unsound,
    // The seat is above 31.
    Seat,
    // P is N or more.
    Number,
    // K is above 3.
    Place,
    // T is neither none nor below N.
    Target,
    // P is a free number.
    Free,
    // T is a free number.
    FreeTarget,
    // Set or bin of a frozen piece; acquire or release of a draft.
    State,
    // Acquire or freeze of a frozen piece with 1,000 holds.
    Limit,
    // A hold would need a line of the register, and none is free.
    Register,
    // Release of a piece with 0 holds.
    NotHeld,
    // Release of a piece that has holds, but none of this seat's.
    NotYours,
    // Bin of a draft that another piece links to.
    Linked,
    // New with no free number.
    Full,
    // Lent trace over 65,536 bytes.
    Long,
    // Output of a lent trace longer than the room lent.
    Room,
}

// The number of a refusal.
impl From<Refusal> for u32 {
    ghost from_gives = { λ refusal number. number ≡ number_of refusal };

    fn from(refusal: Refusal) -> u32 {
        match refusal {
            Refusal::Size => 1,
            Refusal::Unsound => 2,
            Refusal::Seat => 12,
            Refusal::Number => 3,
            Refusal::Place => 15,
            Refusal::Target => 16,
            Refusal::Free => 4,
            Refusal::FreeTarget => 17,
            Refusal::State => 5,
            Refusal::Limit => 6,
            Refusal::Register => 14,
            Refusal::NotHeld => 7,
            Refusal::NotYours => 13,
            Refusal::Linked => 8,
            Refusal::Full => 9,
            Refusal::Long => 10,
            Refusal::Room => 11,
        }
    }
}

// The commands, in the rulebook's order: the calls that a line of a trace can make.
#[derive(Clone, Copy)]
pub enum Command {
    New,
    Set { p: u16, k: u16, t: u16 },
    Freeze { p: u16, seat: u16 },
    Acquire { p: u16, seat: u16 },
    Release { p: u16, seat: u16 },
    Bin(u16),
    Look(u16),
}

// What an accepted call gives, but for look and check: its value, and the number freed.
#[derive(Clone, Copy)]
pub struct Done {
    pub value: u16,
    pub freed: u16,
}

// What a call answers, but for look and check.
pub type Answer = Result<Done, Refusal>;

// What an accepted look gives: state, leader, count of its group, holds.
#[derive(Clone, Copy)]
pub struct Piece {
    pub state: u8,
    pub leader: u16,
    pub count: u32,
    pub holds: u16,
}

// What look answers.
pub type Seen = Result<Piece, Refusal>;

// What check answers: whether the tables are sound.
pub type Checked = Result<bool, Refusal>;

// What a line of a trace says: a command, or nothing right.
pub type Line = Option<Command>;
