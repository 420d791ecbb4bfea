// The search for groups as moves on an abstract state: all of it stands in specs/, but for the mark that its code writes.
#![tactic(auto)]

// The mark of a finished piece in the work of a search: a number, as C lends work.
pub const FINISHED_MARK: u32 = 65535;
