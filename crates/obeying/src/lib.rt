// The areas of a standing store, any command's work on it, and the number below which nothing is free after it.
#![tactic(auto)]

ghost use Rattle.std.specs.Prelude.{◌≡◌, ◌≤◌, length};
ghost use Rattle.rules.specs.Tables.{store_of};
ghost use Rattle.rules.specs.Calls.{answered};
ghost use Rattle.rules.specs.History.{freed_in};
ghost use Rattle.areas.specs.Read.{told};
ghost use Rattle.obeying.specs.Obeyed.{reply_of, Stands, Obeys, above_of, Lower, LowerBin};
ghost use Rattle.obeying.specs.Tested.{Tested};

use areas::Tables;
use rules::{Answer, Command, Seen};

// What a command answers.
#[derive(Clone, Copy)]
pub enum Reply {
    Answered(Answer),
    Saw(Seen),
}

// What a command answers, and a number below which nothing is free after it.
#[derive(Clone, Copy)]
pub struct Obeyed {
    pub reply: Reply,
    pub from: usize,
}

// After new: above the number that was given out.
fn above(answer: Answer, from: usize) -> usize
    ensures { result ≡ above_of answer from }
{
    if let Ok(done) = answer {
        return usize::from(done.value) + 1;
    }
    from
}

// The lower of from and the first number freed, if any was.
#[tactic(auto, unfolding(rules::specs::History::freed_in))]
fn lower(answer: Answer, list: &[u16], from: usize) -> usize
    requires { freed_in (answered answer) ≤ length list.now }
    ensures { Lower answer list.now from result }
{
    if let Ok(done) = answer {
        if 0 < done.freed {
            return from.min(usize::from(list[0]));
        }
    }
    from
}

// After bin: the lowest of from, the first number freed and the number that was binned.
#[tactic(auto, unfolding(rules::specs::History::is_accepted, rules::specs::History::freed_in))]
fn lower_bin(answer: Answer, list: &[u16], from: usize, p: u16) -> usize
    requires { freed_in (answered answer) ≤ length list.now }
    ensures { LowerBin p answer list.now from result }
{
    if answer.is_err() {
        return from;
    }
    let binned = usize::from(p);
    lower(answer, list, from.min(binned))
}

// Does the command; no number below from is free.
pub fn obey(
    n: usize,
    states: &mut [u8],
    links: &mut [u16],
    leaders: &mut [u16],
    holds: &mut [u16],
    counts: &mut [u32],
    register: &mut [u16],
    into: &mut [u16],
    list: &mut [u16],
    work: &mut [u32],
    from: usize,
    command: Command,
) -> Obeyed
    requires { Stands n (store_of n states.old links.old leaders.old holds.old counts.old register.old into.old) list.old work.old from }
    ensures { Obeys command
        (store_of n states.old links.old leaders.old holds.old counts.old register.old into.old)
        list.old work.old (reply_of result.reply)
        (store_of n states.new links.new leaders.new holds.new counts.new register.new into.new)
        list.new work.new result.from }
{
    match command {
        Command::New => {
            let answer = giving::new(n, states, from);
            Obeyed {
                reply: Reply::Answered(answer),
                from: above(answer, from),
            }
        }
        Command::Set { p, k, t } => {
            let answer = setting::set_link(
                n, states, links, leaders, holds, counts, into, list, p, k, t,
            );
            Obeyed {
                reply: Reply::Answered(answer),
                from: lower(answer, list, from),
            }
        }
        Command::Freeze { p, seat } => {
            let answer = freezing::freeze(
                n, states, links, leaders, holds, counts, register, into, work, p, seat,
            );
            Obeyed {
                reply: Reply::Answered(answer),
                from,
            }
        }
        Command::Acquire { p, seat } => {
            let answer = holding::acquire(n, states, leaders, holds, counts, register, p, seat);
            Obeyed {
                reply: Reply::Answered(answer),
                from,
            }
        }
        Command::Release { p, seat } => {
            let answer = holding::release(
                n, states, links, leaders, holds, counts, register, list, p, seat,
            );
            Obeyed {
                reply: Reply::Answered(answer),
                from: lower(answer, list, from),
            }
        }
        Command::Bin(p) => {
            let answer = binning::bin(n, states, links, leaders, holds, counts, into, list, p);
            Obeyed {
                reply: Reply::Answered(answer),
                from: lower_bin(answer, list, from, p),
            }
        }
        Command::Look(p) => {
            let tables = Tables {
                n,
                states,
                links,
                leaders,
                holds,
                counts,
            };
            Obeyed {
                reply: Reply::Saw(looking::look(tables, p)),
                from,
            }
        }
    }
}

// The areas of a sound store, room for the list and for the work, and a number below which nothing is free.
// Each has a lifetime of its own: by it the check tells whose lender an area's contents go back to.
#[derive(Drop)]
pub struct Areas<'states, 'links, 'leaders, 'holds, 'counts, 'register, 'into, 'list, 'work> {
    n: usize,
    states: &'states mut [u8],
    links: &'links mut [u16],
    leaders: &'leaders mut [u16],
    holds: &'holds mut [u16],
    counts: &'counts mut [u32],
    register: &'register mut [u16],
    into: &'into mut [u16],
    list: &'list mut [u16],
    work: &'work mut [u32],
    pub from: usize,
    ghost tested: { Tested n (store_of n states.now links.now leaders.now holds.now counts.now register.now into.now) list.now work.now from },
}

impl<'states, 'links, 'leaders, 'holds, 'counts, 'register, 'into, 'list, 'work> Areas<
    'states,
    'links,
    'leaders,
    'holds,
    'counts,
    'register,
    'into,
    'list,
    'work,
> {
    ghost use Rattle.obeying.specs.Held.{held, Same};

    // The areas of a store that stands, where no number below from is free.
    pub fn new(
        n: usize,
        states: &'states mut [u8],
        links: &'links mut [u16],
        leaders: &'leaders mut [u16],
        holds: &'holds mut [u16],
        counts: &'counts mut [u32],
        register: &'register mut [u16],
        into: &'into mut [u16],
        list: &'list mut [u16],
        work: &'work mut [u32],
        from: usize,
    ) -> Areas<'states, 'links, 'leaders, 'holds, 'counts, 'register, 'into, 'list, 'work>
        requires { Stands n (store_of n states.old links.old leaders.old holds.old counts.old register.old into.old) list.old work.old from }
        ensures held { held result ≡ record {
          store = store_of n states.old links.old leaders.old holds.old counts.old register.old into.old;
          list = list.old;
          work = work.old;
          from = from;
        } }
        ensures same { (result.states.ghost_name ≡ states.entry.ghost_name) × (result.links.ghost_name ≡ links.entry.ghost_name)
            × (result.leaders.ghost_name ≡ leaders.entry.ghost_name) × (result.holds.ghost_name ≡ holds.entry.ghost_name)
            × (result.counts.ghost_name ≡ counts.entry.ghost_name) × (result.register.ghost_name ≡ register.entry.ghost_name)
            × (result.into.ghost_name ≡ into.entry.ghost_name) × (result.list.ghost_name ≡ list.entry.ghost_name)
            × (result.work.ghost_name ≡ work.entry.ghost_name) }
    {
        Areas {
            n,
            states,
            links,
            leaders,
            holds,
            counts,
            register,
            into,
            list,
            work,
            from,
        }
    }

    // The store's tables, to read.
    pub fn tables(&self) -> Tables<'_>
        ensures told { told result ≡ (held self.now).store.tables }
        ensures stands { let a = held self.now in Stands result.n a.store a.list a.work a.from }
    {
        Tables {
            n: self.n,
            states: self.states,
            links: self.links,
            leaders: self.leaders,
            holds: self.holds,
            counts: self.counts,
        }
    }

    // The list, to read: its first numbers are those that the last command freed.
    pub fn list(&self) -> &[u16]
        ensures { result.now ≡ (held self.now).list }
    {
        &*self.list
    }

    // The store stands.
    pub fn stands(&self)
        ensures { let a = held self.now in Stands a.store.tables.base.n a.store a.list a.work a.from }
    {
        let _ = &self.n;
    }

    // Does the command.
    pub fn obey(&mut self, command: Command) -> Reply
        ensures same { Same self.old self.new }
        ensures capacity { (held self.new).store.tables.base.n ≡ (held self.old).store.tables.base.n }
        ensures stood { let a = held self.old in Stands a.store.tables.base.n a.store a.list a.work a.from }
        ensures obeys { let a = held self.old in let b = held self.new in
            Obeys command a.store a.list a.work (reply_of result) b.store b.list b.work b.from }
    {
        let done = obey(
            self.n,
            self.states,
            self.links,
            self.leaders,
            self.holds,
            self.counts,
            self.register,
            self.into,
            self.list,
            self.work,
            self.from,
            command,
        );
        self.from = done.from;
        done.reply
    }
}
