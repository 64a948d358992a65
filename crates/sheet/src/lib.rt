// The sheet on which a text's program is written while it is read: the table so far, the signals met, whether an exit had no
// trap, and the traps around. Fields are kept whole here, so that an exit's level may be above 255; such a program is refused by
// check 1, 8 or 9.
//
// No function asks that the places on a sheet lie in the text: it tests them, which spares every reader above a promise about
// the sheet. What it does is promised for sheets that hold what they should (`Filled`).
#![tactic(auto)]

ghost use Rattle.std.specs.Prelude.{◌≡◌, List, ◌∷◌, ℕ, ◌+◌, ◌%◌, ◌<◌, ◌≤◌, ◌-◌, length, drop};
ghost use Rattle.esterel.specs.Limits.{signals as max_signals};
ghost use Rattle.grammar.specs.Limits.{max_levels};
ghost use Rattle.grammar.specs.Tokens as G;
ghost use Rattle.grammar.specs.Tree.{Name};
ghost use Rattle.grammar.specs.Names.{place, see};
ghost use Rattle.grammar.specs.Progress as P;
ghost use Rattle.sheet.specs.Sheet.{max_counted, number_of, name_at, InText, Adds, Filled, FoundAs, Notes, Fresh, level_in};

use scan::Part;

// The kinds of nodes by their numbers in document 01. One enum with `table::Kind` would be no plainer: that one has `Unknown`, for
// bytes that are no kind, which no reader writes and which each match here would have to answer.
#[derive(Clone, Copy)]
pub enum Kind {
    Nothing = 1,
    Pause,
    Emit,
    Exit,
    Signal,
    Present,
    Suspend,
    Loop,
    Sequence,
    Parallel,
    Trap,
}

// A node as document 01 has it in two bytes. Its field is kept whole.
#[derive(Clone, Copy)]
pub struct Node {
    pub kind: Kind,
    pub field: u16,
}

// A name, by the places of the text where it begins and ends, in four bytes: a text within the length has no place above 16,384.
#[derive(Clone, Copy)]
pub struct Kept {
    start: u16,
    stop: u16,
}

// Fixed memory (no heap), and the readers that recurse lend one value to each other: so it is arrays, and a count beside each, that
// of nodes and that of signals also of what the array has no room for.
#[derive(Drop)]
pub struct Sheet {
    // Nodes that the table has no room for are counted alone: a table that is too long is refused once all of the text is read.
    pub table: [Node; esterel::MAX_NODES],
    pub nodes: usize,

    // In order of first appearance. A 257th name is counted and not kept, and none after it is counted.
    signals: [Kept; esterel::SIGNALS],
    pub signal_count: usize,

    // Whether an exit had no trap.
    pub is_untrapped: bool,

    // At the end of the array, the nearest trap first.
    traps: [Kept; grammar::MAX_LEVELS],
    trap_count: usize,
}

impl Kept {
    // What is kept of a place above 65,535 does not matter: it is none of a text within the length.
    fn of(name: Part) -> Kept
        ensures start { result.start ≡ name.start % 65536 }
        ensures stop { result.stop ≡ name.stop % 65536 }
    {
        Kept {
            start: (name.start % 65536) as u16,
            stop: (name.stop % 65536) as u16,
        }
    }
}

impl From<Kept> for Part {
    ghost from_gives = { λ kept part. (part.start ≡ kept.start) × (part.stop ≡ kept.stop) };

    fn from(kept: Kept) -> Part {
        Part {
            start: usize::from(kept.start),
            stop: usize::from(kept.stop),
        }
    }
}

// Whether two parts of the text are the same.
fn is_same_part(text: &[u8], a: Part, b: Part) -> bool
    ensures { InText text.now a → InText text.now b → result ≡ G.same_bytes (name_at text.now a) (name_at text.now b) }
{
    let (Some(first), Some(second)) = (text.get(a.start..a.stop), text.get(b.start..b.stop)) else {
        return false;
    };
    first == second
}

// The place of a name among others. `position` was tried, and the proof didn't close: its goal `returns` (`FoundAs`) stayed open.
fn find(text: &[u8], others: &[Kept], name: Part) -> Option<usize>
    ensures { FoundAs text.now others.now name result }
{
    for (i, other) in others.iter().enumerate() {
        if is_same_part(text, Part::from(*other), name) {
            return Some(i);
        }
    }
    None
}

impl Sheet {
    pub fn new() -> Sheet
        ensures { Fresh result }
    {
        let nothing = Node {
            kind: Kind::Nothing,
            field: 0,
        };
        let nowhere = Kept { start: 0, stop: 0 };
        Sheet {
            table: [nothing; esterel::MAX_NODES],
            nodes: 0,
            signals: [nowhere; esterel::SIGNALS],
            signal_count: 0,
            is_untrapped: false,
            traps: [nowhere; grammar::MAX_LEVELS],
            trap_count: 0,
        }
    }

    pub fn put(&mut self, kind: Kind, field: u16)
        requires { self.old.nodes ≤ max_counted }
        ensures nodes { self.new.nodes ≡ self.old.nodes + 1 }
        ensures adds { (x : List ℕ) → Adds x self.old self.new (λ ts g. P.node (number_of kind) field g) }
    {
        if self.nodes < esterel::MAX_NODES {
            self.table[self.nodes] = Node { kind, field };
        }
        self.nodes += 1;
    }

    // A signal's name is met; its number. Where the signals are too many the text is refused for that, so the number 0 is written
    // and nobody asks for it. What may not change keeps it a number and no option: `Adds` speaks of the node that has it in each case.
    pub fn note(&mut self, text: &[u8], name: Part) -> u16
        ensures nodes { self.new.nodes ≡ self.old.nodes }
        ensures notes { Notes text.now name self.old self.new result }
    {
        let count = self.signal_count;
        if esterel::SIGNALS < count {
            return 0;
        }
        if let Some(found) = find(text, &self.signals[..count], name) {
            return found as u16;
        }
        self.signal_count = count + 1;
        if count < esterel::SIGNALS {
            self.signals[count] = Kept::of(name);
        }
        count as u16
    }

    // The number of a signal that was met.
    fn number_of(&self, text: &[u8], name: Part) -> u16
        ensures { (ts : List Name) (g : P.Progress) → InText text.now name → Filled text.now self.now ts g → length g.seen ≤ max_signals → result ≡ place g.seen (name_at text.now name) }
    {
        let count = self.signal_count;
        if esterel::SIGNALS < count {
            return 0;
        }
        find(text, &self.signals[..count], name).unwrap_or(count) as u16
    }

    // That there is room to count a node is no invariant, here and below, since each of these functions adds to the count: the form
    // is no plainer with a type for it.

    // The node of a statement whose signal was met before.
    pub fn put_named(&mut self, text: &[u8], kind: Kind, name: Part)
        requires { self.old.nodes ≤ max_counted }
        ensures nodes { self.new.nodes ≡ self.old.nodes + 1 }
        ensures adds { InText text.now name → Adds text.now self.old self.new (λ ts g. P.named (number_of kind) (name_at text.now name) g) }
    {
        let field = self.number_of(text, name);
        self.put(kind, field);
    }

    // A signal's name is met, and then the node of a statement that has it.
    pub fn put_met(&mut self, text: &[u8], kind: Kind, name: Part)
        requires { self.old.nodes ≤ max_counted }
        ensures nodes { self.new.nodes ≡ self.old.nodes + 1 }
        ensures adds { InText text.now name → Adds text.now self.old self.new (λ ts g. P.named (number_of kind) (name_at text.now name) (P.note (name_at text.now name) g)) }
    {
        let number = self.note(text, name);
        self.put(kind, number);
    }

    // The traps around, the nearest first. No contract but `Filled` bounds how many there are, hence the saturation: a ghost field for
    // the bound would be carried through each step of a sheet and spare two words of code, so it is no plainer.
    fn around(&self) -> &[Kept]
        ensures { result.now ≡ drop (max_levels - self.now.trap_count) self.now.traps }
    {
        &self.traps[grammar::MAX_LEVELS.saturating_sub(self.trap_count)..]
    }

    // The level of an exit, if its trap is around.
    pub fn find_level(&self, text: &[u8], name: Part) -> Option<u16>
        ensures { (ts : List Name) (g : P.Progress) → InText text.now name → Filled text.now self.now ts g → result ≡ level_in ts (name_at text.now name) }
    {
        let level = find(text, self.around(), name)?;
        Some(level as u16)
    }

    // The level of an exit. One without a trap is marked, and its level is the number of the traps around.
    pub fn level_of(&mut self, text: &[u8], name: Part) -> u16
        ensures nodes { self.new.nodes ≡ self.old.nodes }
        ensures level { (ts : List Name) (g : P.Progress) → InText text.now name → Filled text.now self.old ts g → (result ≡ place ts (name_at text.now name)) × Filled text.now self.new ts (P.leave ts (name_at text.now name) g) }
    {
        let level = self.find_level(text, name);
        let field = level.unwrap_or(self.around().len() as u16);
        self.is_untrapped |= level.is_none();
        field
    }

    // The node of an exit.
    pub fn put_exit(&mut self, text: &[u8], name: Part)
        requires { self.old.nodes ≤ max_counted }
        ensures nodes { self.new.nodes ≡ self.old.nodes + 1 }
        ensures adds { InText text.now name → Adds text.now self.old self.new (λ ts g. P.node 4 (place ts (name_at text.now name)) (P.leave ts (name_at text.now name) g)) }
    {
        let level = self.level_of(text, name);
        self.put(Kind::Exit, level);
    }

    // A trap's name comes around what is read next.
    pub fn enter_trap(&mut self, name: Part)
        ensures nodes { self.new.nodes ≡ self.old.nodes }
        ensures around { (x : List ℕ) (ts : List Name) (g : P.Progress) → InText x name → length ts < max_levels → Filled x self.old ts g → Filled x self.new (name_at x name ∷ ts) g }
    {
        if self.trap_count < grammar::MAX_LEVELS {
            self.trap_count += 1;
            self.traps[grammar::MAX_LEVELS - self.trap_count] = Kept::of(name);
        }
    }

    // The nearest trap around ends. Saturating, as in `around`.
    pub fn leave_trap(&mut self)
        ensures nodes { self.new.nodes ≡ self.old.nodes }
        ensures around { (x : List ℕ) (t : Name) (ts : List Name) (g : P.Progress) → Filled x self.old (t ∷ ts) g → Filled x self.new ts g }
    {
        self.trap_count = self.trap_count.saturating_sub(1);
    }
}
