// The readers of a text: statement, sequence and bracket readers that call each other, the text that is left falling. What they
// read they write on a sheet (crates/sheet), node by node. Neither an exit without its trap nor too many signals or nodes stop
// them, since a text outside the grammar is refused first.
//
// A reader answers where it ended, or that no text of the grammar goes on so, unless by more levels than a text within the length
// has.
#![tactic(auto)]

ghost use Rattle.std.specs.Prelude.{◌≡◌, List, ◌∷◌, ℕ, ◌+◌, ◌<◌, ◌≤◌, length};
ghost use Rattle.grammar.specs.Tokens as G;
ghost use Rattle.grammar.specs.Tree.{Name};
ghost use Rattle.grammar.specs.Kernel.{Kernel, added, halt_of, sustain_of, await_loop, await_of, abort_of, expand};
ghost use Rattle.grammar.specs.Machine.{branch, then_branch, suspended, aborted, alone, expect, want_name, want_abort, a_present};
ghost use Rattle.grammar.specs.Progress.{Progress, past, traps_within};
ghost use Rattle.sheet.specs.Sheet.{max_counted, name_at, InText, Filled, Adds};
ghost use Rattle.scan.specs.Scanning.{Lacks};
ghost use Rattle.reader.specs.declared.Opened.TheVariants.{Whole, Inside};
ghost use Rattle.reader.specs.Reading.{leaf_of, LeafIn, strength_of, frame_of, FrameIn, NamedIn, OpenedFrom, guard_done, Room, Ready, Enters, end_of, StatementRead, SequenceRead, RestRead, Plain, PlainEnd};

use scan::{Mark, Opening, Part, Token};
use sheet::{Kind, Sheet};

// A statement without children, with its name.
#[derive(Clone, Copy)]
pub enum Leaf {
    Nothing,
    Pause,
    Emit(Part),
    Exit(Part),
    Halt,
    Sustain(Part),
    Await(Part),
}

// Whether an abort suspends its body.
#[derive(Clone, Copy)]
pub enum Strength {
    Strong,
    Weak,
}

// A statement that is open, by what it goes on with, with its name if that came first: branches of a bracket; the body of a
// signal, a loop or a trap; a then branch, or an else branch alone; a body up to `when`, and that of an abort.
#[derive(Clone, Copy)]
pub enum Frame {
    Bracket,
    Signal(Part),
    Loop,
    Trap(Part),
    Then(Part),
    Else(Part),
    Suspend,
    Abort(Strength),
}

// The beginning of a statement, and where it ends: all of one without children, or one that is open.
#[derive(Clone, Copy)]
pub enum Opened {
    Whole { leaf: Leaf, end: usize },
    Inside { frame: Frame, end: usize },
}

// A beginning of one word or sign, or of a name after it.
fn whole(leaf: Leaf, end: usize) -> Opened
    ensures { result ≡ Whole leaf end }
{
    Opened::Whole { leaf, end }
}

fn inside(frame: Frame, end: usize) -> Opened
    ensures { result ≡ Inside frame end }
{
    Opened::Inside { frame, end }
}

// A name and `in`, and where they end: after `signal` or `trap`.
fn name_in(text: &[u8], at: usize) -> Option<(Part, usize)>
    requires { at ≤ length text.now }
    ensures { NamedIn text.now at result }
{
    let name = scan::next_name(text, at)?;
    let end = scan::past_mark(text, name.stop, Mark::In)?;
    Some((name, end))
}

// After `present`.
fn open_present(text: &[u8], at: usize) -> Option<Opened>
    requires { at ≤ length text.now }
    ensures { OpenedFrom (want_name a_present) text.now at result }
{
    let name = scan::next_name(text, at)?;
    if let Some(end) = scan::past_mark(text, name.stop, Mark::Then) {
        return Some(inside(Frame::Then(name), end));
    }
    let end = scan::past_mark(text, name.stop, Mark::Else)?;
    Some(inside(Frame::Else(name), end))
}

// After `weak`.
fn open_weak(text: &[u8], at: usize) -> Option<Opened>
    requires { at ≤ length text.now }
    ensures { OpenedFrom want_abort text.now at result }
{
    let scanned = scan::next_token(text, at);
    let end = scanned.part.stop;
    match scanned.token {
        Token::Opens(Opening::Abort) => Some(inside(Frame::Abort(Strength::Weak), end)),
        _ => None,
    }
}

// The beginning of a statement.
fn open(text: &[u8], at: usize) -> Option<Opened>
    requires { at ≤ length text.now }
    ensures { OpenedFrom expect text.now at result }
{
    let scanned = scan::next_token(text, at);
    let end = scanned.part.stop;
    let Token::Opens(opening) = scanned.token else {
        return None;
    };
    match opening {
        Opening::Nothing => Some(whole(Leaf::Nothing, end)),
        Opening::Pause => Some(whole(Leaf::Pause, end)),
        Opening::Emit => {
            let name = scan::next_name(text, end)?;
            Some(whole(Leaf::Emit(name), name.stop))
        }
        Opening::Exit => {
            let name = scan::next_name(text, end)?;
            Some(whole(Leaf::Exit(name), name.stop))
        }
        Opening::Signal => {
            let (name, end) = name_in(text, end)?;
            Some(inside(Frame::Signal(name), end))
        }
        Opening::Trap => {
            let (name, end) = name_in(text, end)?;
            Some(inside(Frame::Trap(name), end))
        }
        Opening::Loop => Some(inside(Frame::Loop, end)),
        Opening::Present => open_present(text, end),
        Opening::Suspend => Some(inside(Frame::Suspend, end)),
        Opening::Bracket => Some(inside(Frame::Bracket, end)),
        Opening::Halt => Some(whole(Leaf::Halt, end)),
        Opening::Sustain => {
            let name = scan::next_name(text, end)?;
            Some(whole(Leaf::Sustain(name), name.stop))
        }
        Opening::Await => {
            let name = scan::next_name(text, end)?;
            Some(whole(Leaf::Await(name), name.stop))
        }
        Opening::Abort => Some(inside(Frame::Abort(Strength::Strong), end)),
        Opening::Weak => open_weak(text, end),
    }
}

// The forms of the dialect as nodes, of which the longest, an abort, adds 11. Each of these functions asks that 16 more can be
// counted, and the one that they share, for the await loop, 12: more than they need, and one number for all. A type for it would be
// no plainer, since it is no invariant: each function adds to the count.

// `halt`: a loop of pause.
fn put_halt(sheet: &mut Sheet)
    requires { sheet.old.nodes + 16 ≤ max_counted }
    ensures nodes { sheet.new.nodes ≡ sheet.old.nodes + 2 }
    ensures adds { (x : List ℕ) → Adds x sheet.old sheet.new (λ ts g. past ts halt_of g) }
{
    sheet.put(Kind::Pause, 0);
    sheet.put(Kind::Loop, 0);
}

// `sustain`: a loop of emit and pause.
fn put_sustain(text: &[u8], name: Part, sheet: &mut Sheet)
    requires { sheet.old.nodes + 16 ≤ max_counted }
    ensures nodes { sheet.new.nodes ≡ sheet.old.nodes + 4 }
    ensures adds { InText text.now name → Adds text.now sheet.old sheet.new (λ ts g. past ts (sustain_of (name_at text.now name)) g) }
{
    sheet.put_met(text, Kind::Emit, name);
    sheet.put(Kind::Pause, 0);
    sheet.put(Kind::Sequence, 0);
    sheet.put(Kind::Loop, 0);
}

// The loop of await and abort: pause, and an exit of the added trap if the signal is present.
fn put_await_loop(text: &[u8], name: Part, sheet: &mut Sheet)
    requires { sheet.old.nodes + 12 ≤ max_counted }
    ensures nodes { sheet.new.nodes ≡ sheet.old.nodes + 6 }
    ensures adds { InText text.now name → (ts : List Name) → Adds text.now sheet.old sheet.new (λ us g. past (added ∷ ts) (await_loop (name_at text.now name)) g) }
{
    sheet.put(Kind::Pause, 0);
    sheet.note(text, name);
    sheet.put(Kind::Exit, 0);
    sheet.put(Kind::Nothing, 0); // the branch that is missing
    sheet.put_named(text, Kind::Present, name);
    sheet.put(Kind::Sequence, 0);
    sheet.put(Kind::Loop, 0);
}

// `await`: a trap around that loop.
fn put_await(text: &[u8], name: Part, sheet: &mut Sheet)
    requires { sheet.old.nodes + 16 ≤ max_counted }
    ensures nodes { sheet.new.nodes ≡ sheet.old.nodes + 7 }
    ensures adds { InText text.now name → Adds text.now sheet.old sheet.new (λ ts g. past ts (await_of (name_at text.now name)) g) }
{
    put_await_loop(text, name, sheet);
    sheet.put(Kind::Trap, 0);
}

// The nodes of a statement without children.
fn put_leaf(text: &[u8], leaf: Leaf, sheet: &mut Sheet)
    requires { sheet.old.nodes + 16 ≤ max_counted }
    ensures nodes { sheet.new.nodes ≤ sheet.old.nodes + 7 }
    ensures adds { LeafIn text.now leaf → Adds text.now sheet.old sheet.new (λ ts g. past ts (expand (leaf_of text.now leaf)) g) }
{
    match leaf {
        Leaf::Nothing => sheet.put(Kind::Nothing, 0),
        Leaf::Pause => sheet.put(Kind::Pause, 0),
        Leaf::Emit(name) => sheet.put_met(text, Kind::Emit, name),
        Leaf::Exit(name) => sheet.put_exit(text, name),
        Leaf::Halt => put_halt(sheet),
        Leaf::Sustain(name) => put_sustain(text, name, sheet),
        Leaf::Await(name) => put_await(text, name, sheet),
    }
}

// What is done before the first sequence of an open statement: a signal is noted, a trap comes around it. The then branch of a
// present that has only an else branch is written before it. The trap that an abort adds has no name.
fn enter(text: &[u8], frame: Frame, sheet: &mut Sheet)
    requires { sheet.old.nodes ≤ max_counted }
    ensures nodes { sheet.new.nodes ≤ sheet.old.nodes + 1 }
    ensures enters { FrameIn text.now frame → Enters text.now sheet.old sheet.new (frame_of text.now frame) }
{
    match frame {
        Frame::Signal(name) | Frame::Then(name) => {
            sheet.note(text, name);
        }
        Frame::Else(name) => {
            sheet.note(text, name);
            sheet.put(Kind::Nothing, 0);
        }
        Frame::Trap(name) => sheet.enter_trap(name),
        Frame::Abort(_) => sheet.enter_trap(Part { start: 0, stop: 0 }),
        _ => {}
    }
}

// The node of a body, or of an only else branch, that ended.
fn put_end(text: &[u8], frame: Frame, sheet: &mut Sheet)
    requires nodes { sheet.old.nodes ≤ max_counted }
    requires plain { PlainEnd frame }
    ensures nodes { sheet.new.nodes ≡ sheet.old.nodes + 1 }
    ensures ends { FrameIn text.now frame → (ts : List Name) (g : Progress) → Filled text.now sheet.old (traps_within (frame_of text.now frame) ts) g → Filled text.now sheet.new ts (end_of (frame_of text.now frame) g) }
{
    match frame {
        Frame::Signal(name) => sheet.put_named(text, Kind::Signal, name),
        Frame::Else(name) => sheet.put_named(text, Kind::Present, name),
        Frame::Trap(_) => {
            sheet.leave_trap();
            sheet.put(Kind::Trap, 0);
        }
        _ => sheet.put(Kind::Loop, 0),
    }
}

// The end of a body, or of an only else branch.
fn close_end(text: &[u8], frame: Frame, at: usize, sheet: &mut Sheet) -> Option<usize>
    requires ready { Ready text.now at sheet.old.nodes }
    requires plain { PlainEnd frame }
    ensures { (depth : ℕ) → FrameIn text.now frame → RestRead (frame_of text.now frame) text.now at depth sheet.old sheet.new result }
{
    let end = scan::past_mark(text, at, Mark::End)?;
    put_end(text, frame, sheet);
    Some(end)
}

// The end of a suspend, whose name comes last.
fn close_when(text: &[u8], at: usize, sheet: &mut Sheet) -> Option<usize>
    requires { Ready text.now at sheet.old.nodes }
    ensures { (depth : ℕ) → RestRead suspended text.now at depth sheet.old sheet.new result }
{
    let named = scan::past_mark(text, at, Mark::When)?;
    let name = scan::next_name(text, named)?;
    sheet.put_met(text, Kind::Suspend, name);
    Some(name.stop)
}

// The body of an abort is suspended, that of a weak abort is not.
fn put_guard(text: &[u8], strength: Strength, name: Part, sheet: &mut Sheet)
    requires { sheet.old.nodes + 16 ≤ max_counted }
    ensures nodes { sheet.new.nodes ≤ sheet.old.nodes + 1 }
    ensures adds { InText text.now name → Adds text.now sheet.old sheet.new (λ ts g. guard_done (strength_of strength) (name_at text.now name) g) }
{
    match strength {
        Strength::Strong => sheet.put_met(text, Kind::Suspend, name),
        Strength::Weak => {}
    }
}

// The nodes of an abort after those of its body: a trap around the body and an exit, beside the await loop.
fn put_abort(text: &[u8], strength: Strength, name: Part, sheet: &mut Sheet)
    requires { sheet.old.nodes + 16 ≤ max_counted }
    ensures nodes { sheet.new.nodes ≤ sheet.old.nodes + 11 }
    ensures adds { InText text.now name → (p : Kernel) (ts : List Name) (g : Progress) → Filled text.now sheet.old (added ∷ ts) (past (added ∷ ts) p g) → Filled text.now sheet.new ts (past ts (abort_of (strength_of strength) (name_at text.now name) p) g) }
{
    put_guard(text, strength, name, sheet);
    sheet.put(Kind::Exit, 0);
    sheet.put(Kind::Sequence, 0);
    put_await_loop(text, name, sheet);
    sheet.put(Kind::Parallel, 0);
    sheet.leave_trap();
    sheet.put(Kind::Trap, 0);
}

// The end of an abort.
fn close_abort(text: &[u8], strength: Strength, at: usize, sheet: &mut Sheet) -> Option<usize>
    requires { Ready text.now at sheet.old.nodes }
    ensures { (depth : ℕ) → RestRead (aborted (strength_of strength)) text.now at depth sheet.old sheet.new result }
{
    let named = scan::past_mark(text, at, Mark::When)?;
    let name = scan::next_name(text, named)?;
    let end = scan::past_mark(text, name.stop, Mark::End)?;
    put_abort(text, strength, name, sheet);
    Some(end)
}

// The end of a statement that has one sequence, and its node.
fn close(text: &[u8], frame: Frame, at: usize, sheet: &mut Sheet) -> Option<usize>
    requires ready { Ready text.now at sheet.old.nodes }
    requires plain { Plain frame }
    ensures { (depth : ℕ) → FrameIn text.now frame → RestRead (frame_of text.now frame) text.now at depth sheet.old sheet.new result }
{
    match frame {
        Frame::Suspend => close_when(text, at, sheet),
        Frame::Abort(strength) => close_abort(text, strength, at, sheet),
        _ => close_end(text, frame, at, sheet),
    }
}

// The end of a present that has no else branch.
fn close_then(text: &[u8], at: usize, name: Part, sheet: &mut Sheet) -> Option<usize>
    requires ready { Ready text.now at sheet.old.nodes }
    requires no_else { Lacks text.now at (G.mark G.else) }
    ensures { (depth : ℕ) → InText text.now name → RestRead (then_branch (name_at text.now name)) text.now at depth sheet.old sheet.new result }
{
    let end = scan::past_mark(text, at, Mark::End)?;
    sheet.put(Kind::Nothing, 0); // the else branch that is missing
    sheet.put_named(text, Kind::Present, name);
    Some(end)
}

// The statement at a place, with at most `depth` levels in it.
#[cycle(read_bracket_read_else_read_sequence_read_statement)]
fn read_statement(text: &[u8], at: usize, depth: usize, sheet: &mut Sheet) -> Option<usize>
    requires { Room text.now at sheet.old.nodes }
    ensures { StatementRead text.now at depth sheet.old sheet.new result }
{
    let (frame, inner) = match open(text, at)? {
        Opened::Whole { leaf, end } => {
            put_leaf(text, leaf, sheet);
            return Some(end);
        }
        Opened::Inside { frame, end } => (frame, end),
    };
    if depth == 0 {
        return None;
    }
    enter(text, frame, sheet);
    let last = read_sequence(text, inner, depth - 1, sheet)?;
    match frame {
        Frame::Bracket => read_bracket(text, last, depth - 1, sheet),
        Frame::Then(name) => read_else(text, last, name, depth - 1, sheet),
        _ => close(text, frame, last, sheet),
    }
}

// The sequence at a place: statements with semicolons between them, which group to the left.
#[cycle(read_bracket_read_else_read_sequence_read_statement)]
pub fn read_sequence(text: &[u8], at: usize, depth: usize, sheet: &mut Sheet) -> Option<usize>
    requires { Room text.now at sheet.old.nodes }
    ensures { SequenceRead text.now at depth sheet.old sheet.new result }
{
    let mut end = read_statement(text, at, depth, sheet)?;
    while let Some(start) = scan::past_mark(text, end, Mark::Semicolon) {
        end = read_statement(text, start, depth, sheet)?;
        sheet.put(Kind::Sequence, 0);
    }
    Some(end)
}

// The rest of a bracket after its first branch: at least one more, which group to the left.
#[cycle(read_bracket_read_else_read_sequence_read_statement)]
fn read_bracket(text: &[u8], at: usize, depth: usize, sheet: &mut Sheet) -> Option<usize>
    requires { Ready text.now at sheet.old.nodes }
    ensures { RestRead (branch alone) text.now at depth sheet.old sheet.new result }
{
    let mut start = scan::past_mark(text, at, Mark::Bars)?;
    loop {
        let last = read_sequence(text, start, depth, sheet)?;
        sheet.put(Kind::Parallel, 0);
        let Some(next) = scan::past_mark(text, last, Mark::Bars) else {
            return scan::past_mark(text, last, Mark::Close);
        };
        start = next;
    }
}

// The rest of a present after its then branch.
#[cycle(read_bracket_read_else_read_sequence_read_statement)]
fn read_else(text: &[u8], at: usize, name: Part, depth: usize, sheet: &mut Sheet) -> Option<usize>
    requires ready { Ready text.now at sheet.old.nodes }
    requires named { InText text.now name }
    ensures { RestRead (then_branch (name_at text.now name)) text.now at depth sheet.old sheet.new result }
{
    let Some(first) = scan::past_mark(text, at, Mark::Else) else {
        return close_then(text, at, name, sheet);
    };
    let last = read_sequence(text, first, depth, sheet)?;
    let end = scan::past_mark(text, last, Mark::End)?;
    sheet.put_named(text, Kind::Present, name);
    Some(end)
}
