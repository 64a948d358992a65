// Where a text that is refused is at fault: at the first word, sign or other byte with which it can't go on, at the name of an
// exit without its trap, or at the name with which its signals are too many. Each search goes over the tokens once and does
// not recurse: a text that is outside the grammar may be nested deeper than the readers (crates/reader) go.
#![tactic(auto)]

ghost use Rattle.std.specs.Prelude.{◌≡◌, List, [], ◌∷◌, ℕ, ◌<◌, ◌≤◌, false, not, cond, ltb, length, Some};
ghost use Rattle.esterel.specs.Refusal.{number_of};
ghost use Rattle.grammar.specs.Limits.{max_source, max_levels};
ghost use Rattle.grammar.specs.Tokens as G;
ghost use Rattle.grammar.specs.Tokens.{tokens, byte_of};
ghost use Rattle.grammar.specs.Kernel.{added};
ghost use Rattle.grammar.specs.Tree.{Tree, Name, Unary};
ghost use Rattle.grammar.specs.Machine as M;
ghost use Rattle.scan.specs.declared.Token.TheVariants as SV;
ghost use Rattle.scan.specs.Scanning.{opening_is, mark_is, token_is};
ghost use Rattle.grammar.specs.Names.{has, see};
ghost use Rattle.grammar.specs.Faults.{number_of_fault, opens_signal, crowded_from};
ghost use Rattle.grammar.specs.Search.{wants, opened, closed, Closable, Room as Fits};
ghost use Rattle.esterel.specs.Limits.{signals as max_signals};
ghost use Rattle.sheet.specs.Sheet.{name_at, InText, Filled};
ghost use Rattle.fault.specs.Walking.{Stacked, Kept, frame_of, Stepped, Steps, StepsOn, FaultTold, ExitTold, met, Levels, want_is, PassedAs, before_signal, CrowdedAs};
ghost use Rattle.fault.specs.declared.stack.Stack as D;

mod stack;

use esterel::Check;
use scan::{Mark, Opening, Part, Scanned, Token, Tokens};
use sheet::Sheet;
use stack::{Frame, Stack};

// What a name that comes next belongs to, and so what comes after it: a statement that is whole with it, a body, a present, an
// abort.
#[derive(Clone, Copy)]
pub enum Named {
    Leaf,
    Body,
    Present,
    Abort,
}

// What may come next: a statement; more after a sequence; a name; `in`; `then` or `else`; the `end` of an abort; the `abort`
// after `weak`.
#[derive(Clone, Copy)]
pub enum Mode {
    Statement,
    More,
    Name(Named),
    In,
    Branch,
    End,
    Abort,
}

// Whose name comes next, if it is a trap's or an exit's.
#[derive(Clone, Copy)]
pub enum Wanted {
    TrapName,
    ExitName,
}

// Why the search for an exit without its trap ends: its name is passed.
#[derive(Clone, Copy)]
struct Lost;

// The check of a fault, 14 or 20, and its place.
#[derive(Clone, Copy)]
pub struct Fault {
    pub check: Check,
    pub place: usize,
}

// A statement is opened, and one is expected in it.
fn enter(stack: &mut Stack, frame: Frame) -> Mode
    requires { stack.old.height < max_source }
    ensures { (f : M.Frame) (b : M.Before) (k : M.Open) → frame ≡ frame_of f → Stacked stack.old k → Kept stack.new result (M.expect M.alone (M.within f b k)) }
{
    stack.push(frame);
    Mode::Statement
}

// At a word or sign that opens a statement, where one is expected.
fn begin(stack: &mut Stack, opening: Opening) -> Mode
    requires { stack.old.height < max_source }
    ensures { (b : M.Before) (k : M.Open) → Stacked stack.old k → Stepped (M.to (M.begin (opening_is opening) b k)) stack.new (Some result) }
{
    match opening {
        Opening::Nothing => Mode::More,
        Opening::Pause => Mode::More,
        Opening::Emit => Mode::Name(Named::Leaf),
        Opening::Exit => Mode::Name(Named::Leaf),
        Opening::Signal => Mode::Name(Named::Body),
        Opening::Trap => Mode::Name(Named::Body),
        Opening::Loop => enter(stack, Frame::Body),
        Opening::Present => Mode::Name(Named::Present),
        Opening::Suspend => enter(stack, Frame::Suspended),
        Opening::Bracket => enter(stack, Frame::First),
        Opening::Halt => Mode::More,
        Opening::Sustain => Mode::Name(Named::Leaf),
        Opening::Await => Mode::Name(Named::Leaf),
        Opening::Abort => enter(stack, Frame::Aborted),
        Opening::Weak => Mode::Abort,
    }
}

// After `weak`.
fn begin_weak(stack: &mut Stack, opening: Opening) -> Option<Mode>
    requires { stack.old.height < max_source }
    ensures { (b : M.Before) (k : M.Open) → Stacked stack.old k → Stepped (M.at_abort (opening_is opening) b k) stack.new result }
{
    match opening {
        Opening::Abort => Some(enter(stack, Frame::Aborted)),
        _ => None,
    }
}

// At a word or sign that opens a statement.
fn on_opening(stack: &mut Stack, mode: Mode, opening: Opening) -> Option<Mode>
    requires { stack.old.height < max_source }
    ensures { Steps stack.old mode (G.opening (opening_is opening)) stack.new result }
{
    match mode {
        Mode::Statement => Some(begin(stack, opening)),
        Mode::Abort => begin_weak(stack, opening),
        _ => None,
    }
}

// After a sequence: at a double bar.
fn at_bars(stack: &mut Stack) -> Option<Mode>
    ensures { (p : Tree) (k : M.Open) → Stacked stack.old k → Stepped (M.at_bars p k) stack.new result }
{
    match stack.pop()? {
        Frame::First | Frame::Branch => Some(enter(stack, Frame::Branch)),
        _ => None,
    }
}

// At a closing bracket.
fn at_close(stack: &mut Stack) -> Option<Mode>
    ensures { (p : Tree) (k : M.Open) → Stacked stack.old k → Stepped (M.at_close p k) stack.new result }
{
    match stack.pop()? {
        Frame::Branch => Some(Mode::More),
        _ => None,
    }
}

// At `else`.
fn at_else(stack: &mut Stack) -> Option<Mode>
    ensures { (p : Tree) (k : M.Open) → Stacked stack.old k → Stepped (M.at_else p k) stack.new result }
{
    match stack.pop()? {
        Frame::Then => Some(enter(stack, Frame::Else)),
        _ => None,
    }
}

// At `end`.
fn at_end(stack: &mut Stack) -> Option<Mode>
    ensures { (p : Tree) (k : M.Open) → Stacked stack.old k → Stepped (M.at_end p k) stack.new result }
{
    match stack.pop()? {
        Frame::Body | Frame::Then | Frame::Else => Some(Mode::More),
        _ => None,
    }
}

// At `when`.
fn at_when(stack: &mut Stack) -> Option<Mode>
    ensures { (p : Tree) (k : M.Open) → Stacked stack.old k → Stepped (M.at_when p k) stack.new result }
{
    match stack.pop()? {
        Frame::Suspended => Some(Mode::Name(Named::Leaf)),
        Frame::Aborted => Some(Mode::Name(Named::Abort)),
        _ => None,
    }
}

// After a sequence.
fn go_on(stack: &mut Stack, mark: Mark) -> Option<Mode>
    ensures { (p : Tree) (k : M.Open) → Stacked stack.old k → Stepped (M.go_on (mark_is mark) p k) stack.new result }
{
    match mark {
        Mark::Semicolon => Some(Mode::Statement),
        Mark::Bars => at_bars(stack),
        Mark::Close => at_close(stack),
        Mark::Else => at_else(stack),
        Mark::End => at_end(stack),
        Mark::When => at_when(stack),
        _ => None,
    }
}

// Where `in` is wanted.
fn enter_body(stack: &mut Stack, mark: Mark) -> Option<Mode>
    requires { stack.old.height < max_source }
    ensures { (u : Unary) (b : M.Before) (k : M.Open) → Stacked stack.old k → Stepped (M.at_in (mark_is mark) u b k) stack.new result }
{
    match mark {
        Mark::In => Some(enter(stack, Frame::Body)),
        _ => None,
    }
}

// Where `then` or `else` is wanted.
fn enter_branch(stack: &mut Stack, mark: Mark) -> Option<Mode>
    requires { stack.old.height < max_source }
    ensures { (n : Name) (b : M.Before) (k : M.Open) → Stacked stack.old k → Stepped (M.at_branch (mark_is mark) n b k) stack.new result }
{
    match mark {
        Mark::Then => Some(enter(stack, Frame::Then)),
        Mark::Else => Some(enter(stack, Frame::Else)),
        _ => None,
    }
}

// Where the `end` of an abort is wanted.
fn leave_abort(mark: Mark) -> Option<Mode>
    ensures { (w : D.Stack) (p : Tree) (b : M.Before) (k : M.Open) → Stacked w k → Stepped (M.at_abort_end (mark_is mark) p b k) w result }
{
    match mark {
        Mark::End => Some(Mode::More),
        _ => None,
    }
}

// At a word or sign within a statement or between two.
fn on_mark(stack: &mut Stack, mode: Mode, mark: Mark) -> Option<Mode>
    requires { stack.old.height < max_source }
    ensures { Steps stack.old mode (G.mark (mark_is mark)) stack.new result }
{
    match mode {
        Mode::More => go_on(stack, mark),
        Mode::In => enter_body(stack, mark),
        Mode::Branch => enter_branch(stack, mark),
        Mode::End => leave_abort(mark),
        _ => None,
    }
}

// At a name.
fn on_name(mode: Mode) -> Option<Mode>
    ensures { (w : D.Stack) (n : Name) → Steps w mode (G.name n) w result }
{
    match mode {
        Mode::Name(Named::Leaf) => Some(Mode::More),
        Mode::Name(Named::Body) => Some(Mode::In),
        Mode::Name(Named::Present) => Some(Mode::Branch),
        Mode::Name(Named::Abort) => Some(Mode::End),
        _ => None,
    }
}

// At a token: what may come after it, if the text can go on with it.
fn step(stack: &mut Stack, mode: Mode, token: Token) -> Option<Mode>
    requires { stack.old.height < max_source }
    ensures { StepsOn stack.old mode token stack.new result }
{
    match token {
        Token::Opens(opening) => on_opening(stack, mode, opening),
        Token::Marks(mark) => on_mark(stack, mode, mark),
        Token::Names => on_name(mode),
        _ => None,
    }
}

// The check that a token is told by, where the text can't go on with it.
fn check_at(token: Token) -> Check
    ensures { (v : List ℕ) (t : G.Token) (us : List G.Token) → token_is token v ≡ t ∷ [] → number_of result ≡ number_of_fault (t ∷ us) }
{
    match token {
        Token::Foreign => Check::FullLanguage,
        _ => Check::NotInGrammar,
    }
}

// The first token with which the text can't go on to a text of the grammar, or where it merely stops. What may not change has the
// text's length in a clause, here and in the two searches below: they take any slice, not a type of texts that are short enough.
pub fn find_fault(text: &[u8]) -> Fault
    requires { length text.now ≤ max_source }
    ensures { FaultTold text.now (number_of result.check) result.place }
{
    let mut stack = Stack::new();
    let mut mode = Mode::Statement;
    for scanned in Tokens::new(text) {
        let Some(next) = step(&mut stack, mode, scanned.token) else {
            return Fault {
                check: check_at(scanned.token),
                place: scanned.part.start,
            };
        };
        mode = next;
    }
    Fault {
        check: Check::NotInGrammar,
        place: text.len(),
    }
}

// A statement that `end` closes counts as a trap without a name.
fn enter_level(levels: &mut Sheet, at: usize)
    ensures { (x : List ℕ) (ls : List Name) → at ≤ length x → length ls < max_levels → Levels x levels.old ls → Levels x levels.new (added ∷ ls) }
{
    levels.enter_trap(Part {
        start: at,
        stop: at,
    });
}

// Whether `end` closes what a word opens, and it is no trap, whose name comes first.
fn is_closed_by_end(opening: Opening) -> bool
    ensures { (ls : List Name) → opened (opening_is opening) ls ≡ cond result (added ∷ ls) ls }
{
    matches!(
        opening,
        Opening::Signal | Opening::Loop | Opening::Present | Opening::Abort
    )
}

// Whose name comes after a word or sign.
fn name_after(opening: Opening) -> Option<Wanted>
    ensures { want_is result ≡ wants (opening_is opening) }
{
    match opening {
        Opening::Trap => Some(Wanted::TrapName),
        Opening::Exit => Some(Wanted::ExitName),
        _ => None,
    }
}

// At a word or sign that opens a statement; whose name comes next.
fn open_level(levels: &mut Sheet, opening: Opening, at: usize) -> Option<Wanted>
    ensures { (want_is result ≡ wants (opening_is opening)) × ((x : List ℕ) (ls : List Name) → at ≤ length x → length ls < max_levels → Levels x levels.old ls → Levels x levels.new (opened (opening_is opening) ls)) }
{
    if is_closed_by_end(opening) {
        enter_level(levels, at);
    }
    name_after(opening)
}

// At a word or sign within a statement or between two.
fn close_level(levels: &mut Sheet, mark: Mark)
    ensures { (x : List ℕ) (ls : List Name) → Closable (mark_is mark) ls → Levels x levels.old ls → Levels x levels.new (closed (mark_is mark) ls) }
{
    if mark == Mark::End {
        levels.leave_trap();
    }
}

// Whether no level has an exit's name.
fn is_lost(text: &[u8], levels: &Sheet, name: Part) -> bool
    ensures { (ls : List Name) → InText text.now name → Levels text.now levels.now ls → result ≡ not (has ls (name_at text.now name)) }
{
    levels.find_level(text, name).is_none()
}

// At a name.
fn pass_name(
    text: &[u8],
    levels: &mut Sheet,
    wanted: Option<Wanted>,
    name: Part,
) -> Result<Option<Wanted>, Lost>
    ensures { (ls : List Name) → InText text.now name → length ls < max_levels → Levels text.now levels.old ls → PassedAs text.now (want_is wanted) (G.name (name_at text.now name)) levels.new ls result }
{
    match wanted {
        None => {}
        Some(Wanted::TrapName) => levels.enter_trap(name),
        Some(Wanted::ExitName) => {
            if is_lost(text, levels, name) {
                return Err(Lost);
            }
        }
    }
    Ok(None)
}

// At a token: whose name comes next, or it is the name of an exit without its trap.
fn pass(
    text: &[u8],
    levels: &mut Sheet,
    wanted: Option<Wanted>,
    scanned: Scanned,
) -> Result<Option<Wanted>, Lost>
    ensures { (ls : List Name) (t : G.Token) (us : List G.Token) → token_is scanned.token (name_at text.now scanned.part) ≡ t ∷ [] → scanned.part.stop ≤ length text.now → (scanned.token ≡ SV.Names → InText text.now scanned.part) → Fits (want_is wanted) ls (t ∷ us) → Levels text.now levels.old ls → PassedAs text.now (want_is wanted) t levels.new ls result }
{
    match scanned.token {
        Token::Opens(opening) => Ok(open_level(levels, opening, scanned.part.stop)),
        Token::Marks(mark) => {
            close_level(levels, mark);
            Ok(None)
        }
        Token::Names => pass_name(text, levels, wanted, scanned.part),
        _ => Ok(None),
    }
}

// Where the name of the first exit without its trap stands, in a text of the grammar: at its end if there is none. What may not
// change (`ExitTold`) has the end there, so the answer is a place and no option.
pub fn find_exit(text: &[u8]) -> usize
    requires { length text.now ≤ max_source }
    ensures { ExitTold text.now result }
{
    let mut levels = Sheet::new();
    let mut wanted = None;
    for scanned in Tokens::new(text) {
        let Ok(next) = pass(text, &mut levels, wanted, scanned) else {
            return scanned.part.start;
        };
        wanted = next;
    }
    text.len()
}

// Whether a signal's name comes after a word or sign.
fn opens_signal(opening: Opening) -> bool
    ensures { result ≡ opens_signal (opening_is opening) }
{
    matches!(
        opening,
        Opening::Emit | Opening::Signal | Opening::Present | Opening::Sustain | Opening::Await
    )
}

// Whether a signal's name comes after a token.
fn is_before_signal(token: Token) -> bool
    ensures { (v : List ℕ) (t : G.Token) → token_is token v ≡ t ∷ [] → result ≡ before_signal t }
{
    match token {
        Token::Opens(opening) => opens_signal(opening),
        Token::Marks(mark) => mark == Mark::When,
        _ => false,
    }
}

// Whether there are too many signals with a name more.
fn is_crowding(text: &[u8], names: &mut Sheet, name: Part) -> bool
    ensures { (ns : List Name) → InText text.now name → Filled text.now names.old [] (met ns) → (result ≡ ltb max_signals (length (see ns (name_at text.now name)))) × Filled text.now names.new [] (met (see ns (name_at text.now name))) }
{
    names.note(text, name);
    esterel::SIGNALS < names.signal_count
}

// Whether a token is such a name.
fn is_crowded(text: &[u8], names: &mut Sheet, is_signal: bool, scanned: Scanned) -> bool
    ensures { (ns : List Name) (t : G.Token) → token_is scanned.token (name_at text.now scanned.part) ≡ t ∷ [] → (scanned.token ≡ SV.Names → InText text.now scanned.part) → Filled text.now names.old [] (met ns) → CrowdedAs text.now ns is_signal t names.new result }
{
    is_signal && scanned.token == Token::Names && is_crowding(text, names, scanned.part)
}

// Where the name stands with which there are too many signals: at the end of the text if there is none, as the clause has
// it, which may not change: so the answer is a place and no option.
pub fn find_signal(text: &[u8]) -> usize
    requires { length text.now ≤ max_source }
    ensures { result ≡ byte_of text.now (crowded_from [] false (tokens text.now)) }
{
    let mut names = Sheet::new();
    let mut is_signal = false;
    for scanned in Tokens::new(text) {
        if is_crowded(text, &mut names, is_signal, scanned) {
            return scanned.part.start;
        }
        is_signal = is_before_signal(scanned.token);
    }
    text.len()
}
