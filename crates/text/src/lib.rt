// Programs as text (F-1): the call `read`, which turns a text of kernel Esterel into a table.
#![tactic(auto)]

ghost use Rattle.std.specs.Prelude.{◌≡◌, ℕ, List, [], ◌++◌, ◌*◌, ◌≤◌, length, drop};
ghost use Rattle.esterel.specs.Limits.{max_nodes};
ghost use Rattle.esterel.specs.Refusal.{reply};
ghost use Rattle.esterel.specs.Sets.{places_of};
ghost use Rattle.grammar.specs.Limits.{max_source};
ghost use Rattle.grammar.specs.Tree.{Tree};
ghost use Rattle.grammar.specs.Tokens.{tokens};
ghost use Rattle.grammar.specs.Kernel.{expand};
ghost use Rattle.grammar.specs.Grammar.{Program};
ghost use Rattle.grammar.specs.Meaning.{signals, statement_of, verdict_of_tree, place_of};
ghost use Rattle.grammar.specs.Progress.{past, blank};
ghost use Rattle.grammar.specs.Clipping.{low_bytes, clip};
ghost use Rattle.table.specs.Check.{places_check};
ghost use Rattle.sheet.specs.Sheet.{numbers_of, Filled};
ghost use Rattle.text.specs.Reading.{answer, Told, ReadAs};
ghost use Rattle.text.specs.Inner.{fault_of, ParsedAs, Written, Surveyable};

use esterel::{Check, Refusal};
use sheet::{Node, Sheet};

// The bytes of the longest table.
const TABLE: usize = 2 * esterel::MAX_NODES;

// How many nodes and signals a text's program has.
#[derive(Clone, Copy)]
pub struct Reading {
    pub nodes: usize,
    pub signals: usize,
}

// A text's refusal and the byte where it is at fault, which is 0 where none is named.
#[derive(Clone, Copy, PartialEq, Eq)]
pub struct Fault {
    pub refusal: Refusal,
    pub place: usize,
}

// A refusal for the table has no place in the text.
impl From<Refusal> for Fault {
    ghost from_gives = { λ refusal fault. (fault.refusal ≡ refusal) × (fault.place ≡ 0) };

    fn from(refusal: Refusal) -> Fault {
        Fault { refusal, place: 0 }
    }
}

// A fault in the grammar names no node.
impl From<fault::Fault> for Fault {
    ghost from_gives = { λ found fault. fault ≡ fault_of found.check found.place };

    fn from(found: fault::Fault) -> Fault {
        fault_at(found.check, found.place)
    }
}

// A refusal that names no node.
fn fault_at(check: Check, place: usize) -> Fault
    ensures { result ≡ fault_of check place }
{
    Fault {
        refusal: Refusal { check, node: 0 },
        place,
    }
}

// Writes the text's program on a fresh sheet; whether the text is in the grammar.
fn parse(text: &[u8], sheet: &mut Sheet) -> bool
    requires short { length text.now ≤ max_source }
    requires fresh { sheet.old.nodes ≡ 0 }
    ensures { ParsedAs text.now sheet.old sheet.new result }
{
    let Some(end) = reader::read_sequence(text, 0, grammar::MAX_LEVELS, sheet) else {
        return false;
    };
    scan::is_finished(text, end)
}

// The table of a sheet as bytes. A level above 255 loses its upper bits, but then 8 or 9 refuses the program, whose fields
// these checks do not look at.
fn copy_table(nodes: &[Node], table: &mut [u8])
    requires { 2 * length nodes.now ≤ length table.old }
    ensures { table.new ≡ low_bytes (numbers_of nodes.now) ++ drop (2 * length nodes.now) table.old }
{
    for (i, node) in nodes.iter().enumerate() {
        table[2 * i] = node.kind as u8;
        table[2 * i + 1] = (node.field % 256) as u8;
    }
}

// Checks 8 and 9 of the program on a sheet, by way of a table of its own. Check 10 fails nowhere: each exit has its trap.
fn check_nesting(sheet: &Sheet) -> Result<(), Refusal>
    requires { Surveyable sheet.now }
    ensures { (x : List ℕ) (t : Tree) → Filled x sheet.now [] (past [] (expand t) blank) → reply result ≡ places_check (places_of (clip (statement_of t))) 0 }
{
    let mut table = [0u8; TABLE];
    copy_table(&sheet.table[..sheet.nodes], &mut table);
    table::survey_table(&table[..2 * sheet.nodes]).check
}

// 15, 16, 1, 8 and 9 of a program on a sheet; then its table.
fn settle(text: &[u8], sheet: &Sheet, table: &mut [u8]) -> Result<Reading, Fault>
    requires written { Written sheet.now }
    requires room { 2 * max_nodes ≤ length table.old }
    requires short { length text.now ≤ max_source }
    ensures { (t : Tree) (d : Program t (tokens text.now)) → Filled text.now sheet.now [] (past [] (expand t) blank) → Told (verdict_of_tree t) (length (signals t)) (place_of text.now d) table.old table.new (answer result) }
{
    if sheet.is_untrapped {
        return Err(fault_at(Check::ExitWithoutTrap, fault::find_exit(text)));
    }
    let signals = sheet.signal_count;
    if esterel::SIGNALS < signals {
        return Err(fault_at(Check::TooManySignals, fault::find_signal(text)));
    }
    let nodes = sheet.nodes;
    if esterel::MAX_NODES < nodes {
        return Err(fault_at(Check::TooManyNodes, 0));
    }
    check_nesting(sheet)?;
    copy_table(&sheet.table[..nodes], table);
    Ok(Reading { nodes, signals })
}

// The table of a text: 3, then 14 or 20, 15, 16, 1, 8 and 9. A refusal changes nothing.
pub fn read(text: &[u8], table: &mut [u8]) -> Result<Reading, Fault>
    ensures { ReadAs text.now table.old table.new (answer result) }
{
    if table.len() < TABLE {
        return Err(fault_at(Check::NoRoom, 0));
    }
    if grammar::MAX_SOURCE < text.len() {
        return Err(fault_at(Check::NotInGrammar, grammar::MAX_SOURCE));
    }
    let mut sheet = Sheet::new();
    if !parse(text, &mut sheet) {
        return Err(fault::find_fault(text).into());
    }
    settle(text, &sheet, table)
}
