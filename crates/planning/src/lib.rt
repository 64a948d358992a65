// The first tick, to the entry (F-10): the greatest number of entries that any answers can give when a program is started, and answers that
// reach it.
#![tactic(auto)]

ghost use Rattle.std.specs.Prelude.{◌≡◌};
ghost use Rattle.esterel.specs.Refusal.{reply};
ghost use Rattle.table.specs.Program.{program_of};
ghost use Rattle.analysis.specs.Passes.{Placed};
ghost use Rattle.starts.specs.Summary.{most_entries};
ghost use Rattle.rows.specs.Rows.{Holds};
ghost use Rattle.planning.specs.Planning.{Plans, Hands};
ghost use Rattle.planning.specs.Rows.{Lies, NextRow, top_of, Tops};

use esterel::Refusal;
use rows::Row;
use starts::Weight;
use table::Kind;
use walk::Ground;

// What is told of the answers that reach the greatest number of entries: that number, and the length of the list.
#[derive(Clone, Copy, PartialEq, Eq)]
pub struct Longest {
    pub entries: usize,
    pub length: usize,
}

// The rows of all statements that can be unused at a time, and of one more: two are read whatever the number of children.
const PENDING: usize = esterel::MAX_DEPTH + 1;

// The row of a node, from the rows of the statements that are unused so far: its children's are on top, from `base` on.
fn next_row(kind: Kind, field: usize, stack: &[Row; PENDING], base: usize) -> Row
    requires { Lies kind field base stack.now }
    ensures { NextRow kind field base stack.now result.of }
{
    if kind.arity() == 0 {
        rows::leaf_row(Weight::Entries, kind, field)
    } else {
        rows::row_of(Weight::Entries, kind, &stack[base], &stack[base + 1])
    }
}

// The row of the whole program, in one pass from the first node to the last: a node's row takes the place of its children's. No more
// statements are unused at a time than the depth limit. No plainer over a `Tree`: it needs no sizes, and these are a pass of their own.
fn program_row(table: &[u8]) -> Row
    requires { Placed table.now }
    ensures { Holds (most_entries (program_of table.now)) result.of }
{
    let n = table.len() / 2;
    let mut stack = [rows::NO_START; PENDING];
    let mut unused = 0;
    for i in 0..n {
        let kind = table::kind_at(table, i);
        let field = table::field_at(table, i);
        unused -= kind.arity();
        stack[unused] = next_row(kind, field, &stack, unused);
        unused += 1;
    }
    stack[0]
}

// The greatest number of an accepted program, which ends or pauses: of its two codes.
fn top(row: &Row) -> usize
    requires { Tops row.now.of }
    ensures { result ≡ top_of row.now.of }
{
    let most = rows::pick(Weight::Entries, row.of[0], row.of[1]);
    usize::from(most) - 1
}

// Checks 1, 2 and 4 to 11, then the greatest number.
pub fn most_entries(table: &[u8]) -> Result<usize, Refusal>
    ensures { Plans table.now (reply result) }
{
    analysis::check_table(table, true)?;
    let entries = top(&program_row(table));
    Ok(entries)
}

// Each code will do, and nothing is needed after it.
const ANY_CODE: Row = Row { of: [1; 64] };

// Checks 1, 2, 3 and 4 to 11, then the greatest number and the answers that reach it, from the front on.
pub fn find_longest(table: &[u8], answers: &mut [u8]) -> Result<Longest, Refusal>
    ensures { Hands table.now answers.old answers.new (reply result) }
{
    let weight = Weight::Entries;
    let mut sizes = [0; esterel::MAX_NODES];
    let room = starts::TICK_ANSWERS <= answers.len();
    let tree = analysis::check_tree(table, room, &mut sizes)?;
    let n = tree.nodes();
    let mut rows = [rows::NO_START; esterel::MAX_NODES];
    rows::fill_rows(weight, &tree, n, &mut rows);
    let last = n - 1;
    let entries = top(&rows[last]);
    let ground = Ground {
        weight,
        tree,
        rows: &rows,
    };
    let length = ground.walk_at(last, &ANY_CODE, answers, 0).at;
    Ok(Longest { entries, length })
}
