// Rows of numbers by completion code: of all starts of a statement with a code, the least number of answers or the most entries. A
// number is 0 where no start gives the code, else one more than what it says.
#![tactic(auto)]

ghost use Rattle.std.specs.Prelude.{◌≡◌, [], ◌∷◌, suc, ◌+◌, ◌*◌, ◌<◌, ◌≤◌, length, slice_index};
ghost use Rattle.esterel.specs.Limits.{max_nodes};
ghost use Rattle.esterel.specs.Statement.{leaf, size};
ghost use Rattle.esterel.specs.Theorems.{WellFormed};
ghost use Rattle.table.specs.Kinds.{leaf_of, leaf_code};
ghost use Rattle.table.specs.Program.{program_of};
ghost use Rattle.table.specs.Columns.{stmt_at};
ghost use Rattle.starts.specs.declared.Weight.TheVariants.{Answers, Entries};
ghost use Rattle.starts.specs.Summary.{tested as tested_of, without_ended, followed as followed_of, caught as caught_of, weigh, weights, best};
ghost use Rattle.rows.specs.Rows.{value_of, values_of, max_number, Gets, Picks, Joins, LowRow, Holds, Found};
ghost use Rattle.rows.specs.Steps.{beside_at, IsInner, IsRow};
ghost use Rattle.rows.specs.Filled.{RowsTo};

use starts::Weight;
use table::{Kind, Tree};

// The numbers of a node's first and second child for a code.
#[derive(Clone, Copy)]
struct Pair {
    first: u16,
    second: u16,
}

// Fixed memory: a number stands for the Option that `value_of` reads in it, 0 for None. The rows of all nodes are 128 KiB so, cleared by
// zeros; an Option<NonZeroU16> takes four bytes here, for there is no niche. How large they are stays in clauses (`LowRow`), since an
// invariant is no plainer: it follows from the size of the row's statement, which the functions that build a row don't know.
#[derive(Clone, Copy)]
pub struct Row {
    pub of: [u16; 64],
}

// The row of a statement that has no start.
pub const NO_START: Row = Row { of: [0; 64] };

// The less of two numbers. One that says nothing is more than any other.
fn lesser(a: u16, b: u16) -> u16
    ensures { Picks Answers a b result }
{
    match (a, b) {
        (0, _) => b,
        (_, 0) => a,
        _ => a.min(b),
    }
}

// The preferred of two numbers. The larger is the one that says something, if any does. A `match` on a value here, in `entry` and in
// `answer` is no plainer as a trait with two types: the definitions take a weight as a value (see `starts::Weight`), and where `row_of` is
// inlined it is known.
pub fn pick(weight: Weight, a: u16, b: u16) -> u16
    ensures { Picks weight a b result }
{
    match weight {
        Weight::Answers => lesser(a, b),
        Weight::Entries => a.max(b),
    }
}

// One part after another.
pub fn join(a: u16, b: u16) -> u16
    requires { (a ≤ 2 * max_number) × (b ≤ 2 * max_number) }
    ensures { Joins a b result }
{
    if a == 0 || b == 0 { 0 } else { a + b - 1 }
}

// A statement is entered: no answer, one entry.
fn entry(weight: Weight) -> u16
    ensures { result ≡ suc (weigh weight [] 1) }
{
    match weight {
        Weight::Answers => 1,
        Weight::Entries => 2,
    }
}

// An answer is taken: one answer, no entry.
fn answer(weight: Weight) -> u16
    ensures { result ≡ suc (weigh weight (1 ∷ []) 0) }
{
    match weight {
        Weight::Answers => 2,
        Weight::Entries => 1,
    }
}

// The code of a statement without children.
pub fn leaf_code(kind: Kind, field: usize) -> usize
    requires { field < 256 }
    ensures { result ≡ leaf_code (leaf_of kind field) }
{
    match kind {
        Kind::Pause => 1,
        Kind::Exit => 2 + field,
        _ => 0,
    }
}

// Its row: no sweep, since only this code is given.
pub fn leaf_row(weight: Weight, kind: Kind, field: usize) -> Row
    requires { (field < 256) × (leaf_code (leaf_of kind field) < 64) }
    ensures { Holds (best weight (leaf (leaf_of kind field))) result.of }
{
    let mut of = [0u16; 64];
    of[leaf_code(kind, field)] = entry(weight);
    Row { of }
}

// A test takes one answer, and goes on with the then branch or the else branch.
fn tested(weight: Weight, first: u16, second: u16) -> u16
    requires { (first ≤ max_number) × (second ≤ max_number) }
    ensures { Gets (tested_of (weights weight) (value_of first) (value_of second)) result }
{
    let taken = answer(weight);
    pick(weight, join(taken, first), join(taken, second))
}

// The body of a loop, without its starts that end: for these there is no rule.
fn without_ended(weight: Weight, body: &Row, k: usize) -> u16
    requires { LowRow max_number body.now.of × (k < 64) }
    ensures { Gets (without_ended (weights weight) (values_of body.now.of) k) result }
{
    if k == 0 { 0 } else { body.of[k] }
}

// The first of a sequence, then the second if the first ends.
fn followed(weight: Weight, first: &Row, second: &Row, k: usize) -> u16
    requires { LowRow max_number first.now.of × LowRow max_number second.now.of × (k < 64) }
    ensures { Gets (followed_of (weights weight) (values_of first.now.of) (values_of second.now.of) k) result }
{
    let both = join(first.of[0], second.of[k]);
    if k == 0 {
        both
    } else {
        pick(weight, first.of[k], both)
    }
}

fn pair_at(first: &Row, second: &Row, k: usize) -> Pair
    requires { k < 64 }
    ensures { (result.first ≡ slice_index first.now.of k) × (result.second ≡ slice_index second.now.of k) }
{
    Pair {
        first: first.of[k],
        second: second.of[k],
    }
}

// A parallel: one of the two gives the code, and the other a code up to it.
fn beside(weight: Weight, at: Pair, up: Pair) -> u16
    requires { (at.first ≤ max_number) × (at.second ≤ max_number) × (up.first ≤ max_number) × (up.second ≤ max_number) }
    ensures { Gets (beside_at weight (value_of at.first) (value_of at.second) (value_of up.first) (value_of up.second)) result }
{
    pick(weight, join(at.first, up.second), join(up.first, at.second))
}

// A trap: 0 and 2 become 0, 1 stays, and a higher code falls by one.
fn caught(weight: Weight, body: &Row, k: usize) -> u16
    requires { LowRow max_number body.now.of × (k < 64) }
    ensures { Gets (caught_of (weights weight) (values_of body.now.of) k) result }
{
    match k {
        0 => pick(weight, body.of[0], body.of[2]),
        1 => body.of[1],
        63 => 0,
        _ => body.of[k + 1],
    }
}

// The preferred up to a code in both children's rows, with one code more.
fn up_to(weight: Weight, at: Pair, up: Pair) -> Pair
    ensures first { Picks weight at.first up.first result.first }
    ensures second { Picks weight at.second up.second result.second }
{
    Pair {
        first: pick(weight, at.first, up.first),
        second: pick(weight, at.second, up.second),
    }
}

// The number of a node with children for one code, without its own entry, from their rows.
fn inner_at(weight: Weight, kind: Kind, first: &Row, second: &Row, up: Pair, k: usize) -> u16
    requires { LowRow max_number first.now.of × LowRow max_number second.now.of × (up.first ≤ max_number) × (up.second ≤ max_number) × (k < 64) }
    ensures { IsInner weight kind first.now.of second.now.of up.first up.second k result }
{
    match kind {
        Kind::Nothing | Kind::Pause | Kind::Emit | Kind::Exit | Kind::Unknown => 0,
        Kind::Signal | Kind::Suspend => first.of[k],
        Kind::Present => tested(weight, first.of[k], second.of[k]),
        Kind::Loop => without_ended(weight, first, k),
        Kind::Sequence => followed(weight, first, second, k),
        Kind::Parallel => beside(weight, pair_at(first, second, k), up),
        Kind::Trap => caught(weight, first, k),
    }
}

// The row of a node with children from theirs, of the only one or the first, and of the second: one sweep over the codes for all
// kinds. Only a parallel asks for the preferred up to each code. Inlined where the weight is known, no step of the sweep chooses by it.
#[inline(always)]
pub fn row_of(weight: Weight, kind: Kind, first: &Row, second: &Row) -> Row
    requires { LowRow max_number first.now.of × LowRow max_number second.now.of }
    ensures { IsRow weight kind first.now.of second.now.of result.of }
{
    let own = entry(weight);
    let mut of = [0; 64];
    let mut up = Pair {
        first: 0,
        second: 0,
    };
    for k in 0..64 {
        if kind == Kind::Parallel {
            up = up_to(weight, pair_at(first, second, k), up);
        }
        of[k] = join(own, inner_at(weight, kind, first, second, up, k));
    }
    Row { of }
}

// The preferred of the sums of two rows.
pub fn best_sum(weight: Weight, row: &Row, need: &Row) -> u16
    requires { LowRow max_number row.now.of × LowRow max_number need.now.of }
    ensures { Found weight row.now.of need.now.of result }
{
    let mut found = 0;
    for (number, after) in row.of.iter().zip(&need.of) {
        found = pick(weight, join(*number, *after), found);
    }
    found
}

// The row of a node, from those of the nodes before it.
fn row_at(weight: Weight, tree: &Tree, rows: &[Row], node: usize) -> Row
    requires { WellFormed tree.now.table.now (program_of tree.now.table.now) × (node < size (program_of tree.now.table.now)) × RowsTo weight tree.now.table.now node rows.now }
    ensures { Holds (best weight (stmt_at tree.now.table.now node)) result.of }
{
    let kind = tree.kind(node);
    let children = kind.arity();
    if children == 0 {
        return leaf_row(weight, kind, tree.field(node));
    }
    let last = node - 1;
    let first = if children == 1 {
        last
    } else {
        last - tree.size(last)
    };
    row_of(weight, kind, &rows[first], &rows[last])
}

// The rows of the nodes before one, children before parents. No plainer as a method of `walk::Ground`: that lends the rows which this fills
// in.
pub fn fill_rows(weight: Weight, tree: &Tree, nodes: usize, rows: &mut [Row])
    requires { WellFormed tree.now.table.now (program_of tree.now.table.now) × (nodes ≤ size (program_of tree.now.table.now)) × (max_nodes ≤ length rows.old) }
    ensures { RowsTo weight tree.now.table.now nodes rows.new }
{
    for i in 0..nodes {
        rows[i] = row_at(weight, tree, rows, i);
    }
}
