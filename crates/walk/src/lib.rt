// A walk down a statement, by the rows of its nodes: it takes the first of the lists of answers that come to what is preferred, the least
// number of answers or the most entries. It comes to no node twice, with a few sweeps over 64 numbers at each.
#![tactic(auto)]

ghost use Rattle.std.specs.Prelude.{◌≡◌, true, false, ◌<◌};
ghost use Rattle.table.specs.Columns.{stmt_at};
ghost use Rattle.starts.specs.Walk.{no_worse};
ghost use Rattle.rows.specs.Rows.{value_of, max_number, LowRow};
ghost use Rattle.walk.specs.Needs.{under_at, goes_absent, Under, UpRow, First};
ghost use Rattle.walk.specs.Walks.{Leaves, Walking, Walks};

use rows::Row;
use starts::Weight;
use table::{Kind, Tree};

// Where a walk led: the code, and the place after its answers.
#[derive(Clone, Copy)]
pub struct Walked {
    pub code: usize,
    pub at: usize,
}

// Whether x is no worse than y; a number that says nothing is worse than any other. The weight is a value as in `rows::pick`.
fn no_worse(weight: Weight, x: u16, y: u16) -> bool
    ensures { result ≡ no_worse weight (value_of x) (value_of y) }
{
    if x == 0 || y == 0 {
        return y == 0;
    }
    match weight {
        Weight::Answers => x <= y,
        Weight::Entries => y <= x,
    }
}

// What is needed after the only child, or after the second of two whose first gave a code.
fn needed_at(kind: Kind, code: usize, need: &Row, j: usize) -> u16
    requires { (code < 64) × (j < 64) }
    ensures { result ≡ under_at kind code need.now.of j }
{
    match kind {
        Kind::Trap => need.of[codes::catch_code(j)],
        Kind::Loop if j == 0 => 0,
        _ => need.of[code.max(j)],
    }
}

fn need_under(kind: Kind, code: usize, need: &Row) -> Row
    requires { code < 64 }
    ensures { Under kind code need.now.of result.of }
{
    let mut of = [0; 64];
    for (j, number) in of.iter_mut().enumerate() {
        *number = needed_at(kind, code, need, j);
    }
    Row { of }
}

// The preferred up to each code.
fn up_to(weight: Weight, row: &Row) -> Row
    ensures { UpRow weight row.now.of result.of }
{
    let mut of = [0; 64];
    let mut up = 0;
    for k in 0..64 {
        up = rows::pick(weight, row.of[k], up);
        of[k] = up;
    }
    Row { of }
}

// What is needed after the first of a sequence: if it ends, what the second needs and what is needed after that.
fn need_sequence(weight: Weight, row: &Row, need: &Row) -> Row
    requires { LowRow max_number row.now.of × LowRow max_number need.now.of }
    ensures { First weight true row.now.of need.now.of result.of }
{
    let mut of = need.of;
    of[0] = rows::best_sum(weight, row, need);
    Row { of }
}

// What is needed after the left of a parallel, for each of its codes: the right gives a code up to it, or one above. One sweep
// down, with the preferred of those above.
fn need_parallel(weight: Weight, row: &Row, need: &Row) -> Row
    requires { LowRow max_number row.now.of × LowRow max_number need.now.of }
    ensures { First weight false row.now.of need.now.of result.of }
{
    let ups = up_to(weight, row);
    let mut of = [0; 64];
    let mut above = 0;
    for i in (0..64).rev() {
        of[i] = rows::pick(weight, rows::join(ups.of[i], need.of[i]), above);
        above = rows::pick(weight, rows::join(row.of[i], need.of[i]), above);
    }
    Row { of }
}

// Whether the else branch of a test is no worse than the then branch, with what is needed after it.
fn goes_absent(weight: Weight, first: &Row, last: &Row, need: &Row) -> bool
    requires { LowRow max_number first.now.of × LowRow max_number last.now.of × LowRow max_number need.now.of }
    ensures { result ≡ goes_absent weight first.now.of last.now.of need.now.of }
{
    let then = rows::best_sum(weight, first, need);
    let other = rows::best_sum(weight, last, need);
    no_worse(weight, other, then)
}

// A node with one child is left: a trap changes the code.
fn leave(kind: Kind, inner: Walked) -> Walked
    ensures { Leaves kind inner result }
{
    match kind {
        Kind::Trap => Walked {
            code: codes::catch_code(inner.code),
            at: inner.at,
        },
        _ => inner,
    }
}

// What a walk goes over: a program and the rows of its nodes, by a weight.
#[derive(Clone, Copy)]
pub struct Ground<'a> {
    pub weight: Weight,
    pub tree: Tree<'a>,
    pub rows: &'a [Row],
}

impl Ground<'_> {
    // Down the statement at a node: at a test the branch that is preferred is taken, absent if equal. The answers are written from
    // `at` on.
    pub fn walk_at(&self, node: usize, need: &Row, answers: &mut [u8], at: usize) -> Walked
        requires { Walking self.now need.now.of answers.old node at }
        ensures { Walks self.now.weight (stmt_at self.now.tree.table.now node) need.now.of answers.old answers.new at result }
    {
        let kind = self.tree.kind(node);
        let children = kind.arity();
        if children == 0 {
            let code = rows::leaf_code(kind, self.tree.field(node));
            return Walked { code, at };
        }
        let last = node - 1;
        if children == 1 {
            let under = need_under(kind, 0, need);
            let inner = self.walk_at(last, &under, answers, at);
            return leave(kind, inner);
        }
        let first = last - self.tree.size(last);
        if kind == Kind::Present {
            let absent = goes_absent(self.weight, &self.rows[first], &self.rows[last], need);
            answers[at] = u8::from(!absent);
            let child = if absent { last } else { first };
            return self.walk_at(child, need, answers, at + 1);
        }
        let ordered = kind == Kind::Sequence;
        let before = if ordered {
            need_sequence(self.weight, &self.rows[last], need)
        } else {
            need_parallel(self.weight, &self.rows[last], need)
        };
        let left = self.walk_at(first, &before, answers, at);
        if ordered && left.code != 0 {
            return left;
        }
        let under = need_under(kind, left.code, need);
        let right = self.walk_at(last, &under, answers, left.at);
        Walked {
            code: left.code.max(right.code),
            at: right.at,
        }
    }
}
