// One question (F-12): whether a code is in a node's start set, by looking at few nodes.
#![tactic(auto)]

ghost use Rattle.std.specs.Prelude.{◌≡◌, ◌≤◌, ◌<◌};
ghost use Rattle.codes.specs.Codes.{word};
ghost use Rattle.esterel.specs.Limits.{max_nodes};
ghost use Rattle.esterel.specs.Refusal.{reply};
ghost use Rattle.esterel.specs.Statement.{size};
ghost use Rattle.esterel.specs.Sets.{start_set};
ghost use Rattle.esterel.specs.Checks.{verdict};
ghost use Rattle.table.specs.Program.{program_of};
ghost use Rattle.table.specs.Columns.{stmt_at};
ghost use Rattle.analysis.specs.Passes.{Placed};
ghost use Rattle.question.specs.Question.{max_code};
ghost use Rattle.question.specs.Steps.{look_at, passed_up, joined_of, looks_at_all, stops_at, passed_code};
ghost use Rattle.question.specs.Calls.{asked_of};

use esterel::{Check, Refusal};
use table::{Kind, Tree};

// The greatest code that a set can have.
const MAX_CODE: usize = 63;

// What a question tells: whether the code is in the node's start set, and how many nodes were looked at.
#[derive(Clone, Copy, PartialEq, Eq)]
pub struct Asked {
    pub answer: bool,
    pub count: usize,
}

impl Asked {
    // What is told of a node one of whose children settles it, from what is told of the child.
    fn passed_up(self) -> Asked
        requires { self.count ≤ max_nodes }
        ensures { result ≡ passed_up self }
    {
        Asked {
            answer: self.answer,
            count: self.count + 1,
        }
    }

    // What is told of a node both of whose children were asked.
    fn joined(self, second: Asked) -> Asked
        requires { (self.count ≤ max_nodes) × (second.count ≤ max_nodes) }
        ensures { result ≡ joined_of self second }
    {
        Asked {
            answer: self.answer || second.answer,
            count: self.count + second.count + 1,
        }
    }
}

// Whether every node is looked at: of a statement without children, of a parallel, and of a trap asked for 0.
fn looks_at_all(kind: Kind, code: usize) -> bool
    ensures { result ≡ looks_at_all kind code }
{
    kind.arity() == 0 || kind == Kind::Parallel || kind == Kind::Trap && code == 0
}

// Whether a node with one child looks no further: a loop asked for 0, and a trap that would pass 64 on.
fn stops(kind: Kind, code: usize) -> bool
    ensures { result ≡ stops_at kind code }
{
    kind == Kind::Loop && code == 0 || kind == Kind::Trap && code == MAX_CODE
}

// The code that a node with one child passes on: a trap passes 1 as 1, and k from 2 as k + 1.
fn passed_code(kind: Kind, code: usize) -> usize
    requires { code ≤ max_code }
    ensures { result ≡ passed_code kind code }
{
    if kind == Kind::Trap && 2 <= code {
        return code + 1;
    }
    code
}

// The start set of the statement at a node, from those of the statements beneath it: every node of the subtree is looked at, and no
// other.
// The new form is no plainer: one function for this and `set_at` of the crate tied would be handed the way to a child's set, which is a read
// of a list there and a call of the function itself here.
fn set_at(tree: &Tree, node: usize) -> u64
    requires { Placed tree.now.table.now × (node < size (program_of tree.now.table.now)) }
    ensures { result ≡ word (start_set (stmt_at tree.now.table.now node)) }
{
    let kind = tree.kind(node);
    let field = tree.field(node);
    let children = kind.arity();
    if children == 0 {
        return analysis::codes_of(false, kind, field, 0, 0);
    }
    let last = set_at(tree, node - 1);
    if children == 1 {
        return analysis::codes_of(false, kind, field, last, 0);
    }
    let first = set_at(tree, node - 1 - tree.size(node - 1));
    analysis::codes_of(false, kind, field, first, last)
}

// The statement at a node is asked for a code. Each call is upon a child, and no node is looked at that the rule does not name.
fn look_at(tree: &Tree, node: usize, code: usize) -> Asked
    requires { Placed tree.now.table.now × (node < size (program_of tree.now.table.now)) × (code ≤ max_code) }
    ensures { result ≡ look_at tree.now.table.now node code }
{
    let kind = tree.kind(node);
    if looks_at_all(kind, code) {
        let set = set_at(tree, node);
        return Asked {
            answer: codes::has(set, code as u32),
            count: tree.size(node),
        };
    }
    let last = node - 1;
    if kind.arity() == 1 {
        if stops(kind, code) {
            return Asked {
                answer: false,
                count: 1,
            };
        }
        let inner = look_at(tree, last, passed_code(kind, code));
        return inner.passed_up();
    }
    let first = last - tree.size(last);
    if kind == Kind::Sequence {
        let set = set_at(tree, first);
        let stays = codes::has(codes::without_ended(set), code as u32);
        let own = Asked {
            answer: stays,
            count: tree.size(first),
        };
        if stays | !codes::has(set, 0) {
            return own.passed_up();
        }
        return own.joined(look_at(tree, last, code));
    }
    let then = look_at(tree, first, code);
    if then.answer {
        return then.passed_up();
    }
    then.joined(look_at(tree, last, code))
}

// Whether a code is in the start set of a node of an accepted table: checks 1, 2 and 4 to 11, then 21 for a node outside the table. A
// code above 63 is in no set, and no node is looked at for it.
pub fn ask(table: &[u8], node: usize, code: usize) -> Result<Asked, Refusal>
    ensures { reply result ≡ asked_of (verdict table.now) node code }
{
    let mut sizes = [0u16; esterel::MAX_NODES];
    let tree = analysis::check_tree(table, true, &mut sizes)?;
    if tree.nodes() <= node {
        return Err(Refusal {
            check: Check::NoNode,
            node: 0,
        });
    }
    if MAX_CODE < code {
        return Ok(Asked {
            answer: false,
            count: 0,
        });
    }
    Ok(look_at(&tree, node, code))
}
