// What is done around the calls of a run: nothing here calls itself.
ghost use Rattle.std.specs.Prelude.{◌≡◌, cond, ◌+◌, ◌-◌, ◌*◌, ◌<◌, ◌≤◌, eqb, length, get_or};
ghost use Rattle.esterel.specs.Statement.{size};
ghost use Rattle.table.specs.Kinds.{is_suspend, leaf_of};
ghost use Rattle.table.specs.Program.{program_of};
ghost use Rattle.instant.specs.Steps.{alone, one_more, both, Left, asked, holds_beneath, LeafRan};

use crate::Reaction;
use crate::run::Inputs;
use table::Kind;

impl Reaction {
    // A run of a node that enters none beneath it.
    pub(super) fn alone(code: usize, taken: usize) -> Reaction
        ensures { result ≡ alone code taken }
    {
        Reaction {
            code,
            taken,
            entries: 1,
        }
    }

    // A node's own entry, beside those beneath it.
    pub(super) fn one_more(self) -> Reaction
        requires { self.entries < 4294967296 }
        ensures { result ≡ one_more self }
    {
        Reaction {
            entries: self.entries + 1,
            ..self
        }
    }

    // A node is left after two runs beneath it.
    pub(super) fn join(self, right: Reaction) -> Reaction
        requires { self.entries + right.entries < 4294967296 }
        ensures { result ≡ one_more (both self right) }
    {
        Reaction {
            code: self.code.max(right.code),
            taken: right.taken,
            entries: self.entries + right.entries + 1,
        }
    }
}

// The branch of a present that an answer takes: the second for 0.
pub fn branch(answer: u8, first: usize, last: usize) -> usize
    ensures { result ≡ cond (eqb answer 0) last first }
{
    if answer == 0 { last } else { first }
}

// A node with one child is left: a trap that catches drops all pauses beneath it.
pub fn leave(kind: Kind, inner: Reaction, held: &mut [u8], first: usize, node: usize) -> Reaction
    requires { (inner.entries < 4294967296) × (first ≤ node) × (node ≤ length held.old) }
    ensures { Left kind inner first node held.old held.new result }
{
    let left = inner.one_more();
    if kind != Kind::Trap {
        return left;
    }
    if inner.code == 2 {
        held[first..node].fill(0);
    }
    Reaction {
        code: codes::catch_code(inner.code),
        ..left
    }
}

// A statement without children is started, where nothing is held.
pub fn start_leaf(
    inputs: &Inputs,
    kind: Kind,
    node: usize,
    taken: usize,
    held: &mut [u8],
    emissions: &mut [u8],
) -> Reaction
    requires { (node < size (program_of inputs.now.tree.table.now)) × (node < length held.old) × (256 ≤ length emissions.old) }
    ensures { LeafRan (leaf_of kind (get_or inputs.now.tree.table.now (2 * node + 1) 0)) node taken held.old held.new emissions.old emissions.new result }
{
    let field = inputs.tree.field(node);
    match kind {
        Kind::Pause => {
            held[node] = 1;
            Reaction::alone(1, taken)
        }
        Kind::Emit => {
            emissions[field] = 1;
            Reaction::alone(0, taken)
        }
        Kind::Exit => Reaction::alone(2 + field, taken),
        _ => Reaction::alone(0, taken),
    }
}

// What a node asks before its child is resumed, as a run of its own: the child is resumed if that ends, with code 0. A suspend
// needs an answer, and keeps its pauses unless that is 0.
pub fn ask(inputs: &Inputs, kind: Kind, taken: usize) -> Option<Reaction>
    ensures { result ≡ asked (is_suspend kind) inputs.now.answers.now taken }
{
    let free = Reaction {
        code: 0,
        taken,
        entries: 0,
    };
    if kind != Kind::Suspend {
        return Some(free);
    }
    let answer = inputs.answer_after(taken)?;
    if answer != 0 {
        return Some(Reaction::alone(1, taken + 1));
    }
    Some(Reaction {
        taken: taken + 1,
        ..free
    })
}

// Whether a pause is held at a node or beneath it; the counts are those of the pauses held before each node.
pub fn holds_beneath(inputs: &Inputs, counts: &[u16], node: usize) -> bool
    requires { (node < size (program_of inputs.now.tree.table.now)) × (node + 1 < length counts.now) }
    ensures { result ≡ holds_beneath inputs.now.tree.table.now counts.now node }
{
    let first = node + 1 - inputs.tree.size(node);
    counts[first] < counts[node + 1]
}
