// Start sets where some signals are known for certain (F-8): of each node, started alone at its place in the program. Two passes over
// the nodes: from the last to the first, what is known of each node's own signal there; then from the first to the last, the sets.
#![tactic(auto)]

ghost use Rattle.std.specs.Prelude.{◌≡◌, cond, ◌&&◌, ◌<◌, ◌≤◌, leb, ltb, length, get_or};
ghost use Rattle.esterel.specs.Limits.{signals};
ghost use Rattle.esterel.specs.Refusal.{reply};
ghost use Rattle.esterel.specs.Statement.{size};
ghost use Rattle.table.specs.Kinds.{is_signal};
ghost use Rattle.table.specs.Program.{program_of};
ghost use Rattle.analysis.specs.Passes.{Placed};
ghost use Rattle.tied.specs.declared.Tie.TheVariants.{Unknown};
ghost use Rattle.tied.specs.Passes.{TieRead, TiesRead, tied_by, tested_of, codes_under, Known, NextSet, SetsFilled};
ghost use Rattle.tied.specs.Calls.{room_for, Narrowing};

use esterel::{Check, Refusal};
use table::{Kind, Tree};

// Whether there is a set for each of n nodes, and a byte for each signal.
fn has_room(n: usize, sets: usize, ties: usize) -> bool
    ensures { result ≡ room_for n sets ties }
{
    n <= sets && esterel::SIGNALS <= ties
}

// What is known of a signal.
#[derive(Clone, Copy, PartialEq, Eq)]
enum Tie {
    Unknown,
    Absent,
    Present,
}

// A byte that says none is refused by check 19.
impl TryFrom<u8> for Tie {
    type Error = Refusal;

    ghost try_from_gives = { TieRead };

    fn try_from(byte: u8) -> Result<Tie, Refusal> {
        match byte {
            0 => Ok(Tie::Unknown),
            1 => Ok(Tie::Absent),
            2 => Ok(Tie::Present),
            3..=255 => Err(Refusal {
                check: Check::BadTie,
                node: 0,
            }),
        }
    }
}

// Check 19: what is known of each signal, by its byte. Further bytes are not looked at. The ties are written where they are lent: a result
// that holds them would be copied, for which the archive for C would need `memcpy`.
fn read_ties(bytes: &[u8], ties: &mut [Tie; esterel::SIGNALS]) -> Result<(), Refusal>
    requires { signals ≤ length bytes.now }
    ensures { TiesRead bytes.now ties.new result }
{
    for (signal, tie) in ties.iter_mut().enumerate() {
        *tie = Tie::try_from(bytes[signal])?;
    }
    Ok(())
}

// What is known of a signal at a node: nothing, if the node is in a signal statement of its number, that is, not below the lowest node of
// those that come after it; else what is tied.
fn tie_at(
    ties: &[Tie; esterel::SIGNALS],
    lowest: &[usize; esterel::SIGNALS],
    signal: usize,
    node: usize,
) -> Tie
    requires { signal < signals }
    ensures { result ≡ cond (leb (get_or lowest.now signal 0) node) Unknown (tied_by ties.now signal) }
{
    if lowest[signal] <= node {
        return Tie::Unknown;
    }
    ties[signal]
}

// The lowest node of the signal statements of a number, with one statement more, which may be one; `first` is its first node.
fn reach(kind: Kind, lowest: usize, first: usize) -> usize
    ensures { result ≡ cond (is_signal kind && ltb first lowest) first lowest }
{
    if kind == Kind::Signal && first < lowest {
        return first;
    }
    lowest
}

// What is known of each node's own signal. From the last node to the first, `lowest` keeps for each signal the lowest node of the
// signal statements of its number so far. A subtree is a run of nodes, so a node still to come is in one of them exactly if its number is
// at least that one: no test looks for the signal statements around it.
fn find_known(tree: &Tree, ties: &[Tie; esterel::SIGNALS], known: &mut [Tie])
    requires { size (program_of tree.now.table.now) ≤ length known.old }
    ensures { Known (tied_by ties.now) tree.now.table.now known.new }
{
    let mut lowest = [esterel::MAX_NODES; esterel::SIGNALS];
    for i in (0..tree.nodes()).rev() {
        let kind = tree.kind(i);
        let signal = tree.field(i);
        known[i] = tie_at(ties, &lowest, signal, i);
        lowest[signal] = reach(kind, lowest[signal], i + 1 - tree.size(i));
    }
}

// The codes of a test from those of its branches: that of a tied signal has one branch only.
fn tested(tie: Tie, first: u64, second: u64) -> u64
    ensures { result ≡ tested_of tie first second }
{
    match tie {
        Tie::Unknown => codes::union(first, second),
        Tie::Absent => second,
        Tie::Present => first,
    }
}

// The codes of a statement of two children from theirs, with what is known of its own signal: but for a test, those of K.
fn codes_under(tie: Tie, kind: Kind, first: u64, second: u64) -> u64
    ensures { result ≡ codes_under tie kind first second }
{
    if kind == Kind::Present {
        return tested(tie, first, second);
    }
    analysis::codes_of(false, kind, 0, first, second)
}

// The set of a node, from those of the nodes before it.
fn set_at(tree: &Tree, known: &[Tie; esterel::MAX_NODES], sets: &[u64], node: usize) -> u64
    requires { Placed tree.now.table.now × (node < size (program_of tree.now.table.now)) × (node ≤ length sets.now) }
    ensures { NextSet tree.now.table.now known.now sets.now node result }
{
    let kind = tree.kind(node);
    let field = tree.field(node);
    let children = kind.arity();
    if children == 0 {
        return analysis::codes_of(false, kind, field, 0, 0);
    }
    let last = node - 1;
    if children == 1 {
        return analysis::codes_of(false, kind, field, sets[last], 0);
    }
    let first = last - tree.size(last);
    codes_under(known[node], kind, sets[first], sets[last])
}

// The sets of all nodes, children before parents.
fn fill_narrowed(tree: &Tree, known: &[Tie; esterel::MAX_NODES], sets: &mut [u64])
    requires { Placed tree.now.table.now × (size (program_of tree.now.table.now) ≤ length sets.old) }
    ensures { SetsFilled tree.now.table.now known.now sets.old sets.new }
{
    for i in 0..tree.nodes() {
        sets[i] = set_at(tree, known, sets, i);
    }
}

// The narrowed start sets of all nodes in postorder: checks 1, 2, 3, 4 to 11, by K as ever, then 19. A refusal changes nothing that
// is lent.
pub fn narrow(table: &[u8], ties: &[u8], sets: &mut [u64]) -> Result<usize, Refusal>
    ensures { Narrowing table.now ties.now sets.old sets.new (reply result) }
{
    let nodes = table.len() / 2;
    let mut sizes = [0u16; esterel::MAX_NODES];
    let room = has_room(nodes, sets.len(), ties.len());
    let tree = analysis::check_tree(table, room, &mut sizes)?;
    let mut tied = [Tie::Unknown; esterel::SIGNALS];
    read_ties(ties, &mut tied)?;
    let mut known = [Tie::Unknown; esterel::MAX_NODES];
    find_known(&tree, &tied, &mut known);
    fill_narrowed(&tree, &known, sets);
    Ok(nodes)
}
