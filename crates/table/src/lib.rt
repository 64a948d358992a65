// The table of a program: what its bytes say, checks 1, 2 and 4 to 10, and the sizes of the subtrees.
#![tactic(auto)]

ghost use Rattle.std.specs.Prelude.{◌≡◌, cond, ◌+◌, ◌-◌, ◌*◌, ◌/◌, ◌<◌, ◌≤◌, length, get_or};
ghost use Rattle.esterel.specs.Limits.{max_nodes};
ghost use Rattle.esterel.specs.Refusal.{yields, reply};
ghost use Rattle.esterel.specs.Statement.{size};
ghost use Rattle.table.specs.Kinds.{kind_of, arity_of, plain_of};
ghost use Rattle.table.specs.Program.{program_of, Readable};
ghost use Rattle.table.specs.Columns.{onto, sizes_of, stmt_at, TreeOf};
ghost use Rattle.table.specs.Check.{length_check, node_check, nodes_check, WellSized, Room, span_of, refuse_below, Shallow, TopOf, OnlyOf, SecondOf, Descended, depths_of, traps_of, loops_of, Seen, Surveyed};

use esterel::{Check, Refusal};

// What a kind byte says.
#[derive(Clone, Copy, PartialEq, Eq)]
pub enum Kind {
    Nothing,
    Pause,
    Emit,
    Exit,
    Signal,
    Present,
    Suspend,
    Loop,
    Sequence,
    Parallel,
    Trap,
    Unknown,
}

impl From<u8> for Kind {
    ghost from_gives = { λ byte kind. kind ≡ kind_of byte };

    fn from(byte: u8) -> Kind {
        match byte {
            0 => Kind::Unknown,
            1 => Kind::Nothing,
            2 => Kind::Pause,
            3 => Kind::Emit,
            4 => Kind::Exit,
            5 => Kind::Signal,
            6 => Kind::Present,
            7 => Kind::Suspend,
            8 => Kind::Loop,
            9 => Kind::Sequence,
            10 => Kind::Parallel,
            11 => Kind::Trap,
            12..=255 => Kind::Unknown,
        }
    }
}

impl Kind {
    // How many statements a node of the kind takes as its children.
    pub fn arity(self) -> usize
        ensures { result ≡ arity_of self }
    {
        match self {
            Kind::Nothing | Kind::Pause | Kind::Emit | Kind::Exit | Kind::Unknown => 0,
            Kind::Signal | Kind::Suspend | Kind::Loop | Kind::Trap => 1,
            Kind::Present | Kind::Sequence | Kind::Parallel => 2,
        }
    }

    // Whether the field of a node of the kind must be 0.
    pub fn is_plain(self) -> bool
        ensures { result ≡ plain_of self }
    {
        match self {
            Kind::Nothing | Kind::Pause | Kind::Loop => true,
            Kind::Sequence | Kind::Parallel | Kind::Trap => true,
            Kind::Emit | Kind::Exit | Kind::Signal => false,
            Kind::Present | Kind::Suspend | Kind::Unknown => false,
        }
    }
}

// The kind of a node.
pub fn kind_at(table: &[u8], node: usize) -> Kind
    requires { 2 * node + 1 < length table.now }
    ensures { result ≡ kind_of (get_or table.now (2 * node) 0) }
{
    Kind::from(table[2 * node])
}

// The field of a node.
pub fn field_at(table: &[u8], node: usize) -> usize
    requires { 2 * node + 1 < length table.now }
    ensures { (result ≡ get_or table.now (2 * node + 1) 0) × (result < 256) }
{
    usize::from(table[2 * node + 1])
}

// What a survey finds: the answer of checks 8, 9 and 10, and the loop depth, which is told of a program that they refuse too
// (`Surveyed`, so it stands beside the result and not in it).
#[derive(Clone, Copy)]
pub struct Survey {
    pub check: Result<(), Refusal>,
    pub loops: usize,
}

// Checks 1 and 2.
pub fn check_length(table: &[u8]) -> Result<(), Refusal>
    ensures { reply result ≡ length_check table.now }
{
    let length = table.len();
    if 2 * esterel::MAX_NODES < length {
        return Err(Refusal {
            check: Check::TooManyNodes,
            node: 0,
        });
    }
    if (length == 0) | (length % 2 == 1) {
        return Err(Refusal {
            check: Check::NotPairs,
            node: 0,
        });
    }
    Ok(())
}

// Checks 4, 5 and 6 of one node, before which `unused` statements are unused.
fn check_node(kind: Kind, field: usize, unused: usize, node: usize) -> Result<(), Refusal>
    ensures { reply result ≡ node_check kind field unused node }
{
    if kind == Kind::Unknown {
        return Err(Refusal {
            check: Check::UnknownKind,
            node,
        });
    }
    if kind.is_plain() & (field != 0) {
        return Err(Refusal {
            check: Check::FieldNotZero,
            node,
        });
    }
    if unused < kind.arity() {
        return Err(Refusal {
            check: Check::TooFewStatements,
            node,
        });
    }
    Ok(())
}

// Checks 4 to 7 in one pass: what is needed of the statements before a node is how many of them are unused.
pub fn read_nodes(table: &[u8]) -> Result<(), Refusal>
    requires { WellSized table.now }
    ensures { reply result ≡ nodes_check table.now }
{
    let n = table.len() / 2;
    let mut unused: usize = 0;
    for i in 0..n {
        let kind = kind_at(table, i);
        check_node(kind, field_at(table, i), unused, i)?;
        unused = unused + 1 - kind.arity();
    }
    if unused == 1 {
        return Ok(());
    }
    Err(Refusal {
        check: Check::StatementsLeft,
        node: 0,
    })
}

// How deep a node stands, in how many traps and loops, and how many subtrees wait, its own among them.
#[derive(Clone, Copy)]
struct Nesting {
    depth: usize,
    traps: usize,
    loops: usize,
    waiting: usize,
}

// The lowest node of those seen so far at which check 8, 9 and 10 fails, or MAX_NODES. Options, which were tried, take an eighth more
// instructions for the checks of every call; the calls are to stay as fast as they were, to a fiftieth.
#[derive(Drop)]
struct Faults {
    depths: usize,
    traps: usize,
    exits: usize,
}

// A lower node that fails takes the place of a higher one.
fn lower_if(fails: bool, node: usize, higher: usize) -> usize
    ensures { result ≡ cond fails node higher }
{
    if fails { node } else { higher }
}

// Checks 8, 9 and 10 of one more node, the lowest.
fn seen(faults: Faults, kind: Kind, field: usize, node: usize, nesting: Nesting) -> Faults
    requires { Shallow max_nodes nesting }
    ensures { Seen faults kind field node nesting result }
{
    Faults {
        depths: lower_if(esterel::MAX_DEPTH < nesting.depth, node, faults.depths),
        traps: lower_if(
            (kind == Kind::Trap) & (esterel::MAX_TRAPS < nesting.traps + 1),
            node,
            faults.traps,
        ),
        exits: lower_if(
            (kind == Kind::Exit) & (nesting.traps <= field),
            node,
            faults.exits,
        ),
    }
}

// The first refusal: each check comes before the next.
fn first_refusal(faults: Faults) -> Result<(), Refusal>
    ensures { reply result ≡ refuse_below 8 faults.depths (refuse_below 9 faults.traps (refuse_below 10 faults.exits (yields tt))) }
{
    if faults.depths < esterel::MAX_NODES {
        return Err(Refusal {
            check: Check::TooDeep,
            node: faults.depths,
        });
    }
    if faults.traps < esterel::MAX_NODES {
        return Err(Refusal {
            check: Check::TooManyTraps,
            node: faults.traps,
        });
    }
    if faults.exits < esterel::MAX_NODES {
        return Err(Refusal {
            check: Check::Uncaught,
            node: faults.exits,
        });
    }
    Ok(())
}

// At most half of the nodes wait at a time, since each that waits is as deep as it stands on the stack, or deeper. Place 0 is read where
// nothing else waits.
const WAITING: usize = esterel::MAX_NODES / 2 + 1;

// How a subtree that waits is nested, in a third of the room.
#[derive(Clone, Copy)]
struct Level {
    depth: u16,
    traps: u16,
    loops: u16,
}

// Past a leaf: the subtree that waits next.
fn next_waiting(stack: &[Level; WAITING], waiting: usize) -> Nesting
    requires { (0 < waiting) × (waiting ≤ max_nodes / 2) }
    ensures { TopOf (depths_of stack.now) (traps_of stack.now) (loops_of stack.now) waiting result }
{
    let level = stack[waiting - 1];
    Nesting {
        depth: usize::from(level.depth),
        traps: usize::from(level.traps),
        loops: usize::from(level.loops),
        waiting: waiting - 1,
    }
}

// Into the only child.
fn only_child(node: Nesting, traps: usize, loops: usize) -> Nesting
    requires { node.depth ≤ max_nodes }
    ensures { OnlyOf node traps loops result }
{
    Nesting {
        depth: node.depth + 1,
        traps,
        loops,
        waiting: node.waiting,
    }
}

// Into the second of two children. The first waits.
fn second_child(stack: &mut [Level; WAITING], node: Nesting) -> Nesting
    requires { Shallow max_nodes node × (node.waiting ≤ max_nodes / 2) }
    ensures { SecondOf node (depths_of stack.old) (traps_of stack.old) (loops_of stack.old) (depths_of stack.new) (traps_of stack.new) (loops_of stack.new) result }
{
    stack[node.waiting] = Level {
        depth: (node.depth + 1) as u16,
        traps: node.traps as u16,
        loops: node.loops as u16,
    };
    Nesting {
        depth: node.depth + 1,
        traps: node.traps,
        loops: node.loops,
        waiting: node.waiting + 1,
    }
}

// From a node to the node before it.
fn descend(kind: Kind, stack: &mut [Level; WAITING], node: Nesting) -> Nesting
    requires { Shallow max_nodes node × (0 < node.waiting) × (node.waiting ≤ max_nodes / 2) }
    ensures { Descended kind node (depths_of stack.old) (traps_of stack.old) (loops_of stack.old) (depths_of stack.new) (traps_of stack.new) (loops_of stack.new) result }
{
    match kind {
        Kind::Nothing | Kind::Pause | Kind::Emit | Kind::Exit | Kind::Unknown => {
            next_waiting(stack, node.waiting)
        }
        Kind::Signal | Kind::Suspend => only_child(node, node.traps, node.loops),
        Kind::Loop => only_child(node, node.traps, node.loops + 1),
        Kind::Trap => only_child(node, node.traps + 1, node.loops),
        Kind::Present | Kind::Sequence | Kind::Parallel => { second_child(stack, node) }
    }
}

// Checks 8, 9 and 10, and the loop depth, in one pass from the last node to the first. What waits are the subtrees that end
// right before the nodes seen. How the one that ends next is nested is at hand, and how the others are is on a stack, the next
// one on top.
pub fn survey_table(table: &[u8]) -> Survey
    requires { Readable table.now }
    ensures { Surveyed (program_of table.now) result }
{
    let nowhere = Level {
        depth: 0,
        traps: 0,
        loops: 0,
    };
    let mut stack = [nowhere; WAITING];
    let mut faults = Faults {
        depths: esterel::MAX_NODES,
        traps: esterel::MAX_NODES,
        exits: esterel::MAX_NODES,
    };
    let mut most: usize = 0;
    let mut node = Nesting {
        depth: 1,
        traps: 0,
        loops: 0,
        waiting: 1,
    };
    for i in (0..table.len() / 2).rev() {
        let kind = kind_at(table, i);
        faults = seen(faults, kind, field_at(table, i), i, node);
        node = descend(kind, &mut stack, node);
        // Only a loop puts one more around what comes next.
        if kind == Kind::Loop {
            most = most.max(node.loops);
        }
    }
    Survey {
        check: first_refusal(faults),
        loops: most,
    }
}

// The size of the subtree at a node.
pub fn size_at(sizes: &[u16], node: usize) -> usize
    requires { node < length sizes.now }
    ensures { result ≡ get_or sizes.now node 0 }
{
    usize::from(sizes[node])
}

// The size of the subtree at a node with so many children, from that of the node before it and from the sizes before it.
fn span(sizes: &[u16], node: usize, children: usize, last: usize) -> usize
    requires { Room sizes.now node children last }
    ensures { result ≡ span_of sizes.now node children last }
{
    match children {
        0 => 1,
        1 => last + 1,
        _ => size_at(sizes, node - 1 - last) + last + 1,
    }
}

// The size of the subtree at each node of a table that was read. That of the node before is at hand: read back from the list,
// each would wait for the one before it to be written.
pub fn fill_sizes(table: &[u8], sizes: &mut [u16])
    requires { Readable table.now × (size (program_of table.now) ≤ length sizes.old) }
    ensures { sizes.new ≡ onto (sizes_of (program_of table.now)) sizes.old }
{
    let n = table.len() / 2;
    let mut last: usize = 0;
    for i in 0..n {
        last = span(sizes, i, kind_at(table, i).arity(), last);
        sizes[i] = last as u16;
    }
}

// A table that was read, with the sizes of its subtrees.
#[derive(Clone, Copy)]
pub struct Tree<'a> {
    pub table: &'a [u8],
    pub sizes: &'a [u16],
    ghost tree: { TreeOf table.now sizes.now },
}

impl<'a> Tree<'a> {
    // The sizes are filled in.
    pub fn new(table: &'a [u8], sizes: &'a mut [u16]) -> Tree<'a>
        requires { Readable table.now × (size (program_of table.now) ≤ length sizes.old) }
        ensures { result.table.now ≡ table.now }
    {
        fill_sizes(table, sizes);
        Tree { table, sizes }
    }

    pub fn nodes(&self) -> usize
        ensures { result ≡ size (program_of self.now.table.now) }
    {
        self.table.len() / 2
    }

    pub fn kind(&self, node: usize) -> Kind
        requires { node < size (program_of self.now.table.now) }
        ensures { result ≡ kind_of (get_or self.now.table.now (2 * node) 0) }
    {
        kind_at(self.table, node)
    }

    pub fn field(&self, node: usize) -> usize
        requires { node < size (program_of self.now.table.now) }
        ensures { (result ≡ get_or self.now.table.now (2 * node + 1) 0) × (result < 256) }
    {
        field_at(self.table, node)
    }

    // The size of the subtree at a node.
    pub fn size(&self, node: usize) -> usize
        requires { node < size (program_of self.now.table.now) }
        ensures { result ≡ size (stmt_at self.now.table.now node) }
    {
        size_at(self.sizes, node)
    }
}
