// The analysis of a table: start sets K, any-instant sets A, contexts S and marks.
#![tactic(auto)]

ghost use Rattle.std.specs.Prelude.{◌≡◌, true, false, ◌&&◌, ◌+◌, ◌-◌, ◌<◌, ◌≤◌, length, get_or, set};
ghost use Rattle.codes.specs.Words.{◌∋◌, singleton_of, meets_of};
ghost use Rattle.codes.specs.Codes.{bit, word};
ghost use Rattle.esterel.specs.Limits.{max_nodes, max_depth, max_traps};
ghost use Rattle.esterel.specs.Refusal.{reply};
ghost use Rattle.table.specs.declared.Kind.TheVariants.{Exit};
ghost use Rattle.table.specs.Kinds.{is_loop, is_sequence};
ghost use Rattle.table.specs.Program.{program_of};
ghost use Rattle.table.specs.Check.{WellSized};
ghost use Rattle.analysis.specs.Steps.{pause_set, sequence_of, codes_of, under_first_of, under_second_of};
ghost use Rattle.analysis.specs.Contexts.{contexts_in, traps_in, TopOf, OnlyOf, SecondOf, Descended};
ghost use Rattle.analysis.specs.Passes.{Placed, onto, loops_check, words_of, flags_of, Fillable, contexts_of, marks_of, Walkable, Accepting};
ghost use Rattle.analysis.specs.Analysis.{TableChecked, TreeChecked, room_for, Analysis};

use esterel::{Check, Refusal};
use table::{Kind, Tree};

// The codes of a pause in K, or in A where `any` says so. A flag, and not a function for each set: what is defined (`codes_of`,
// specs/Steps) speaks of both at once.
fn pause_codes(any: bool) -> u64
    ensures { result ≡ word (pause_set any) }
{
    if any { 3 } else { 2 }
}

// The codes of a sequence: the second's count only where the first may end at once.
fn sequence_codes(first: u64, second: u64) -> u64
    ensures { result ≡ sequence_of first second }
{
    let stays = codes::without_ended(first);
    if codes::has(first, 0) {
        return codes::union(stays, second);
    }
    stays
}

// The codes of an exit.
fn exit_codes(level: usize) -> u64
    requires { level < max_traps }
    ensures { result ≡ singleton_of (2 + level) }
{
    codes::singleton(2 + level as u32)
}

// The codes of a node from those of its children: of the only one or the first, and of the second.
pub fn codes_of(any: bool, kind: Kind, field: usize, first: u64, second: u64) -> u64
    requires { kind ≡ Exit → field < max_traps }
    ensures { result ≡ codes_of any kind field first second }
{
    match kind {
        Kind::Nothing => codes::singleton(0),
        Kind::Pause => pause_codes(any),
        Kind::Emit => codes::singleton(0),
        Kind::Exit => exit_codes(field),
        Kind::Signal => first,
        Kind::Present => codes::union(first, second),
        Kind::Suspend => first,
        Kind::Loop => codes::without_ended(first),
        Kind::Sequence => sequence_codes(first, second),
        Kind::Parallel => codes::parallel(first, second),
        Kind::Trap => codes::caught(first),
        Kind::Unknown => 0,
    }
}

// One node on the stack of the codes of the statements that are unused so far: its children's, on top from `base` on, give way to its
// own. Two places are read whatever the number of children, so the stack has one more than can be in use.
fn push_codes(
    any: bool,
    kind: Kind,
    field: usize,
    stack: &mut [u64; esterel::MAX_DEPTH + 1],
    base: usize,
)
    requires { (kind ≡ Exit → field < max_traps) × (base < max_depth) }
    ensures { stack.new ≡ set stack.old base (codes_of any kind field (get_or stack.old base 0) (get_or stack.old (base + 1) 0)) }
{
    stack[base] = codes_of(any, kind, field, stack[base], stack[base + 1]);
}

// Whether a node is a loop whose body, with these start codes, may end at once.
fn ends_at_once(kind: Kind, body: u64) -> bool
    ensures { result ≡ (is_loop kind && (body ∋ 0)) }
{
    (kind == Kind::Loop) & codes::has(body, 0)
}

// Check 11: the lowest loop whose body may end at once. No more statements are unused at a time than the depth limit, which check 8 has
// seen to.
fn check_loops(table: &[u8]) -> Result<(), Refusal>
    requires { Placed table.now }
    ensures { reply result ≡ loops_check (program_of table.now) }
{
    let n = table.len() / 2;
    let mut starts = [0u64; esterel::MAX_DEPTH + 1];
    let mut unused: usize = 0;
    for i in 0..n {
        let kind = table::kind_at(table, i);
        let field = table::field_at(table, i);
        unused -= kind.arity();
        if ends_at_once(kind, starts[unused]) {
            return Err(Refusal {
                check: Check::EndsAtOnce,
                node: i,
            });
        }
        push_codes(false, kind, field, &mut starts, unused);
        unused += 1;
    }
    Ok(())
}

// Whether a node is a sequence whose first child, with these start codes, may end at once: 1 or 0, since it stands in a lent byte.
fn first_ends(kind: Kind, first: u64) -> u8
    ensures { result ≡ bit (is_sequence kind && (first ∋ 0)) }
{
    u8::from((kind == Kind::Sequence) & codes::has(first, 0))
}

// K and A of all nodes, children before parents, on two stacks (check 11 has that of K alone), and for each node whether it is a
// sequence whose first child may end at once. The walk that fills in the contexts asks that of a sequence before the mark takes the
// byte's place, and so needs to find no first child.
fn fill_sets(table: &[u8], start_sets: &mut [u64], any_sets: &mut [u64], flags: &mut [u8])
    requires { Fillable table.now start_sets.old any_sets.old flags.old }
    ensures starts { start_sets.new ≡ onto (words_of false (program_of table.now)) start_sets.old }
    ensures anys { any_sets.new ≡ onto (words_of true (program_of table.now)) any_sets.old }
    ensures flags { flags.new ≡ onto (flags_of (program_of table.now)) flags.old }
{
    let n = table.len() / 2;
    let mut starts = [0u64; esterel::MAX_DEPTH + 1];
    let mut anys = [0u64; esterel::MAX_DEPTH + 1];
    let mut unused: usize = 0;
    for i in 0..n {
        let kind = table::kind_at(table, i);
        let field = table::field_at(table, i);
        unused -= kind.arity();
        flags[i] = first_ends(kind, starts[unused]);
        push_codes(false, kind, field, &mut starts, unused);
        push_codes(true, kind, field, &mut anys, unused);
        start_sets[i] = starts[unused];
        any_sets[i] = anys[unused];
        unused += 1;
    }
}

// The context of a sequence's first child, from the sequence's own and the second's start set.
fn first_context(context: u64, second: u64) -> u64
    ensures { result ≡ under_first_of context second }
{
    let others = codes::without_ended(context);
    if codes::meets(second, context) {
        return codes::union(others, codes::singleton(0));
    }
    others
}

// The context of a sequence's second child.
fn second_context(context: u64, ends: u8) -> u64
    ensures { result ≡ under_second_of context ends }
{
    if ends == 0 { 0 } else { context }
}

// The context of a node, the traps around it, and how many subtrees wait, its own among them.
#[derive(Clone, Copy)]
struct Surroundings {
    context: u64,
    traps: u32,
    waiting: usize,
}

// What a subtree that waits needs: its context, and the traps around it.
#[derive(Clone, Copy)]
struct Pending {
    context: u64,
    traps: u32,
}

// Past a leaf: the subtree that waits next.
fn next_waiting(stack: &[Pending; esterel::MAX_DEPTH + 1], waiting: usize) -> Surroundings
    requires { (0 < waiting) × (waiting ≤ max_depth) }
    ensures { TopOf (contexts_in stack.now) (traps_in stack.now) waiting result }
{
    let next = stack[waiting - 1];
    Surroundings {
        context: next.context,
        traps: next.traps,
        waiting: waiting - 1,
    }
}

// Into the only child, with this context and so many traps around it.
fn only_child(node: Surroundings, context: u64, traps: u32) -> Surroundings
    ensures { OnlyOf node context traps result }
{
    Surroundings {
        context,
        traps,
        waiting: node.waiting,
    }
}

// Into the second of two children, with the contexts of both. The first waits.
fn second_child(
    stack: &mut [Pending; esterel::MAX_DEPTH + 1],
    node: Surroundings,
    first: u64,
    second: u64,
) -> Surroundings
    requires { node.waiting ≤ max_depth }
    ensures { SecondOf node first second (contexts_in stack.old) (traps_in stack.old) (contexts_in stack.new) (traps_in stack.new) result }
{
    stack[node.waiting] = Pending {
        context: first,
        traps: node.traps,
    };
    Surroundings {
        context: second,
        traps: node.traps,
        waiting: node.waiting + 1,
    }
}

// From a node to the node before it; on the stack are the other subtrees that wait. `last` is the start set of the last child, if
// there is one, and `ends` says whether a sequence's first child may end at once.
fn descend(
    kind: Kind,
    stack: &mut [Pending; esterel::MAX_DEPTH + 1],
    node: Surroundings,
    last: u64,
    ends: u8,
) -> Surroundings
    requires { (node.traps ≤ max_traps) × (0 < node.waiting) × (node.waiting ≤ max_depth) }
    ensures { Descended kind node last ends (contexts_in stack.old) (traps_in stack.old) (contexts_in stack.new) (traps_in stack.new) result }
{
    let context = node.context;
    let traps = node.traps;
    match kind {
        Kind::Nothing | Kind::Pause | Kind::Emit | Kind::Exit | Kind::Unknown => {
            next_waiting(stack, node.waiting)
        }
        Kind::Signal | Kind::Suspend => only_child(node, context, traps),
        Kind::Loop => only_child(node, codes::union(context, codes::singleton(0)), traps),
        Kind::Trap => only_child(node, codes::under_trap(context), traps + 1),
        Kind::Present => second_child(stack, node, context, context),
        Kind::Sequence => {
            let first = first_context(context, last);
            second_child(stack, node, first, second_context(context, ends))
        }
        Kind::Parallel => {
            let branch = codes::under_parallel(context, traps);
            second_child(stack, node, branch, branch)
        }
    }
}

// 1 if the codes meet the context, else 0.
fn mark(set: u64, context: u64) -> u8
    ensures { result ≡ bit (meets_of set context) }
{
    u8::from(codes::meets(set, context))
}

// The start set of the node before, which is the last child of a node that has children; nothing at the first node, which has none.
fn last_set(sets: &[u64], node: usize) -> u64
    requires { node ≤ length sets.now }
    ensures { (node ≡ 0 → ⊥) → result ≡ get_or sets.now (node - 1) 0 }
{
    if node == 0 {
        return 0;
    }
    sets[node - 1]
}

// The contexts and the marks, in one walk from the last node to the first. What waits are the subtrees that end right before the nodes
// done. The context of the one that ends next, and the traps around it, are at hand, and those of the others are on a stack, the next one
// on top.
fn fill_contexts(table: &[u8], sets: &[u64], anys: &[u64], contexts: &mut [u64], marks: &mut [u8])
    requires { Walkable table.now sets.now anys.now contexts.old marks.old }
    ensures contexts { contexts.new ≡ onto (contexts_of (program_of table.now)) contexts.old }
    ensures marks { marks.new ≡ onto (marks_of (program_of table.now)) marks.old }
{
    let nothing = Pending {
        context: 0,
        traps: 0,
    };
    let mut stack = [nothing; esterel::MAX_DEPTH + 1];
    let mut node = Surroundings {
        context: 0,
        traps: 0,
        waiting: 1,
    };
    for i in (0..table.len() / 2).rev() {
        let kind = table::kind_at(table, i);
        let ends = marks[i];
        contexts[i] = node.context;
        marks[i] = mark(anys[i], node.context);
        node = descend(kind, &mut stack, node, last_set(sets, i), ends);
    }
}

// Checks 4 to 11 of a table that passes 1 and 2, and its loop depth.
fn accept(table: &[u8]) -> Result<usize, Refusal>
    requires { WellSized table.now }
    ensures { Accepting table.now (reply result) }
{
    table::read_nodes(table)?;
    let found = table::survey_table(table);
    found.check?;
    check_loops(table)?;
    Ok(found.loops)
}

// Checks 1, 2, 3 and 4 to 11 of a call, and the loop depth; `room` says whether the lent buffers suffice.
pub fn check_table(table: &[u8], room: bool) -> Result<usize, Refusal>
    ensures { TableChecked room table.now (reply result) }
{
    table::check_length(table)?;
    if !room {
        return Err(Refusal {
            check: Check::NoRoom,
            node: 0,
        });
    }
    accept(table)
}

// The same of a call that walks the tree, which is handed out where the checks pass.
pub fn check_tree<'a>(
    table: &'a [u8],
    room: bool,
    sizes: &'a mut [u16],
) -> Result<Tree<'a>, Refusal>
    requires { max_nodes ≤ length sizes.old }
    ensures { TreeChecked room table.now (reply result) }
{
    check_table(table, room)?;
    Ok(Tree::new(table, sizes))
}

// What is told of a table that passes the checks: the number of nodes and the loop depth.
#[derive(Clone, Copy, PartialEq, Eq)]
pub struct Analysed {
    pub nodes: usize,
    pub loops: usize,
}

// Whether each of four buffers has an entry for each of n nodes.
fn has_room(n: usize, starts: usize, anys: usize, contexts: usize, marks: usize) -> bool
    ensures { result ≡ room_for n starts anys contexts marks }
{
    (n <= starts) & (n <= anys) & (n <= contexts) & (n <= marks)
}

// The analysis of a table: checks 1, 2, 3, 4 to 11, then K, A, S and marks of every node in postorder. A refusal changes
// nothing that is lent: nothing is written before check 11 has passed.
pub fn analyse(
    table: &[u8],
    start_sets: &mut [u64],
    any_sets: &mut [u64],
    contexts: &mut [u64],
    marks: &mut [u8],
) -> Result<Analysed, Refusal>
    ensures { Analysis table.now start_sets.old any_sets.old contexts.old marks.old start_sets.new any_sets.new contexts.new marks.new (reply result) }
{
    let n = table.len() / 2;
    let room = has_room(
        n,
        start_sets.len(),
        any_sets.len(),
        contexts.len(),
        marks.len(),
    );
    let loops = check_table(table, room)?;
    fill_sets(table, start_sets, any_sets, marks);
    fill_contexts(table, start_sets, any_sets, contexts, marks);
    Ok(Analysed { nodes: n, loops })
}
