// Check 12: whether a state is admitted, from the counts of its held pauses.
ghost use Rattle.std.specs.Prelude.{◌≡◌, ◌<◌, ◌≤◌, length, take};
ghost use Rattle.esterel.specs.Instant.{admitted};
ghost use Rattle.esterel.specs.Limits.{max_nodes};
ghost use Rattle.esterel.specs.Statement.{size, nodes};
ghost use Rattle.table.specs.Program.{program_of};
ghost use Rattle.instant.specs.Admission.{Counted, is_exclusive, byte_fits_kind, node_fits, Suffices, Admitting};

use table::{Kind, Tree};

// Whether a kind holds pauses in at most one of its two children.
fn is_exclusive(kind: Kind) -> bool
    ensures { result ≡ is_exclusive kind }
{
    kind == Kind::Sequence || kind == Kind::Present
}

// Whether a kind may have this byte: 0, or 1 at a pause.
fn byte_fits(kind: Kind, byte: u8) -> bool
    ensures { result ≡ byte_fits_kind kind byte }
{
    match byte {
        0 => true,
        1 => kind == Kind::Pause,
        _ => false,
    }
}

// The number of held pauses before each node, and before the end. Zipped slices are no plainer: entry i + 1 of one is made at byte i of the
// other, so both would be cut first.
fn count_held(held: &[u8], counts: &mut [u16], n: usize)
    requires { (n ≤ length held.now) × (n < length counts.old) × (n ≤ max_nodes) }
    ensures { Counted held.now counts.new n }
{
    counts[0] = 0;
    let mut count = 0;
    for i in 0..n {
        count += u16::from(held[i] != 0);
        counts[i + 1] = count;
    }
}

// What check 12 asks at a node: its own byte fits, and a sequence or present holds pauses in one child at most.
fn node_fits(tree: &Tree, counts: &[u16], held: &[u8], node: usize) -> bool
    requires { (node < size (program_of tree.now.table.now)) × (size (program_of tree.now.table.now) ≤ length held.now) × Counted held.now counts.now (size (program_of tree.now.table.now)) }
    ensures { result ≡ node_fits (nodes (program_of tree.now.table.now)) held.now node }
{
    let kind = tree.kind(node);
    if !byte_fits(kind, held[node]) {
        return false;
    }
    if !is_exclusive(kind) {
        return true;
    }
    let second = node - tree.size(node - 1);
    let first = second - tree.size(second - 1);
    if counts[first] == counts[second] {
        return true;
    }
    counts[second] == counts[node]
}

// What check 12 asks of the nodes' bytes.
fn check_nodes(tree: &Tree, counts: &[u16], held: &[u8]) -> bool
    requires { (size (program_of tree.now.table.now) ≤ length held.now) × Counted held.now counts.now (size (program_of tree.now.table.now)) }
    ensures { result ≡ admitted (program_of tree.now.table.now) (take (size (program_of tree.now.table.now)) held.now) }
{
    let n = tree.nodes();
    counts[n] != 0 && (0..n).all(|i| node_fits(tree, counts, held, i))
}

// Whether a packed state is admitted (check 12), and what a run resumes from: the bytes of the program's nodes, and their counts.
pub fn admit(tree: &Tree, state: &[u8], held: &mut [u8], counts: &mut [u16]) -> bool
    requires { Suffices (program_of tree.now.table.now) state.now held.old counts.old }
    ensures { Admitting (program_of tree.now.table.now) state.now held.old held.new counts.new result }
{
    let n = tree.nodes();
    packing::unpack(state, held, n);
    count_held(held, counts, n);
    packing::is_clear_from(state, n) && check_nodes(tree, counts, held)
}
