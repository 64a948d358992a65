// One instant of an accepted program: start and resume.
#![tactic(auto)]

mod admission;
// public for crates/trial, which starts single statements by the same runner
pub mod run;
mod steps;

ghost use Rattle.std.specs.Prelude.{◌≡◌, ◌++◌, ◌≤◌, drop, length, take};
ghost use Rattle.esterel.specs.Limits.{max_nodes, signals};
ghost use Rattle.packing.specs.Packing.{state_bytes};
ghost use Rattle.esterel.specs.Refusal.{reply};
ghost use Rattle.instant.specs.Calls.{room_for, CallChecked, handed, Reacts, Starting, Resuming};

use esterel::{Check, Refusal};
use run::Inputs;
use table::Tree;

// What a run answers, an instant or one of its statements: the code, the answers taken up to its end and its entries.
#[derive(Clone, Copy, PartialEq, Eq)]
pub struct Reaction {
    pub code: usize,
    pub taken: usize,
    pub entries: usize,
}

// Whether there are 128 bytes of state, and a byte for each signal.
fn has_room(state: usize, emissions: usize) -> bool
    ensures { result ≡ room_for state emissions }
{
    (packing::STATE_BYTES <= state) & (esterel::SIGNALS <= emissions)
}

// Checks 1, 2, 3 and 4 to 11, and where they pass the tree.
fn check_call<'a>(
    table: &'a [u8],
    state: usize,
    emissions: usize,
    sizes: &'a mut [u16],
) -> Result<Tree<'a>, Refusal>
    requires { max_nodes ≤ length sizes.old }
    ensures { CallChecked table.now state emissions (reply result) }
{
    let room = has_room(state, emissions);
    analysis::check_tree(table, room, sizes)
}

// The end of a call. A closed run hands its pauses over, packed, and its emissions; after a starved one the lent buffers are as they
// were.
fn hand_over(
    ran: Option<Reaction>,
    held: &[u8; esterel::MAX_NODES],
    marks: &[u8; esterel::SIGNALS],
    n: usize,
    state: &mut [u8],
    emissions: &mut [u8],
) -> Result<Reaction, Refusal>
    requires { (n ≤ max_nodes) × (state_bytes ≤ length state.old) × (signals ≤ length emissions.old) }
    ensures { Reacts (handed ran (take n held.now) marks.now) state.old emissions.old state.new emissions.new (reply result) }
{
    let reaction = ran.ok_or(Refusal {
        check: Check::Starved,
        node: 0,
    })?;
    packing::pack(held, n, state);
    emissions[..esterel::SIGNALS].copy_from_slice(marks);
    Ok(reaction)
}

// The first instant of a program. It looks at no byte of the state.
pub fn start(
    table: &[u8],
    answers: &[u8],
    state: &mut [u8],
    emissions: &mut [u8],
) -> Result<Reaction, Refusal>
    ensures { Starting table.now answers.now state.old emissions.old state.new emissions.new (reply result) }
{
    let mut sizes = [0u16; esterel::MAX_NODES];
    let tree = check_call(table, state.len(), emissions.len(), &mut sizes)?;
    let n = tree.nodes();
    let mut held = [0u8; esterel::MAX_NODES];
    let mut marks = [0u8; esterel::SIGNALS];
    let inputs = Inputs { tree, answers };
    let ran = run::start_at(&inputs, n - 1, 0, &mut held, &mut marks);
    hand_over(ran, &held, &marks, n, state, emissions)
}

// A later instant of a program, from the pauses whose bits are 1 in the state.
pub fn resume(
    table: &[u8],
    answers: &[u8],
    state: &mut [u8],
    emissions: &mut [u8],
) -> Result<Reaction, Refusal>
    ensures { Resuming table.now answers.now state.old emissions.old state.new emissions.new (reply result) }
{
    let mut sizes = [0u16; esterel::MAX_NODES];
    let tree = check_call(table, state.len(), emissions.len(), &mut sizes)?;
    let n = tree.nodes();
    let mut held = [0u8; esterel::MAX_NODES];
    let mut counts = [0u16; esterel::MAX_NODES + 1];
    if !admission::admit(&tree, state, &mut held, &mut counts) {
        return Err(Refusal {
            check: Check::NotAdmitted,
            node: 0,
        });
    }
    let mut marks = [0u8; esterel::SIGNALS];
    let inputs = Inputs { tree, answers };
    let ran = run::resume_at(&inputs, &counts, n - 1, 0, &mut held, &mut marks);
    hand_over(ran, &held, &marks, n, state, emissions)
}
