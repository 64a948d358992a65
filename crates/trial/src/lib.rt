// Start sets by trial (F-13): a node is started with every list of 12 answers, and the codes are gathered.
#![tactic(auto)]

ghost use Rattle.std.specs.Prelude.{◌≡◌, ◌^◌, ◌<◌};
ghost use Rattle.codes.specs.Codes.{word};
ghost use Rattle.esterel.specs.Refusal.{reply};
ghost use Rattle.esterel.specs.Instant.{start};
ghost use Rattle.esterel.specs.Checks.{verdict};
ghost use Rattle.table.specs.Columns.{stmt_at, first_at};
ghost use Rattle.starts.specs.Ticks.{presents};
ghost use Rattle.trial.specs.Lists.{list_at};
ghost use Rattle.trial.specs.Trials.{completion, tried, trial_answers};
ghost use Rattle.trial.specs.Steps.{Countable, Triable, code_set, LowCode};
ghost use Rattle.trial.specs.Calls.{tried_of};

use esterel::{Check, Refusal};
use instant::Reaction;
use instant::run::{self, Inputs};
use table::{Kind, Tree};

// The answers of a list, which suffice for as many presents, and how many such lists there are.
const ANSWERS: usize = 12;

const LISTS: usize = 1 << ANSWERS;

// The number of presents in the statement at a node, its own included: its nodes are those from its first to this one.
fn count_presents(tree: &Tree, first: usize, node: usize) -> usize
    requires { Countable tree.now.table.now first node }
    ensures { result ≡ presents (stmt_at tree.now.table.now node) }
{
    // `first..=node` was tried, and its proof didn't close: the library's laws of a chain over numbers are those of `a..b` alone.
    (first..node + 1)
        .filter(|i| tree.kind(*i) == Kind::Present)
        .count()
}

// The answers of a list by its number: they are the digits of the number in base 2, the lowest first. `array::from_fn` was tried, and
// its proof didn't close: what the closure answers is told one by one, and the search gives up at twelve.
fn answers_of(number: usize) -> [u8; ANSWERS]
    requires { number < 2 ^ trial_answers }
    ensures { result ≡ list_at trial_answers number }
{
    let mut answers = [0u8; ANSWERS];
    let mut rest = number;
    for answer in answers.iter_mut() {
        *answer = (rest % 2) as u8;
        rest /= 2;
    }
    answers
}

// The code of a run as a set, if it closed. One that is starved has none; with 12 answers no run is.
fn code_set(run: Option<Reaction>) -> u64
    requires { LowCode run }
    ensures { result ≡ code_set run }
{
    match run {
        Some(reaction) => codes::singleton(reaction.code as u32),
        None => 0,
    }
}

// The statement at a node is started with one list, by the runner that `start` uses. Nothing may be held beneath it, so what the run before
// left there is cleared. The emissions are not: a run writes them and never reads them.
fn try_list(
    inputs: &Inputs,
    first: usize,
    node: usize,
    held: &mut [u8; esterel::MAX_NODES],
    emissions: &mut [u8; esterel::SIGNALS],
) -> u64
    requires { Triable inputs.now.tree.table.now first node }
    ensures { result ≡ word (completion (start (first_at inputs.now.tree.table.now node) (stmt_at inputs.now.tree.table.now node) inputs.now.answers.now)) }
{
    held[first..=node].fill(0);
    let run = run::start_at(inputs, node, 0, held, emissions);
    code_set(run)
}

// The statement is started with every list. The contract tells only the set, which is K however it is found; that the runs are made is seen
// in this loop.
fn gather(tree: &Tree, first: usize, node: usize) -> u64
    requires { Triable tree.now.table.now first node }
    ensures { result ≡ word (tried trial_answers (first_at tree.now.table.now node) (stmt_at tree.now.table.now node)) }
{
    let mut held = [0u8; esterel::MAX_NODES];
    let mut emissions = [0u8; esterel::SIGNALS];
    let mut set = 0;
    for number in 0..LISTS {
        let answers = answers_of(number);
        let inputs = Inputs {
            tree: *tree,
            answers: &answers,
        };
        let own = try_list(&inputs, first, node, &mut held, &mut emissions);
        set = codes::union(set, own);
    }
    set
}

// What a trial tells: the set, and the number of presents in the statement.
#[derive(Clone, Copy, PartialEq, Eq)]
pub struct Tried {
    pub set: u64,
    pub presents: usize,
}

// The start set of a node of an accepted table by trial: checks 1, 2 and 4 to 11, then 21 for a node outside the table and 22 for one with
// more than 12 presents.
pub fn trial(table: &[u8], node: usize) -> Result<Tried, Refusal>
    ensures { reply result ≡ tried_of (verdict table.now) node }
{
    let mut sizes = [0u16; esterel::MAX_NODES];
    let tree = analysis::check_tree(table, true, &mut sizes)?;
    if tree.nodes() <= node {
        return Err(Refusal {
            check: Check::NoNode,
            node: 0,
        });
    }
    let first = node + 1 - tree.size(node);
    let presents = count_presents(&tree, first, node);
    if ANSWERS < presents {
        return Err(Refusal {
            check: Check::TooManyPresents,
            node: 0,
        });
    }
    let set = gather(&tree, first, node);
    Ok(Tried { set, presents })
}
