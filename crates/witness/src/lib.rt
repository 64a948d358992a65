// Show me the tick (F-2): after refusal 11, the answers with which the loop's body begins and ends in one instant. The cost is
// linear in the nodes: 64 numbers for each, and a walk that comes to none twice, with a few sweeps over 64 numbers at each.
#![tactic(auto)]

ghost use Rattle.std.specs.Prelude.{◌≡◌, ◌≤◌, length};
ghost use Rattle.esterel.specs.Refusal.{reply};
ghost use Rattle.starts.specs.Ticks.{tick_answers};
ghost use Rattle.witness.specs.Shows.{Goal, Faulty, Showing};
ghost use Rattle.witness.specs.Ticks.{Tells};

use esterel::{Check, Refusal};
use rows::Row;
use starts::Weight;
use table::Tree;
use walk::Ground;

// What is told of a table: the loop whose body ends at once and the length of the list; or the nodes and the loop depth of an
// accepted one.
#[derive(Clone, Copy, PartialEq, Eq)]
pub enum Tick {
    Ends { node: usize, length: usize },
    Accepted { nodes: usize, loops: usize },
}

// Only code 0 will do, and nothing is needed after it. The new form is no plainer: a constant's value is one expression, which would be
// 64 numbers here.
fn goal() -> Row
    ensures { Goal result.of }
{
    let mut of = [0; 64];
    of[0] = 1;
    Row { of }
}

// The list for the body of a loop that check 11 refuses, at the front of the answers: its length.
fn show(table: &[u8], node: usize, answers: &mut [u8]) -> usize
    requires { Faulty table.now node × (tick_answers ≤ length answers.old) }
    ensures { Showing table.now node answers.old answers.new result }
{
    let weight = Weight::Answers;
    let mut sizes = [0; esterel::MAX_NODES];
    let tree = Tree::new(table, &mut sizes);
    let mut rows = [rows::NO_START; esterel::MAX_NODES];
    rows::fill_rows(weight, &tree, node, &mut rows);
    let ground = Ground {
        weight,
        tree,
        rows: &rows,
    };
    ground.walk_at(node - 1, &goal(), answers, 0).at
}

// Checks 1, 2, 3 and 4 to 11; after a refusal by 11, the list.
pub fn find_tick(table: &[u8], answers: &mut [u8]) -> Result<Tick, Refusal>
    ensures { Tells table.now answers.old answers.new (reply result) }
{
    match analysis::check_table(table, starts::TICK_ANSWERS <= answers.len()) {
        Ok(loops) => Ok(Tick::Accepted {
            nodes: table.len() / 2,
            loops,
        }),
        // The check as a pattern was tried: no goal is told which check an arm took, so the proof doesn't close.
        Err(Refusal { check, node }) if check == Check::EndsAtOnce => {
            let length = show(table, node, answers);
            Ok(Tick::Ends { node, length })
        }
        Err(refusal) => Err(refusal),
    }
}
