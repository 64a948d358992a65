// The calls for C and Rust: each buffer is a pointer and a length. A function returns 0, and three figures stand in the
// answer; or number + 256 * node of a refusal, and no buffer has changed, the answer among them.
#![tactic(auto)]

ghost use Rattle.std.specs.Prelude.{◌≡◌, ◌≤◌, length};
ghost use Rattle.esterel.specs.Refusal.{number_of, rejects, reply};
ghost use Rattle.table.specs.Check.{length_check};
ghost use Rattle.abi.specs.Exported.{max_node, returned as returned_of, Small, Tells, tell as told_of, short_answer as short_answer_of, Analysing, StartingC, ResumingC, RenderingC, ReadingC, PlacingC, TickingC, FetchingC, LocatingC, NarrowingC, PlanningC, HandingC, AskingC, TryingC};

mod figures;

use esterel::{Check, Refusal};
use figures::Figures;

// The entries of an answer.
const FIGURES: usize = 3;

// What is returned for a refusal.
fn returned(refusal: Refusal) -> u32
    requires { refusal.node ≤ max_node }
    ensures { result ≡ returned_of (rejects (number_of refusal.check) refusal.node) }
{
    refusal.check as u32 + 256 * refusal.node as u32
}

// The end of each function: the figures go to the answer, a refusal is returned.
fn tell<T: Figures>(told: Result<T, Refusal>, answer: &mut [u64]) -> u32
    requires room { 3 ≤ length answer.old }
    requires small { Small (told_of T.tells (reply told)) }
    ensures { Tells (told_of T.tells (reply told)) answer.old answer.new result }
{
    match told {
        Ok(value) => {
            answer[..3].copy_from_slice(&value.figures()); // written out, as in figures.rt
            0
        }
        Err(refusal) => returned(refusal),
    }
}

// The refusal of a lent buffer that is too short; the answer is one of them.
const NO_ROOM: Refusal = Refusal {
    check: Check::NoRoom,
    node: 0,
};

// What an answer that is too short is refused with: checks 1 and 2 of the table come before check 3.
fn short_answer(table: &[u8]) -> u32
    ensures { result ≡ returned_of (short_answer_of (length_check table.now)) }
{
    let Err(refusal) = table::check_length(table) else {
        return returned(NO_ROOM);
    };
    returned(refusal)
}

// The C interface: all exports have one shape, the answer's room, the call and `tell`. Each lends buffers of its own, and a closure around
// the call would have to say of them in its clauses what the export says.
#[unsafe(no_mangle)]
pub extern "C" fn bavzhrono_analyse(
    table: &[u8],
    start_sets: &mut [u64],
    any_sets: &mut [u64],
    contexts: &mut [u64],
    marks: &mut [u8],
    answer: &mut [u64],
) -> u32
    ensures { Analysing table.now start_sets.old any_sets.old contexts.old marks.old answer.old start_sets.new any_sets.new contexts.new marks.new answer.new result }
{
    if answer.len() < FIGURES {
        return short_answer(table);
    }
    let analysed = analysis::analyse(table, start_sets, any_sets, contexts, marks);
    tell(analysed, answer)
}

#[unsafe(no_mangle)]
pub extern "C" fn bavzhrono_start(
    table: &[u8],
    answers: &[u8],
    state: &mut [u8],
    emissions: &mut [u8],
    answer: &mut [u64],
) -> u32
    ensures { StartingC table.now answers.now state.old emissions.old answer.old state.new emissions.new answer.new result }
{
    if answer.len() < FIGURES {
        return short_answer(table);
    }
    let reaction = instant::start(table, answers, state, emissions);
    tell(reaction, answer)
}

#[unsafe(no_mangle)]
pub extern "C" fn bavzhrono_resume(
    table: &[u8],
    answers: &[u8],
    state: &mut [u8],
    emissions: &mut [u8],
    answer: &mut [u64],
) -> u32
    ensures { ResumingC table.now answers.now state.old emissions.old answer.old state.new emissions.new answer.new result }
{
    if answer.len() < FIGURES {
        return short_answer(table);
    }
    let reaction = instant::resume(table, answers, state, emissions);
    tell(reaction, answer)
}

// A refused table is a text as any other, so that only check 3 refuses this call.
#[unsafe(no_mangle)]
pub extern "C" fn bavzhrono_render(table: &[u8], text: &mut [u8], answer: &mut [u64]) -> u32
    ensures { RenderingC table.now text.old answer.old text.new answer.new result }
{
    if answer.len() < FIGURES {
        return returned(NO_ROOM);
    }
    let rendered = listing::render(table, text);
    tell(rendered.ok_or(NO_ROOM), answer)
}

// A lent table that is too short is refused ahead of all else, and so is an answer.
#[unsafe(no_mangle)]
pub extern "C" fn bavzhrono_read(text: &[u8], table: &mut [u8], answer: &mut [u64]) -> u32
    ensures { ReadingC text.now table.old answer.old table.new answer.new result }
{
    if answer.len() < FIGURES {
        return returned(NO_ROOM);
    }
    let reading = text::read(text, table).map_err(|fault| fault.refusal);
    tell(reading, answer)
}

// Why a text is refused, and where: with a table of its own, which is not handed out.
#[unsafe(no_mangle)]
pub extern "C" fn bavzhrono_read_place(text: &[u8], answer: &mut [u64]) -> u32
    ensures { PlacingC text.now answer.old answer.new result }
{
    if answer.len() < FIGURES {
        return returned(NO_ROOM);
    }
    let mut table = [0u8; 2 * esterel::MAX_NODES];
    let fault = text::read(text, &mut table).err();
    tell(Ok(fault), answer)
}

// Where the table is refused by check 11, the tick: the answers with which the loop's body begins and ends at once.
#[unsafe(no_mangle)]
pub extern "C" fn bavzhrono_tick(table: &[u8], answers: &mut [u8], answer: &mut [u64]) -> u32
    ensures { TickingC table.now answers.old answer.old answers.new answer.new result }
{
    if answer.len() < FIGURES {
        return short_answer(table);
    }
    let tick = witness::find_tick(table, answers);
    tell(tick, answer)
}

// The table of a program's highest whole edition, from the blocks of a file. A lent table that is too short is refused ahead
// of all else, and so is an answer.
#[unsafe(no_mangle)]
pub extern "C" fn bavzhrono_fetch(
    file: &[u8],
    program: u16,
    table: &mut [u8],
    answer: &mut [u64],
) -> u32
    ensures { FetchingC file.now program table.old answer.old table.new answer.new result }
{
    if answer.len() < FIGURES {
        return returned(NO_ROOM);
    }
    let fetched = blocks::fetch(file, program, table);
    tell(fetched, answer)
}

// Where the used content of a part is in the file: C has no part of a buffer that could be handed back.
#[unsafe(no_mangle)]
pub extern "C" fn bavzhrono_part(
    file: &[u8],
    program: u16,
    edition: u16,
    part: u8,
    answer: &mut [u64],
) -> u32
    ensures { LocatingC file.now program edition part answer.old answer.new result }
{
    if answer.len() < FIGURES {
        return returned(NO_ROOM);
    }
    let span = blocks::locate(file, program, edition, part);
    tell(Ok(span), answer)
}

// The start sets where some signals are known for certain.
#[unsafe(no_mangle)]
pub extern "C" fn bavzhrono_narrow(
    table: &[u8],
    ties: &[u8],
    sets: &mut [u64],
    answer: &mut [u64],
) -> u32
    ensures { NarrowingC table.now ties.now sets.old answer.old sets.new answer.new result }
{
    if answer.len() < FIGURES {
        return short_answer(table);
    }
    let narrowed = tied::narrow(table, ties, sets);
    tell(narrowed, answer)
}

// The greatest number of entries that any answers can give when the program is started.
#[unsafe(no_mangle)]
pub extern "C" fn bavzhrono_first_tick(table: &[u8], answer: &mut [u64]) -> u32
    ensures { PlanningC table.now answer.old answer.new result }
{
    if answer.len() < FIGURES {
        return short_answer(table);
    }
    let planned = planning::most_entries(table);
    tell(planned, answer)
}

// The same, with answers that reach it.
#[unsafe(no_mangle)]
pub extern "C" fn bavzhrono_first_tick_answers(
    table: &[u8],
    answers: &mut [u8],
    answer: &mut [u64],
) -> u32
    ensures { HandingC table.now answers.old answer.old answers.new answer.new result }
{
    if answer.len() < FIGURES {
        return short_answer(table);
    }
    let longest = planning::find_longest(table, answers);
    tell(longest, answer)
}

// Whether a code is in the start set of a node, and the number of nodes looked at.
#[unsafe(no_mangle)]
pub extern "C" fn bavzhrono_ask(table: &[u8], node: u64, code: u64, answer: &mut [u64]) -> u32
    ensures { AskingC table.now node code answer.old answer.new result }
{
    if answer.len() < FIGURES {
        return short_answer(table);
    }
    let asked = question::ask(table, node as usize, code as usize);
    tell(asked, answer)
}

// The start set of a node by trial, and the number of presents in it.
#[unsafe(no_mangle)]
pub extern "C" fn bavzhrono_trial(table: &[u8], node: u64, answer: &mut [u64]) -> u32
    ensures { TryingC table.now node answer.old answer.new result }
{
    if answer.len() < FIGURES {
        return short_answer(table);
    }
    let tried = trial::trial(table, node as usize);
    tell(tried, answer)
}
