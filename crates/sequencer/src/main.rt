// A small lock sequencer, run for four instants. What each instant answers and leaves is proved from the contracts of
// `start` and `resume`, and tried when the program runs.
//
//   trap
//     suspend 5
//       loop
//         pause; emit 7; present 3 then exit else nothing
//   ||
//     loop
//       pause; emit 9
#![tactic(auto)]

ghost use Rattle.std.specs.Prelude.{◌≡◌, ◌<◌, length, slice_index};

use esterel::Refusal;
use instant::Reaction;

// The answer of an instant that closes.
fn closed(code: usize, taken: usize, entries: usize) -> Result<Reaction, Refusal>
    ensures { result ≡ Ok (record { code = code; taken = taken; entries = entries }) }
{
    Ok(Reaction {
        code,
        taken,
        entries,
    })
}

// The state's bytes are these, and those of signals 7 and 9.
fn expect_left(state: &[u8], held: &[u8], emissions: &[u8], seven: u8, nine: u8)
    requires { (state.now ≡ held.now) × (9 < length emissions.now) × (slice_index emissions.now 7 ≡ seven) × (slice_index emissions.now 9 ≡ nine) }
{
    check::expect(check::same(state, held));
    check::expect(emissions[7] == seven);
    check::expect(emissions[9] == nine);
}

fn main() {
    let table = [
        2u8, 0, 3, 7, 9, 0, 4, 0, 1, 0, 6, 3, 9, 0, 8, 0, 7, 5, 2, 0, 3, 9, 9, 0, 8, 0, 10, 0, 11,
        0,
    ];
    // Pauses 0 and 9, each at its bit.
    let mut both = [0u8; packing::STATE_BYTES];
    both[0] = 1;
    both[1] = 2;
    let mut state = [9u8; packing::STATE_BYTES];
    let mut emissions = [9u8; 256];
    // The first instant reaches both pauses; a suspend asks nothing when it is started.
    let first = instant::start(&table, &[], &mut state, &mut emissions);
    check::expect(first == closed(1, 0, 10));
    expect_left(&state, &both, &emissions, 0, 0);
    // 5 is present: the first branch is suspended and its pause stays, while the second goes on.
    let second = instant::resume(&table, &[1], &mut state, &mut emissions);
    check::expect(second == closed(1, 1, 9));
    expect_left(&state, &both, &emissions, 0, 1);
    // 3 is absent: the body emits 7, ends, and is begun again up to its pause.
    let third = instant::resume(&table, &[0, 0], &mut state, &mut emissions);
    check::expect(third == closed(1, 2, 19));
    expect_left(&state, &both, &emissions, 1, 1);
    // 3 is present: the first branch exits, the second still emits 9, and the trap that catches drops its new pause.
    let fourth = instant::resume(&table, &[0, 1], &mut state, &mut emissions);
    check::expect(fourth == closed(0, 2, 16));
    expect_left(&state, &[0; packing::STATE_BYTES], &emissions, 1, 1);
}
