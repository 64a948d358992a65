// Shows the ticks of many tables: standard input holds them one after the other, each as its length in two bytes, lowest first,
// and its bytes. For each the line of its tick is written. The expected output comes from another program (compare/).
#![tactic(auto)]

use tickline::TickLine;

fn main(rt: HostRuntime) {
    program::run_cases::<{ tickline::MAX_LINE }, TickLine>(&rt);
}
