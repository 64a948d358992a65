// Plans the first ticks of many tables: standard input holds them one after the other, each as its length in two bytes, lowest first,
// and its bytes. For each its line is written. The expected output comes from another program (compare/).
#![tactic(auto)]

use planline::PlanLine;

fn main(rt: HostRuntime) {
    program::run_cases::<{ planline::MAX_LINE }, PlanLine>(&rt);
}
