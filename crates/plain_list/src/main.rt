// plain_list: writes what `list` does, the listing of the table on standard input or the line of its refusal. It gives `run` the text
// alone, so it has no clause of its own. What is wanted of it is examples/lock.listing.
#![tactic(auto)]

use listing::WholeListing;
use std::process::ExitCode;

// One byte more than a table may have: no more is read.
const BUFFER: usize = 2 * esterel::MAX_NODES + 1;

fn main(rt: HostRuntime) -> ExitCode {
    program::run::<BUFFER, { listing::MAX_TEXT }, WholeListing>(
        &rt,
        "plain_list: standard input",
        "plain_list: standard output",
    )
}
