// Lists many tables: standard input holds them one after the other, each as its length in two bytes, lowest first, and its
// bytes. The expected output comes from another program (compare/).
#![tactic(auto)]

use listing::WholeListing;

fn main(rt: HostRuntime) {
    program::run_cases::<{ listing::MAX_TEXT }, WholeListing>(&rt);
}
