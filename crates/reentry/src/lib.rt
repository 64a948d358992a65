// Theory: no unmarked reentry of the calls (specs/Theorems.antt). The theory of the rules is in crates/esterel, specs/Reentry.antt.
#![tactic(auto)]
