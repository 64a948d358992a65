// The theory of the dialect's forms is in specs/ and proofs/.
#![tactic(auto)]
