// No code: specs/ states what a receiver can check with a remainder (02, E7), proofs/ shows it.
#![tactic(auto)]
