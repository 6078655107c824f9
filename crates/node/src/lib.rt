// What the two forms of decision diagram mean: definitions and proofs over the node structs, with no code of its own.
#![tactic(auto)]
