// No code: what is claimed of the other crates stands in specs/, and why it holds in proofs/.

#![tactic(auto)]
