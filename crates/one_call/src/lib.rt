// No code: what every reader of whole messages must do, stated in specs/ and proved in proofs/.

#![tactic(auto)]
