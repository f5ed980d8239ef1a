// No code: what every walk over any content must do, stated in specs/ and proved in proofs/.

#![tactic(auto)]
