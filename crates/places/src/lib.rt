// No code: where a refusal stands, and that it was the first thing wrong, stated in specs/ and proved in proofs/.

#![tactic(auto)]
