// No code: which bytes a reached decoder has read since its search or frame began, stated in specs/ and proved in proofs/.

#![tactic(auto)]
