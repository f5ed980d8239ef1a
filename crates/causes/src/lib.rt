// No code: when a cause of a loss is true, and what every tool and every watcher that names losses must do, stated in specs/ and proved in proofs/.

#![tactic(auto)]
