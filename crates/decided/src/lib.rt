// No code: what it is that a description allows one outcome, and that a view loses nothing. Each crate says it of its own functions.
#![tactic(auto)]
