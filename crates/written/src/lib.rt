// That reading gives back what the writer wrote, and what its calls leave: statements and laws alone.

#![tactic(auto)]
