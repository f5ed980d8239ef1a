// What the calls of `Reader::parse_next` answer on a whole input: statements and laws alone.

#![tactic(auto)]
