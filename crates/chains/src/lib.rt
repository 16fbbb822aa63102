// The list of calls that a user makes on a book, each with the promise of its public function, and demand 3 of it: no code.
#![tactic(auto)]
