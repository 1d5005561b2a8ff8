// Definitions and laws on lists that the contracts of several crates cite. There is no code here.
#![tactic(auto)]
