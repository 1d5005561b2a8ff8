// Tests of single slots: link and pointers, and what each state asks (S1 to S4, S8, and S7 of inner nodes).
#![tactic(auto)]

pub mod links;
pub mod states;
pub mod stretches;
pub mod value;
