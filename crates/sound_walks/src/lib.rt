// The walks of S5, S6 and S7. Their work is linear: along child lists a walk marks what it passes and stops at the first node that is
// not its owner's, and around rings it gives numbers, which S8 asks for too; afterwards every node with a parent must be marked or have
// a number. Depths are remembered, so no node is climbed twice.
#![tactic(auto)]

pub mod children;
pub mod depths;
pub mod marking;
pub mod numbers;
pub mod ways;
