// Conflict and virtual conflict, each on a table that is known to be sound. Expansion stands with the blossoms, the listing in a
// crate of its own.
#![tactic(auto)]

pub mod conflicts;
pub mod meeting;
pub mod resolving;
pub mod virtual_conflicts;
