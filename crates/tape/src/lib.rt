// A tape's records one after another: what comes next (a stop, or one more request), and how the program ends a tape that goes bad
// (01, "Records", port 9). No table is needed for either.
#![tactic(auto)]

pub mod next;
pub mod turn;
