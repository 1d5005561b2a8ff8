// The rules (docs/RULES-IN-WORDS.md) as definitions, in specs/, with worked examples in proofs/. Of code there are only the names of the
// soundness rules, and of a run's stops.
#![tactic(auto)]

pub mod fault;
pub mod stop;

pub use stop::Stop;
