// Numbers, links and slots as plain values: port 1 of the rules (docs/RULES-IN-WORDS.md).
#![tactic(auto)]

pub mod link;
pub mod number;
mod shown;
pub mod state;
pub mod value;

pub use link::Link;
pub use number::{Node, Vertex};
pub use state::State;
pub use value::Slot;
