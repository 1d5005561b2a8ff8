// The records of the rules (docs/RULES-IN-WORDS.md): their kinds, and the requests and answers that they carry.
#![tactic(auto)]

pub mod answer;
pub mod kind;
pub mod layout;
pub mod request;

pub use answer::{Pair, Record, Speed, VirtualPair};
pub use kind::{Kind, UnknownKind};
pub use request::{Conflict, Expansion, Reading, Request, VirtualConflict};
