// Requests and answers in words, a line each, and back. An answer's line is indented by two spaces.
#![tactic(auto)]

mod asking;
mod bad_records;
mod faults;
mod grammar;
pub mod line;
mod numbers;
mod refusals;
pub mod shown;
mod words;

pub use asking::{Nobody, Question};
pub use bad_records::{BadRecord, RecordFault};
pub use faults::{Expected, Fault};
pub use line::{RECORD_ROOM, read_line};
pub use numbers::narrow_at;
pub use refusals::Reason;
pub use shown::{End, Records};
