// What each call promises, and what it answers on a table that is known to be sound, in specs/; the room that it has; and requests
// and answers in plain numbers.
#![tactic(auto)]

pub mod fault;
pub mod numbered;
pub mod partner;
pub mod run;

ghost use Rattle.std.specs.Prelude.{◌≡◌, ◌-◌, length};

pub use partner::Partner;
pub use run::{NotRun, Run};

// What a call asks of the lent bytes: for commands (9), for each present defect of a listing (10), and, in a run, for commands and an end
// record.
pub const COMMAND_ROOM: usize = 4096;

pub const ENTRY_ROOM: usize = 16;

pub const RUN_ROOM: usize = COMMAND_ROOM + 8;

// The bytes from a position on.
pub fn room(out: &[u8], pos: usize) -> usize
    ensures { result ≡ length out.now - pos }
{
    out.len().saturating_sub(pos)
}
