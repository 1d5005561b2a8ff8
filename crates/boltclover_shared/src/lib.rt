// What the programs share: their arguments, what they read and write, what they say on standard error, and how they end. The script
// `boltclover` starts them.
#![tactic(auto)]

pub mod arguments;
pub mod input;
pub mod output;

ghost use Rattle.std.specs.Prelude.{◌≡◌};
ghost use Rattle.std.specs.Process.{exit_status};
ghost use Rattle.boltclover_shared.specs.Status.{status_of};

pub use arguments::{FIRST_ASKED, asked, asked_end, begin};
pub use input::{Input, read_input};
pub use output::{complain, end_bad_begin, write_out};
use std::process::ExitCode;

// How a program ends.
#[derive(Clone, Copy, PartialEq, Eq)]
pub enum Ending {
    // 0.
    Well,
    // 1: the tape or the text is bad or was cut, or output could not be written, which was said on standard error; or a defect that was
    // asked about is none, or a table is damaged, which was printed.
    Badly,
    // 2: a bad argument, or a file that is no table, which was said on standard error.
    Misused,
}

// The exit status, which `main` returns.
impl From<Ending> for ExitCode {
    ghost from_gives = { λ ending code. exit_status code ≡ status_of ending };

    fn from(ending: Ending) -> ExitCode {
        match ending {
            Ending::Well => ExitCode::from(0),
            Ending::Badly => ExitCode::from(1),
            Ending::Misused => ExitCode::from(2),
        }
    }
}
