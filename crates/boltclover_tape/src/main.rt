// The program that makes a tape: reads text as boltclover_show prints it from standard input, of any length, and writes the tape of
// its requests to standard output. Every line that is no request is named on standard error, and then the tape is not to be used.
#![tactic(auto)]

mod turns;

use boltclover_shared::Ending;
use std::process::ExitCode;

fn make_tape(rt: &HostRuntime) -> Result<Ending, Ending> {
    let bad = turns::read_all(rt)?.bad;
    if bad == 0 {
        return Ok(Ending::Well);
    }
    boltclover_shared::complain(
        rt,
        format_args!("{bad} of its lines cannot be read, so no tape is written\n"),
    );
    Ok(Ending::Badly)
}

fn main(rt: HostRuntime) -> ExitCode {
    ExitCode::from(make_tape(&rt).unwrap_or_else(|ending| ending))
}
