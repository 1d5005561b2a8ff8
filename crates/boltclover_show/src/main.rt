// The program for people: runs the tape on standard input, of any length, on a fresh table of begin 128, or of the first argument,
// and prints each request and its answers in words, then the listing; or, where arguments name defects, whom each is paired with after
// the tape, and nothing else. A tape that goes bad is named on standard error, and in what is printed of it ends with refusal 12.
#![tactic(auto)]

mod asking;
mod conflict;
mod expansion;
mod explaining;
mod named;
mod serving;
mod telling;
mod turns;
mod virtual_conflict;

use boltclover_shared::Ending;
use std::process::ExitCode;
use table::Table;
use text::BadRecord;
use turns::Stop;

fn complain(rt: &HostRuntime, bad: BadRecord) {
    boltclover_shared::complain(rt, format_args!("bad record {bad}\n"));
}

fn show(rt: &HostRuntime, t: &mut Table) -> Ending {
    let served = turns::serve_tape(rt, |record, request| telling::tell(rt, t, record, request));
    if let Err(Stop::BadRecord(bad)) = served {
        telling::tell_bad_record(rt, bad);
        complain(rt, bad);
    }
    let listed = telling::tell_listing(rt, t);
    if listed && served.is_ok() {
        return Ending::Well;
    }
    Ending::Badly
}

fn ask(rt: &HostRuntime, t: &mut Table) -> Ending {
    let served = turns::serve_tape(rt, |_record, request| {
        serving::serve_silently(t, request);
        true
    });
    if let Err(Stop::BadRecord(bad)) = served {
        complain(rt, bad);
    }
    let answered = asking::ask_all(rt, t);
    if answered && served.is_ok() {
        return Ending::Well;
    }
    Ending::Badly
}

fn show_or_ask(rt: &HostRuntime, t: &mut Table) -> Ending {
    if boltclover_shared::FIRST_ASKED < boltclover_shared::asked_end(rt) {
        return ask(rt, t);
    }
    show(rt, t)
}

fn run(rt: &HostRuntime) -> Ending {
    let mut table = [0; table::layout::WORDS];
    let Some(begin) = boltclover_shared::begin(rt, tape::turn::begin()) else {
        return boltclover_shared::end_bad_begin(rt);
    };
    match primal::make(&mut table, begin) {
        Ok(_) => show_or_ask(rt, &mut table),
        Err(_) => boltclover_shared::end_bad_begin(rt),
    }
}

fn main(rt: HostRuntime) -> ExitCode {
    ExitCode::from(run(&rt))
}
