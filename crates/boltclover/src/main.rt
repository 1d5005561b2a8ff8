// The program of the rules: runs the tape on standard input, at most 65,536 bytes, on a fresh table of begin 128, or of the first
// argument, and writes the answers to standard output. A tape that goes bad ends with an end record 12. A tape that is bad, or
// longer, is named on standard error too. What is done with a tape stands in `turns`; here is its input and output.
#![tactic(auto)]

mod turns;

use boltclover_shared::{Ending, Input};
use std::ops::ControlFlow;
use std::process::ExitCode;
use table::Table;
use tape::turn;
use tape::turn::{Turn, TurnEnd};
use text::{BadRecord, RecordFault};

// The bytes of a tape that are read, and the room of a turn.
const ROOM: usize = 65536;

fn end_bad_tape(rt: &HostRuntime, tape: &[u8], unread: usize) -> Ending {
    if let Some(at) = tape.len().checked_sub(unread) {
        let bad = BadRecord {
            at: at as u64,
            fault: RecordFault::of(turn::rest(tape, unread)),
        };
        boltclover_shared::complain(rt, format_args!("bad record {bad}\n"));
    }
    Ending::Badly
}

// What follows a turn: another, with so many bytes left unread, or the end.
fn what_follows(rt: &HostRuntime, turn: Turn, tape: &[u8]) -> ControlFlow<Ending, usize> {
    match turn.end {
        TurnEnd::TapeRead => ControlFlow::Break(Ending::Well),
        TurnEnd::GoesOn => ControlFlow::Continue(turn.unread),
        TurnEnd::BadTape => ControlFlow::Break(end_bad_tape(rt, tape, turn.unread)),
        TurnEnd::NotSound => ControlFlow::Break(Ending::Badly),
    }
}

// One turn, with fresh room.
fn answer_once(
    rt: &HostRuntime,
    t: &mut Table,
    tape: &[u8],
    unread: usize,
) -> ControlFlow<Ending, usize> {
    let mut out = [0u8; ROOM];
    let taken = turns::take_turn(t, turn::rest(tape, unread), &mut out);
    let next = what_follows(rt, taken, tape);
    match out.get(..taken.written) {
        Some(answers) if boltclover_shared::write_out(rt, answers) => next,
        _ => ControlFlow::Break(Ending::Badly),
    }
}

// Each turn that goes on handles at least one record of four bytes, so no tape uses up the turns.
fn answer(rt: &HostRuntime, t: &mut Table, tape: &[u8]) -> Ending {
    let mut unread = tape.len();
    for _ in 0..turn::most_bytes() {
        match answer_once(rt, t, tape, unread) {
            ControlFlow::Continue(left) => unread = left,
            ControlFlow::Break(ending) => return ending,
        }
    }
    Ending::Badly
}

// Something is left to read.
fn is_longer(rt: &HostRuntime) -> bool {
    let mut one = [0u8; 1];
    0 < boltclover_shared::read_input(rt, &mut one)
}

fn answer_tape(rt: &HostRuntime, t: &mut Table, tape: &[u8]) -> Ending {
    let ending = answer(rt, t, tape);
    if tape.len() < turn::most_bytes() || !is_longer(rt) {
        return ending;
    }
    boltclover_shared::complain(
        rt,
        "longer than 65536 bytes, and what comes after them was not read\n",
    );
    Ending::Badly
}

fn serve(rt: &HostRuntime) -> Ending {
    let mut tape = Input::<ROOM>::new();
    tape.fill(rt);
    let mut table = [0u16; table::layout::WORDS];
    let begin = boltclover_shared::begin(rt, turn::begin());
    match begin.map(|begin| primal::make(&mut table, begin)) {
        Some(Ok(_)) => answer_tape(rt, &mut table, tape.as_bytes()),
        Some(Err(_)) | None => boltclover_shared::end_bad_begin(rt),
    }
}

fn main(rt: HostRuntime) -> ExitCode {
    ExitCode::from(serve(&rt))
}
