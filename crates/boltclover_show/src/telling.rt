// What is printed: a record with its answers, the fault of a bad one, the listing. Each function returns whether all of it could be
// written.
use crate::explaining;
use crate::serving::{ROOM, serve};
use boltclover_shared::write_out;
use record::{Record, Request};
use refusal::{Refused, Side};
use std::fmt::Write;
use table::Table;
use text::{BadRecord, End, Reason, Records};
use text_decimals::Page;

// Room for the lines of a request and its answers.
pub type Lines = Page<16384>;

// The records in the first bytes of what was written.
fn add_records(lines: &mut Lines, out: &[u8], written: usize) {
    lines.add(Records(out.get(..written).unwrap_or(&[])));
}

// An answer record in words.
pub fn add_answer(lines: &mut Lines, answer: Record) {
    let mut out = [0; 32];
    if let Ok(written) = primal::write_answer(&mut out, 0, answer) {
        add_records(lines, &out, written);
    }
}

// A refusal, with its reason where one is known.
pub fn add_refusal(lines: &mut Lines, refused: Refused, reason: Option<Reason>) {
    let number = u16::from(refused.refusal);
    match reason {
        Some(reason) => {
            let side = u16::from(refused.side);
            let _ = writeln!(lines, "  {}: {reason}", End { number, side });
        }
        None => add_answer(lines, Record::End(number, refused.side)),
    }
}

// A refused request answers nothing but its end, and the table is as it was: so it tells why.
fn add_answers(lines: &mut Lines, t: &mut Table, request: Request) {
    let mut out = [0; ROOM];
    match serve(t, &mut out, request) {
        Ok(written) => {
            add_records(lines, &out, written);
            add_answer(lines, Record::End(0, Side::Neither));
        }
        Err(refused) => {
            let reason = explaining::why(t, request, refused);
            add_refusal(lines, refused, reason);
        }
    }
}

// A request, whose record this is, and what it answers.
pub fn tell(rt: &HostRuntime, t: &mut Table, record: &[u8], request: Request) -> bool {
    let mut lines = Lines::new();
    lines.add(Records(record));
    add_answers(&mut lines, t, request);
    write_out(rt, lines.as_bytes())
}

pub fn tell_bad_record(rt: &HostRuntime, bad: BadRecord) -> bool {
    let mut line = Page::<4096>::new();
    let _ = writeln!(line, "  refused 12 {bad}");
    write_out(rt, line.as_bytes())
}

// The listing after the tape.
pub fn tell_listing(rt: &HostRuntime, t: &Table) -> bool {
    let mut out = [0; ROOM];
    if !write_out(rt, b"listing\n") {
        return false;
    }
    let Ok(written) = primal::list(t, &mut out) else {
        return false;
    };
    let mut lines = Lines::new();
    add_records(&mut lines, &out, written);
    write_out(rt, lines.as_bytes())
}
