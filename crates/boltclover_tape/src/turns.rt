// A text of any length, read in turns of 65,536 bytes. A request's line is longer than its record, so the tape of a turn has room in
// as many bytes.
ghost use Rattle.std.specs.Prelude.{◌≤◌, length};

use boltclover_shared::{Ending, Input};
use text::RECORD_ROOM;
use text_decimals::Page;

// The bytes of a turn.
const ROOM: usize = 65536;

// The lines that were read so far, and how many of them are bad. No text has so many that a sum would go past the largest number.
#[derive(Clone, Copy)]
pub struct Count {
    lines: u64,
    pub bad: u64,
}

impl Count {
    // One line more, which has this number.
    fn next_line(&mut self) -> u64 {
        self.lines = self.lines.saturating_add(1);
        self.lines
    }

    fn add_bad(&mut self) {
        self.bad = self.bad.saturating_add(1);
    }
}

// Where the lines of a turn end. While the text goes on, what follows the last line feed is left for the next turn.
// Kept: whether the turn is the last is a yes or no, and both answers go with the same text.
fn lines_end(text: &[u8], is_last: bool) -> usize
    ensures { result ≤ length text.now }
{
    if is_last {
        return text.len();
    }
    match text.iter().rposition(|byte| *byte == b'\n') {
        Some(at) => at + 1,
        None => 0,
    }
}

// Reads a line: its record goes to the tape, and what is wrong with a bad one is told.
fn read_line(rt: &HostRuntime, line: &[u8], tape: &mut Page<ROOM>, count: &mut Count) {
    let mut room = [0u8; RECORD_ROOM];
    let number = count.next_line();
    match text::read_line(line, &mut room) {
        Ok(Some(record)) => tape.push(record),
        Ok(None) => {}
        Err(fault) => {
            count.add_bad();
            boltclover_shared::complain(rt, format_args!("line {number}, {fault}\n"));
        }
    }
}

// Reads the lines of a turn, makes their tape, and returns how many bytes of the text they fill.
// Kept: a yes or no, handed on to lines_end.
fn read_turn(
    rt: &HostRuntime,
    text: &[u8],
    is_last: bool,
    tape: &mut Page<ROOM>,
    count: &mut Count,
) -> usize {
    let end = lines_end(text, is_last);
    for line in text[..end].split_inclusive(|byte| *byte == b'\n') {
        read_line(rt, line.strip_suffix(b"\n").unwrap_or(line), tape, count);
    }
    end
}

// Passes over the rest of a line that is too long.
fn pass_line(rt: &HostRuntime, text: &mut Input<ROOM>) {
    for _ in 0..u64::MAX {
        text.pass(ROOM);
        text.fill(rt);
        if let Some(end) = text.as_bytes().iter().position(|byte| *byte == b'\n') {
            text.pass(end + 1);
            return;
        }
        if !text.is_full() {
            text.pass(ROOM);
            return;
        }
    }
}

fn pass_long_line(rt: &HostRuntime, text: &mut Input<ROOM>, count: &mut Count) {
    let number = count.next_line();
    count.add_bad();
    boltclover_shared::complain(rt, format_args!("line {number}: longer than 65535 bytes\n"));
    pass_line(rt, text);
}

// Tells how many lines there are; or that the tape could not be written, which was said. A tape with a bad line is written no
// further. A proved loop has to end, and nothing says that a text does: no text uses up so many turns.
pub fn read_all(rt: &HostRuntime) -> Result<Count, Ending> {
    let mut text = Input::<ROOM>::new();
    let mut count = Count { lines: 0, bad: 0 };
    for _ in 0..u64::MAX {
        text.fill(rt);
        let is_last = !text.is_full();
        let mut tape = Page::<ROOM>::new();
        let used = read_turn(rt, text.as_bytes(), is_last, &mut tape, &mut count);
        if count.bad == 0 && !boltclover_shared::write_out(rt, tape.as_bytes()) {
            return Err(Ending::Badly);
        }
        if is_last {
            return Ok(count);
        }
        if used == 0 {
            pass_long_line(rt, &mut text, &mut count);
        } else {
            text.pass(used);
        }
    }
    Ok(count)
}
