// Stored tapes, whose answers are held to the original's, byte by byte. A case gives begin, three digits and a blank, and then the
// name of the file in which the answers stand; the tape's name lacks the ending. A file that cannot be opened counts as empty.
ghost use Rattle.std.specs.Prelude.{◌≤◌, length};

use crate::ROOM;
use crate::telling::told;
use boltclover_shared::input::read_from;
use std::rt::Files;
use std::{fs, io};

pub fn begin(case: &[u8]) -> u16 {
    if case.len() < 3 {
        return 0;
    }
    (case[0] % 16) as u16 * 100 + (case[1] % 16) as u16 * 10 + (case[2] % 16) as u16
}

fn read(rt: &impl Files, name: &[u8], bytes: &mut [u8]) -> usize
    ensures { result ≤ length bytes.new }
{
    if let Ok(path) = str::from_utf8(name) {
        if let Ok(mut file) = fs::open(rt, path) {
            return read_from(&mut file, bytes);
        }
    }
    0
}

// Reads the tape, and tells how many bytes it has.
pub fn tape(rt: &impl Files, case: &[u8], tape: &mut [u8]) -> usize
    ensures { result ≤ length tape.new }
{
    if case.len() < 12 {
        return 0;
    }
    let end = case.len() - 8;
    read(rt, &case[4..end], tape)
}

// Whether the answers stand at the start of the room, and zeros behind them.
fn has_only(out: &[u8], answers: &[u8]) -> bool {
    match out.strip_prefix(answers) {
        Some(rest) => rest.iter().all(|byte| *byte == 0),
        None => false,
    }
}

// The original's answers have zeros after them up to the room that a run has here. Where the same stands in the room afterwards the
// tape is used up too, since every request has an answer.
pub fn report(rt: &(impl Print + Files), case: &[u8], handled: u32, out: &[u8]) -> io::Result<()> {
    if case.len() < 4 {
        return Ok(());
    }
    let mut answers = [0u8; ROOM];
    let size = read(rt, &case[4..], &mut answers);
    told(
        rt,
        handled as usize,
        " requests, ",
        size,
        has_only(out, &answers[..size]),
        " bytes: as the original",
        " bytes: NOT as the original",
    )
}
