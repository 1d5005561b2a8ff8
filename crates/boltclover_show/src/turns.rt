// A tape of any length, read in turns of 65,536 bytes; its records are served one after another.
use boltclover_shared::Input;
use record::Request;
use text::{BadRecord, RecordFault};

// The bytes of a turn.
const ROOM: usize = 65536;

// No request's record fills more bytes.
const MOST: usize = 20;

// Why the rest of a tape is not served.
#[derive(Clone, Copy)]
pub enum Stop {
    BadRecord(BadRecord),
    // What a request answers could not be written, which was said.
    NotWritten,
}

// The byte of a tape that stands so far behind another. No tape is so long that the sum would wrap.
fn place(start: u64, used: usize) -> u64 {
    start.wrapping_add(used as u64)
}

// Serves the records in the bytes of a turn, and returns how many bytes they fill. While the tape goes on, a record that could stand
// beyond its end is left for the next turn.
// Kept: whether the tape goes on is a yes or no; and each record has a length of its own, so there is nothing to count its loop by.
fn serve_turn<F: FnMut(&[u8], Request) -> bool>(
    bytes: &[u8],
    goes_on: bool,
    start: u64,
    serve: &mut F,
) -> Result<usize, Stop>
    requires { (state : F) (bytes request : _) → F.pre state bytes request }
{
    let mut rest = bytes;
    while !rest.is_empty() && !(goes_on && rest.len() < MOST) {
        let Ok((request, size)) = primal::read_record(rest) else {
            return Err(Stop::BadRecord(BadRecord {
                at: place(start, bytes.len() - rest.len()),
                fault: RecordFault::of(rest),
            }));
        };
        if !serve(&rest[..size], request) {
            return Err(Stop::NotWritten);
        }
        rest = &rest[size..];
    }
    Ok(bytes.len() - rest.len())
}

// Serves all records of the tape by a call, which tells whether to go on. A proved loop has to end, and nothing says that a tape does:
// no tape uses up so many turns.
pub fn serve_tape<F: FnMut(&[u8], Request) -> bool>(
    rt: &HostRuntime,
    mut serve: F,
) -> Result<(), Stop>
    requires { (state : F) (bytes request : _) → F.pre state bytes request }
{
    let mut tape = Input::<ROOM>::new();
    let mut start = 0;
    for _ in 0..u64::MAX {
        tape.fill(rt);
        let goes_on = tape.is_full();
        let used = serve_turn(tape.as_bytes(), goes_on, start, &mut serve)?;
        if !goes_on {
            return Ok(());
        }
        start = place(start, used);
        tape.pass(used);
    }
    Ok(())
}
