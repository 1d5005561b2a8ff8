// A turn of the program: the numbers that 01 gives it, how it ends, by the run's stop, the end record behind a bad tape, and the tape that
// the next turn takes.
ghost use Rattle.std.specs.Prelude.{◌≡◌, ◌-◌, length, drop};
ghost use Rattle.record.specs.Writing.{out_of, write_all};
ghost use Rattle.tape.specs.Program.{usual_begin, most_bytes, allowance, end_of, last_records};

use refusal::{Refusal, Side};
use rules::Stop;

// 01: "The program has begin 128, reads at most 65,536 bytes".
const BEGIN: u16 = 128;

const MOST_BYTES: usize = 65536;

// A record has four bytes or more, so no tape that is read has more records.
const ALLOWANCE: u32 = MOST_BYTES as u32;

pub fn begin() -> u16
    ensures { result ≡ usual_begin }
{
    BEGIN
}

pub fn most_bytes() -> usize
    ensures { result ≡ most_bytes }
{
    MOST_BYTES
}

pub fn allowance() -> u32
    ensures { result ≡ allowance }
{
    ALLOWANCE
}

// How it ends.
#[derive(Clone, Copy)]
pub enum TurnEnd {
    // The tape is read to its end.
    TapeRead,
    // The room or the allowance is used up: another turn goes on with the rest.
    GoesOn,
    // A record is bad, and the end record 12 is written.
    BadTape,
    // The table is not sound, and nothing was done.
    NotSound,
}

// What a turn tells: its end, the records handled, the bytes written, and how many bytes of the tape are left unread.
#[derive(Clone, Copy)]
pub struct Turn {
    pub end: TurnEnd,
    pub handled: u32,
    pub written: usize,
    pub unread: usize,
}

impl From<Stop> for TurnEnd {
    ghost from_gives = { λ stop end. end ≡ end_of stop };

    fn from(stop: Stop) -> TurnEnd {
        match stop {
            Stop::TapeEmpty => TurnEnd::TapeRead,
            Stop::AllowanceUsed | Stop::OutputFull => TurnEnd::GoesOn,
            Stop::BadRecord => TurnEnd::BadTape,
        }
    }
}

// 01: "ends a bad tape by an end record 12". The position after it.
// Kept: lent bytes with a position, since what a turn takes and leaves (TakesTurn) is bytes and how many were written.
#[tactic(auto, unfolding(record::specs::Writing::write_all))]
pub fn close(out: &mut [u8], pos: usize, end: TurnEnd) -> usize
    ensures { out_of out.new result ≡ write_all (out_of out.old pos) (last_records end) }
{
    match end {
        TurnEnd::TapeRead => pos,
        TurnEnd::GoesOn => pos,
        TurnEnd::BadTape => record_answers::end(
            out,
            pos,
            u16::from(Refusal::BadRecord),
            Side::Neither,
        ),
        TurnEnd::NotSound => pos,
    }
}

// The tape that the next turn takes: the last so many bytes.
pub fn rest<'a>(tape: &'a [u8], unread: usize) -> &'a [u8]
    ensures { result.now ≡ drop (length tape.now - unread) tape.now }
{
    if tape.len() < unread {
        return tape;
    }
    let from = tape.len() - unread;
    &tape[from..]
}
