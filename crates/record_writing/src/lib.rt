// Writing a record, whichever it is: a request as a tape holds it, or an answer.
#![tactic(auto)]

pub mod requests;

ghost use Rattle.std.specs.Prelude.{ℕ, ◌≡◌, ◌<◌, List, length};
ghost use Rattle.record.proofs.Written.{answer_some, request_some};
ghost use Rattle.record.specs.Records.{answer_bytes, request_bytes};
ghost use Rattle.record.specs.Writing.{out_of, written, wrote_of, wrote};
ghost use Rattle.record_fields.specs.Outputs.{Wrote};

use record::{Kind, Record, Request};
use record_answers::{closing, commands};
use record_fields::Output;
use refusal::{Answer, Refusal};

// What has a record of its own.
pub trait Recorded: Copy {
    // Its record's bytes.
    ghost bytes: { Self → List ℕ };

    // Writes the record; without room for all of it, nothing.
    fn put(self, out: &mut Output)
        ensures { Wrote (bytes self) out.old out.new };

    // No record is empty.
    ghost some: { (x : Self) → 0 < length (bytes x) };
}

impl Recorded for Record {
    ghost bytes = { answer_bytes };

    ghost some = { answer_some };

    fn put(self, out: &mut Output) {
        match self {
            Record::Speed(node, speed) => commands::speed(out, node, speed),
            Record::Create(blossom) => commands::create(out, blossom),
            Record::Expand(blossom) => commands::expand(out, blossom),
            Record::End(number, side) => closing::end(out, number, side),
            Record::Pair(pair) => closing::pair(out, pair),
            Record::VirtualPair(pair) => closing::virtual_pair(out, pair),
        }
    }
}

impl Recorded for Request {
    ghost bytes = { request_bytes };

    ghost some = { request_some };

    #[tactic(auto, unfolding(record::specs::Records::request_bytes))]
    fn put(self, out: &mut Output) {
        match self {
            Request::Conflict(conflict) => requests::conflict(out, conflict),
            Request::VirtualConflict(conflict) => requests::virtual_conflict(out, conflict),
            Request::Expansion(expansion) => out.put(Kind::Expansion, [expansion.node.0]),
            Request::Reset => out.put(Kind::Reset, []),
            Request::List => out.put(Kind::List, []),
        }
    }
}

// At a position of the lent bytes: the position after it; without room for all of it, nothing is written, and the position stays.
fn put_at<R: Recorded>(bytes: &mut [u8], pos: usize, what: R) -> usize
    ensures { out_of bytes.new result ≡ written (out_of bytes.old pos) (R.bytes what) }
{
    let mut out = Output { bytes, pos };
    what.put(&mut out);
    out.pos
}

// The bytes written, or a refusal with nothing written.
pub fn write<R: Recorded>(bytes: &mut [u8], pos: usize, what: R) -> Answer
    ensures { wrote_of bytes.new result ≡ wrote (out_of bytes.old pos) (R.bytes what) }
{
    let end = put_at(bytes, pos, what);
    if end == pos {
        return Err(Refusal::NoRecordRoom.into());
    }
    Ok(end - pos)
}
