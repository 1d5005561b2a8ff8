// Each answer written to an output: the commands, the end of a request, the entries of a listing. Without room for the whole record
// nothing is written.
#![tactic(auto, unfolding(record::specs::Records::answer_bytes))]

pub mod closing;
pub mod commands;

ghost use Rattle.std.specs.Prelude.{◌≡◌};
ghost use Rattle.record.specs.declared.answer.Record.TheVariants as R;
ghost use Rattle.record.specs.Records.{answer_bytes};
ghost use Rattle.record.specs.Writing.{out_of, written};

use record_fields::Output;
use refusal::Side;

// An end at a position of lent bytes: the position after it; without room for all of it, nothing is written, and the position stays.
// Kept: lent bytes with a position, as a run and a turn have them (Serves, last_records).
pub fn end(out: &mut [u8], pos: usize, number: u16, side: Side) -> usize
    ensures { out_of out.new result ≡ written (out_of out.old pos) (answer_bytes (R.End number side)) }
{
    let mut output = Output { bytes: out, pos };
    closing::end(&mut output, number, side);
    output.pos
}
