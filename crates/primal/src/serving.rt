// One record of a run, on a table that is known to be sound: what the request answers, and then its end (01, "Records"). Each request
// leaves a sound table sound.
// Kept: lent bytes with a position, since `Handled` and `Serves` speak of them, and with them the theorems on a run.
ghost use Rattle.std.specs.Prelude.{◌≡◌};
ghost use Rattle.record.specs.Records.{answer_bytes};
ghost use Rattle.record.specs.Writing.{out_of, written};
ghost use Rattle.rules.specs.Calls.{end_record};
ghost use Rattle.sound_table.specs.Checks.{SameWords};
ghost use Rattle.outcome.specs.Handled.{Handled};
ghost use Rattle.primal.specs.Serving.{pos_after, verdict_told, Serves};

use record::Request;
use refusal::{Answer, Side};
use sound_table::SoundTable;

// The end record: 0, or the refusal's number and its side.
fn end(out: &mut [u8], pos: usize, answer: Answer) -> usize
    ensures { out_of out.new result ≡ written (out_of out.old (pos_after pos answer)) (answer_bytes (end_record (verdict_told answer))) }
{
    match answer {
        Ok(after) => record_answers::end(out, after, 0, Side::Neither),
        Err(refused) => record_answers::end(out, pos, u16::from(refused.refusal), refused.side),
    }
}

fn answer_of(t: &mut SoundTable, out: &mut [u8], pos: usize, request: Request) -> Answer
    ensures { (Handled request pos t.old.words.now out.old result t.new.words.now out.new) × SameWords t.old t.new }
{
    match request {
        Request::Conflict(c) => requests::conflicts::conflict(t.words, out, pos, c),
        Request::VirtualConflict(c) => requests::virtual_conflicts::virtual_conflict(
            t.words, out, pos, c,
        ),
        Request::Expansion(e) => request_expansion::expand(t.words, out, pos, e),
        Request::Reset => {
            table_making::resetting::reset(t);
            Ok(pos)
        }
        Request::List => request_listing::list(t.view(), out, pos),
    }
}

pub fn serve(t: &mut SoundTable, out: &mut [u8], pos: usize, request: Request) -> usize
    ensures { Serves request pos t.old out.old result t.new out.new }
{
    let answer = answer_of(t, out, pos, request);
    end(out, pos, answer)
}
