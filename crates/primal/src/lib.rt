// The public calls of the rules (docs/RULES-IN-WORDS.md), and nothing else. None asks anything of its caller: any table, request, tape, buffer and
// position may be passed.
#![tactic(auto)]

mod serving;

ghost use Rattle.std.specs.Prelude.{◌≡◌};
ghost use Rattle.table.specs.Words.{table_of};
ghost use Rattle.table.specs.Making.{Made};
ghost use Rattle.record.specs.declared.request.Request.TheVariants as Q;
ghost use Rattle.record.specs.Records.{request_bytes, answer_bytes};
ghost use Rattle.record.specs.Reading.{Read};
ghost use Rattle.record.specs.Writing.{out_of, wrote_of, wrote};
ghost use Rattle.rules.specs.Sound.{sound};
ghost use Rattle.rules.specs.Fault.{first_fault};
ghost use Rattle.outcome.specs.Call.{Call, Reset};
ghost use Rattle.outcome.specs.Partner.{partner_of};
ghost use Rattle.outcome.specs.Tape.{Runs};

use outcome::{NotRun, Partner, Run};
use record::{Conflict, Expansion, Reading, Record, Request, VirtualConflict};
use refusal::{Answer, Refusal};
use rules::fault::Fault;
use slot::Node;
use sound_table::{SoundTable, check};
use table::Table;

// Making: a fresh table with this begin in the lent words, or refusal 13.
pub fn make(t: &mut Table, begin: u16) -> Answer
    ensures { Made t.old begin result t.new }
{
    table_making::make(t, begin)
}

// Reset: every slot empty and both counts 0, or refusal 1.
pub fn reset(t: &mut Table) -> Answer
    ensures { Reset t.old result t.new }
{
    check(t)?;
    let mut table = SoundTable { words: t };
    table_making::resetting::reset(&mut table);
    Ok(0)
}

// The soundness check: yes exactly if sound.
pub fn is_sound(t: &Table) -> bool
    ensures { result ≡ sound (table_of t.now) }
{
    sound::is_sound(t)
}

// Why a table is damaged: the first broken rule of S1 to S8, and the smallest slot that breaks it; none exactly if sound.
pub fn fault(t: &Table) -> Option<Fault>
    ensures { result ≡ first_fault (table_of t.now) }
{
    if sound::is_sound(t) {
        return None;
    }
    fault::first_fault(t)
}

// The three requests. Ok gives the bytes of commands written.
pub fn conflict(t: &mut Table, out: &mut [u8], request: Conflict) -> Answer
    ensures { Call (Q.Conflict request) t.old out.old result t.new out.new }
{
    check(t)?;
    requests::conflicts::conflict(t, out, 0, request)
}

pub fn virtual_conflict(t: &mut Table, out: &mut [u8], request: VirtualConflict) -> Answer
    ensures { Call (Q.VirtualConflict request) t.old out.old result t.new out.new }
{
    check(t)?;
    requests::virtual_conflicts::virtual_conflict(t, out, 0, request)
}

pub fn expand(t: &mut Table, out: &mut [u8], request: Expansion) -> Answer
    ensures { Call (Q.Expansion request) t.old out.old result t.new out.new }
{
    check(t)?;
    request_expansion::expand(t, out, 0, request)
}

// The listing. Ok gives the bytes of its entries.
pub fn list(t: &Table, out: &mut [u8]) -> Answer
    ensures { Call Q.List t.now out.old result t.now out.new }
{
    request_listing::list(check(t)?, out, 0)
}

// Whom a defect is paired with, as the listing has it; no list is written.
pub fn partner(t: &Table, defect: Node) -> Result<Option<Partner>, Refusal>
    ensures { result ≡ partner_of (table_of t.now) defect.0 }
{
    partner::partner(check(t)?, defect)
}

// The request that stands first on a tape and the bytes that its record fills, or refusal 12.
pub fn read_record(tape: &[u8]) -> Reading
    ensures { Read tape.now result }
{
    record_reading::read_record(tape)
}

// A record written at a position of the lent bytes, or refusal 2.
// Kept: docs/PROMISES.md tells of both calls by lent bytes and a position.
pub fn write_request(out: &mut [u8], pos: usize, request: Request) -> Answer
    ensures { wrote_of out.new result ≡ wrote (out_of out.old pos) (request_bytes request) }
{
    record_writing::write(out, pos, request)
}

// Kept: as write_request.
pub fn write_answer(out: &mut [u8], pos: usize, answer: Record) -> Answer
    ensures { wrote_of out.new result ≡ wrote (out_of out.old pos) (answer_bytes answer) }
{
    record_writing::write(out, pos, answer)
}

// The run: handles the tape's records, at most so many, and tells why it stopped, how many it handled, the bytes written and the tape's
// unread rest; or refusal 1, before any stop, with the whole tape. The table is checked once: each request leaves a sound table sound.
pub fn run<'a>(
    t: &mut Table,
    tape: &'a [u8],
    out: &mut [u8],
    allowance: u32,
) -> Result<Run<'a>, NotRun<'a>>
    ensures { Runs allowance t.old out.old tape.now result t.new out.new }
{
    check(t).map_err(|refusal| NotRun {
        refusal,
        rest: tape,
    })?;
    let mut table = SoundTable { words: t };
    let mut rest = tape;
    let mut left = allowance;
    let mut handled: u32 = 0;
    let mut written: usize = 0;
    // Kept: what is left of the allowance comes back with each record (`what_next`), so a range would count a second time.
    loop {
        match tape::next::what_next(rest, left, outcome::room(out, written)) {
            Ok(next) => {
                written = serving::serve(&mut table, out, written, next.request);
                rest = &rest[next.size..];
                left = next.left;
                handled += 1;
            }
            Err(stop) => {
                return Ok(Run {
                    stop,
                    handled,
                    written,
                    rest,
                });
            }
        }
    }
}
