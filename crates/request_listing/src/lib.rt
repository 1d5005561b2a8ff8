// The listing (01, "The listing"), on a table that is known to be sound: only slots that were given out can hold a node (S1), so
// only those are looked at.
#![tactic(auto)]

pub mod pairs;
pub mod slots;

ghost use Rattle.std.specs.Prelude.{◌≡◌, ◌-◌};
ghost use Rattle.table.specs.Words.{table_of};
ghost use Rattle.record.specs.declared.request.Request.TheVariants as Q;
ghost use Rattle.record.specs.Writing.{out_of, write_all};
ghost use Rattle.rules.specs.Listing.{slots_listed};
ghost use Rattle.rules.specs.Refusals.{defects_below};
ghost use Rattle.outcome.specs.Handled.{Handled};
ghost use Rattle.request_listing.specs.Given.{given_listed};
ghost use Rattle.request_listing.specs.Listed.{Listed};

use record_fields::Output;
use refusal::{Answer, Refusal};
use slot::Node;
use sound_table::SoundView;
use table::{Table, counts, field};

// The slots from one up to another (not with it), ascending.
#[tactic(auto, using(crate::proofs::ListingSteps::slots))]
fn list_slots(t: &Table, out: &mut Output, from: u16, to: u16)
    ensures { Listed (slots_listed (to - from) from (table_of t.now)) out.old out.new }
{
    for i in from..to {
        slots::list_slot(t, out, Node(i));
    }
}

// The defects given out, and the blossoms.
#[tactic(auto, using(crate::proofs::ListingSteps::given))]
fn list_given(t: &Table, out: &mut Output)
    ensures { Listed (given_listed (table_of t.now)) out.old out.new }
{
    list_slots(t, out, 0, counts::count_defects(t));
    list_slots(t, out, counts::begin(t), counts::blossom_end(t));
}

// The present defects below a number, for which a listing asks room.
#[tactic(auto, using(crate::proofs::Defects::defects))]
fn defects_below(t: &Table, to: u16) -> usize
    ensures { result ≡ defects_below to (table_of t.now) }
{
    let mut found: usize = 0;
    for i in 0..to {
        if field::is_present_defect(t, Node(i)) {
            found += 1;
        }
    }
    found
}

// From a position of lent bytes on. Gives the position after what was written.
fn list_at(t: &Table, bytes: &mut [u8], pos: usize) -> usize
    ensures { out_of bytes.new result ≡ write_all (out_of bytes.old pos) (given_listed (table_of t.now)) }
{
    let mut out = Output { bytes, pos };
    list_given(t, &mut out);
    out.pos
}

// Refused without room for the listing; from a position of the lent bytes on.
// Kept: lent bytes with a position, as `Handled` speaks of them.
pub fn list(t: SoundView, out: &mut [u8], pos: usize) -> Answer
    ensures { Handled Q.List pos t.entry.words.now out.old result t.entry.words.now out.new }
{
    let defects = counts::count_defects(t.words);
    let needed = outcome::ENTRY_ROOM * defects_below(t.words, defects);
    if outcome::room(out, pos) < needed {
        return Err(Refusal::NoListingRoom.into());
    }
    Ok(list_at(t.words, out, pos))
}
