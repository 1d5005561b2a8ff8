// Conflict on a table that is known to be sound: the refusals after the first, in 01's order, and then the rule; from a position
// of the lent bytes on.
ghost use Rattle.std.specs.Prelude.{◌≡◌, true};
ghost use Rattle.table.specs.Words.{table_of};
ghost use Rattle.record.specs.declared.request.Request.TheVariants as Q;
ghost use Rattle.rules.specs.Sound.{sound};
ghost use Rattle.outcome.specs.Handled.{Handled};

use record::Conflict;
use refusal::{Answer, Refusal};
use table::Table;

// Kept: the table is no `SoundTable`, since docs/ARCHITECTURE.md names `requests::conflicts::conflict`: it may ask no more of its callers.
pub fn conflict(t: &mut Table, out: &mut [u8], pos: usize, c: Conflict) -> Answer
    ensures { sound (table_of t.old) ≡ true → Handled (Q.Conflict c) pos t.old out.old result t.new out.new }
{
    if outcome::room(out, pos) < outcome::COMMAND_ROOM {
        return Err(Refusal::NoCommandRoom.into());
    }
    request_judging::judge_conflict(t, c)?;
    Ok(crate::resolving::resolve_conflict(t, out, pos, c))
}
