// Virtual conflict on a table that is known to be sound: the refusals after the first, in 01's order, and then the rule; from a
// position of the lent bytes on. What is promised holds on any table, but it is 01's answer on a sound one only.
ghost use Rattle.std.specs.Prelude.{◌≡◌};
ghost use Rattle.table.specs.Table.{at};
ghost use Rattle.table.specs.Words.{table_of};
ghost use Rattle.table.specs.Place.{place};
ghost use Rattle.record.specs.declared.request.Request.TheVariants as Q;
ghost use Rattle.rules.specs.Act.{world_of, run};
ghost use Rattle.rules.specs.Conflict.{freed, virtual_conflict};
ghost use Rattle.rules.specs.Doing.{Does};
ghost use Rattle.outcome.specs.Handled.{Handled};

use record::VirtualConflict;
use record_fields::Output;
use refusal::{Answer, Refusal};
use request_matching::{growth, pairing};
use slot::Node;
use table::place::place_of;
use table::{Place, Table};

// A tree is augmented; a free node is as it is.
#[tactic(auto, using(crate::proofs::VirtualConflictsSteps::frees))]
fn leave_tree(t: &mut Table, out: &mut Output, n: Node)
    ensures { Does (freed (place (at (table_of t.old) n.0)) n.0) t.old out.old t.new out.new }
{
    if place_of(t, n) == Place::Tree {
        request_matching::augment_whole_tree(t, out, n);
    }
}

#[tactic(auto, using(rules::proofs::Runs::runs), unfolding(rules::specs::Conflict::virtual_conflict))]
fn resolve(t: &mut Table, out: &mut Output, c: VirtualConflict)
    ensures { Does (virtual_conflict c) t.old out.old t.new out.new }
{
    growth::load(t, c.node);
    leave_tree(t, out, c.node);
    pairing::temporary_match_virtual(t, out, c.node, c.touch, c.vertex, c.virtual_vertex);
}

// From a position of lent bytes on. Gives the position after what was written.
// Kept: a function that makes an Output and answers a Result does not prove by what its calls promise; one that gives a number does.
fn resolve_virtual_conflict(
    t: &mut Table,
    bytes: &mut [u8],
    pos: usize,
    c: VirtualConflict,
) -> usize
    ensures { world_of t.new bytes.new result ≡ run (world_of t.old bytes.old pos) (virtual_conflict c) }
{
    let mut out = Output { bytes, pos };
    resolve(t, &mut out, c);
    out.pos
}

// Kept: beside conflict and expand; one function over the two steps would repeat what each step promises, longer than all three.
#[tactic(auto, using(outcome::proofs::Outcomes::virtual_judged), unfolding(outcome::proofs::Outcomes::judged))]
pub fn virtual_conflict(t: &mut Table, out: &mut [u8], pos: usize, c: VirtualConflict) -> Answer
    ensures { Handled (Q.VirtualConflict c) pos t.old out.old result t.new out.new }
{
    if outcome::room(out, pos) < outcome::COMMAND_ROOM {
        return Err(Refusal::NoCommandRoom.into());
    }
    request_judging::judge_virtual_conflict(t, c)?;
    Ok(resolve_virtual_conflict(t, out, pos, c))
}
