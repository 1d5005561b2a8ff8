// Taking a − blossom apart.
#![tactic(auto)]

pub mod attaching;
pub mod opening;

ghost use Rattle.std.specs.Prelude.{◌≡◌};
ghost use Rattle.slot.specs.Slot.{slot_of};
ghost use Rattle.table.specs.Words.{table_of};
ghost use Rattle.record.specs.declared.request.Request.TheVariants as Q;
ghost use Rattle.rules.specs.Act.{world_of, run};
ghost use Rattle.rules.specs.Doing.{Does};
ghost use Rattle.rules.specs.Expansion.{disposed, expand_blossom, expansion};
ghost use Rattle.outcome.specs.Handled.{Handled};

use opening::Opened;
use record::Expansion;
use record_answers::commands;
use record_fields::Output;
use refusal::{Answer, Refusal};
use slot::{Node, Slot};
use table::storing::Pointer;
use table::{Table, climb, field, storing};

impl Opened {
    // P takes the blossom's place in its parent's list, C gets the child, and the slot is emptied.
    #[tactic(auto, unfolding(rules::specs::Expansion::disposed, rules::specs::Act::alter))]
    fn dispose_blossom(self, t: &mut Table, b: Node)
        ensures { table_of t.new ≡ disposed b.0 self.p.0 self.c.0 self.above.0 self.below.0 (table_of t.old) }
    {
        request_blossom::list::alternating_tree_replace_child_with(t, self.above, b, self.p);
        storing::store_pointer(t, self.below, Pointer::Parent, self.c);
        storing::store(t, b, Slot::empty());
    }
}

// s is what stands in the blossom's slot.
#[tactic(auto, using(rules::proofs::Runs::runs), unfolding(rules::specs::Expansion::expand_blossom))]
fn expand_blossom(t: &mut Table, out: &mut Output, b: Node, s: Slot, p: Node, c: Node)
    ensures { Does (expand_blossom b.0 (slot_of s) p.0 c.0) t.old out.old t.new out.new }
{
    let opened = Opened {
        p,
        c,
        above: s.parent,
        below: s.first_child,
        link: s.link,
    };
    commands::expand(out, b);
    opened.open_ring(t, out);
    opened.dispose_blossom(t, b);
}

#[tactic(auto, using(rules::proofs::Runs::runs), unfolding(rules::specs::Expansion::expansion))]
fn resolve_expansion(t: &mut Table, out: &mut Output, b: Node)
    ensures { Does (expansion b.0) t.old out.old t.new out.new }
{
    let s = table::get(t, b);
    let child_link = field::link(t, s.first_child);
    let p = climb::get_second_outer_blossom(t, s.link.touch);
    let c = climb::get_second_outer_blossom(t, child_link.peer_touch);
    expand_blossom(t, out, b, s, p, c);
}

// The same from a position of lent bytes on. Gives the position after what was written.
// Kept: a function that makes an Output and answers a Result does not prove by what its calls promise; one that gives a number does.
fn expand_at(t: &mut Table, bytes: &mut [u8], pos: usize, b: Node) -> usize
    ensures { world_of t.new bytes.new result ≡ run (world_of t.old bytes.old pos) (expansion b.0) }
{
    let mut out = Output { bytes, pos };
    resolve_expansion(t, &mut out, b);
    out.pos
}

// An expansion on a table that is known to be sound: the refusals after the first, in 01's order, and then the rule; from a position
// of the lent bytes on. What is promised holds on any table, but it is 01's answer on a sound one only.
// Kept: lent bytes with a position, as `Handled` speaks of them.
#[tactic(auto, using(outcome::proofs::Outcomes::expansion_judged), unfolding(outcome::proofs::Outcomes::judged))]
pub fn expand(t: &mut Table, out: &mut [u8], pos: usize, e: Expansion) -> Answer
    ensures { Handled (Q.Expansion e) pos t.old out.old result t.new out.new }
{
    if outcome::room(out, pos) < outcome::COMMAND_ROOM {
        return Err(Refusal::NoCommandRoom.into());
    }
    let node = e.node;
    request_judging::judge_expansion(t, e)?;
    Ok(expand_at(t, out, pos, node))
}
