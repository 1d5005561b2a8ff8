// From the link of an outer node inward to a defect: where a link touches beside the way, the ring node on the way takes its link from
// the ring after the touched one.
ghost use Rattle.std.specs.Prelude.{◌≡◌};
ghost use Rattle.slot.specs.Slot.{link_of};
ghost use Rattle.table.specs.Words.{table_of};
ghost use Rattle.rules.specs.Partner.{link_in_twos};
ghost use Rattle.partner.specs.Following.{turned_off, followed};

use crate::way;
use slot::{Link, Node};
use table::numbers::number_of;
use table::{Table, field};

// The link of x among the ring nodes from n on, which go two by two.
// Kept: a link of none where x is not among them; so has it the definition `link_in_twos`, of which the theorem `ring_budget` speaks.
#[tactic(auto, using(crate::proofs::FollowSteps::rings))]
fn ring_link(t: &Table, x: Node, n: Node) -> Link
    ensures { link_of result ≡ link_in_twos 128 (table_of t.now) n.0 x.0 }
{
    let mut first = n;
    for _ in 0..128usize {
        if x == first {
            return field::link(t, first);
        }
        let second = field::sibling(t, first);
        if x == second {
            return field::link(t, first).mirrored();
        }
        first = field::sibling(t, second);
    }
    Link::none()
}

// A touch beside the way: the link of the node on the way that is in one ring with the node touched.
fn turn_off(t: &Table, below: &[u16], touch: Node) -> Link
    ensures { link_of result ≡ turned_off (table_of t.now) below.now touch.0 }
{
    let touched = way::beside_way(t, below, touch);
    let blossom = field::parent(t, touched);
    let on_way = Node(number_of(below, blossom));
    let after = field::sibling(t, touched);
    ring_link(t, on_way, after)
}

// The link that touches d.
#[tactic(auto, using(crate::proofs::FollowSteps::links))]
pub fn follow(t: &Table, below: &[u16], d: Node, outermost: Link) -> Link
    ensures { link_of result ≡ followed 256 (table_of t.now) below.now d.0 (link_of outermost) }
{
    let mut link = outermost;
    for _ in 0..256usize {
        if link.touch == d {
            return link;
        }
        link = turn_off(t, below, link.touch);
    }
    link
}
