// The pairs that a matched node stands for (01, "The listing"): the pair rule and the ring rule call one another down to defects.
// Every call goes with a budget that falls, so the listing ends on any table.
ghost use Rattle.slot.specs.Slot.{link_of};
ghost use Rattle.table.specs.Words.{table_of};
ghost use Rattle.rules.specs.Listing.{pair_listed, levels_listed, ring_listed};
ghost use Rattle.request_listing.specs.Inside.{inside_listed};
ghost use Rattle.request_listing.specs.Listed.{Listed};

use record::Pair;
use record_answers::closing;
use record_fields::Output;
use slot::{Link, Node};
use table::{Table, field};

// The pair rule: what is inside the node, then inside its peer, then the entry.
#[cycle(list_inside_list_levels_list_pair_list_ring)]
#[tactic(auto, using(crate::proofs::PairsSteps::pairs))]
pub fn list_pair(t: &Table, out: &mut Output, n: Node, peer: Node, link: Link, left: usize)
    ensures { Listed (pair_listed left n.0 peer.0 (link_of link) (table_of t.now)) out.old out.new }
{
    if left == 0 {
        return;
    }
    list_inside(t, out, n, link.touch, left - 1);
    list_inside(t, out, peer, link.peer_touch, left - 1);
    closing::pair(out, Pair::from(link));
}

// The pairs inside a node that is touched here, if it is a blossom.
#[cycle(list_inside_list_levels_list_pair_list_ring)]
#[tactic(auto, using(crate::proofs::PairsSteps::insides))]
pub fn list_inside(t: &Table, out: &mut Output, n: Node, touch: Node, left: usize)
    ensures { Listed (inside_listed left n.0 touch.0 (table_of t.now)) out.old out.new }
{
    if field::is_blossom(t, n) {
        list_levels(t, out, n, touch, left);
    }
}

// At each level from the touched node upward, to the blossom b: the ring rule.
#[cycle(list_inside_list_levels_list_pair_list_ring)]
#[tactic(auto, using(crate::proofs::PairsSteps::levels))]
fn list_levels(t: &Table, out: &mut Output, b: Node, touched: Node, left: usize)
    ensures { Listed (levels_listed left b.0 touched.0 (table_of t.now)) out.old out.new }
{
    let mut here = touched;
    for still in (0..left).rev() {
        if field::is_outer(t, here) {
            return;
        }
        let first = field::sibling(t, here);
        list_ring(t, out, here, first, still);
        let above = field::parent(t, here);
        if above == b {
            return;
        }
        here = above;
    }
}

// The ring rule: the nodes from n on up to the touched one, two by two, each two by the pair rule.
#[cycle(list_inside_list_levels_list_pair_list_ring)]
#[tactic(auto, using(crate::proofs::PairsSteps::rings))]
fn list_ring(t: &Table, out: &mut Output, touched: Node, n: Node, left: usize)
    ensures { Listed (ring_listed left touched.0 n.0 (table_of t.now)) out.old out.new }
{
    let mut here = n;
    for still in (0..left).rev() {
        if here == touched {
            return;
        }
        let peer = field::sibling(t, here);
        let link = field::link(t, here);
        list_pair(t, out, here, peer, link, still);
        here = field::sibling(t, peer);
    }
}
