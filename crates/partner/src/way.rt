// The way up from a defect: for each node around it, the node below on the way; 65,535 for every other.
// Kept: 65,535 for none, as the definition `noted` has it, in lent words of any length.
ghost use Rattle.std.specs.Prelude.{◌≡◌};
ghost use Rattle.table.specs.Words.{table_of};
ghost use Rattle.table.specs.Climb.{outer_blossom};
ghost use Rattle.partner.specs.Way.{noted, beside_way};

use slot::Node;
use table::numbers::{number_of, set_number};
use table::{Table, field};

// Notes the way, and gives the outer node at its end.
#[tactic(auto, using(crate::proofs::WaySteps::noting))]
pub fn note_way(t: &Table, below: &mut [u16], d: Node) -> Node
    ensures { (result.0 ≡ outer_blossom (table_of t.now) d.0) × (below.new ≡ noted 256 (table_of t.now) d.0 below.old) }
{
    let mut here = d;
    for _ in 0..256usize {
        if !field::is_inner(t, here) {
            return here;
        }
        let above = field::parent(t, here);
        set_number(below, above, here.0);
        here = above;
    }
    here
}

// The first node of the climb from n whose parent is on the way.
#[tactic(auto, using(crate::proofs::WaySteps::besides))]
pub fn beside_way(t: &Table, below: &[u16], n: Node) -> Node
    ensures { result.0 ≡ beside_way 256 (table_of t.now) below.now n.0 }
{
    let mut here = n;
    for _ in 0..256usize {
        let above = field::parent(t, here);
        if number_of(below, above) != Node::NONE.0 {
            return here;
        }
        here = above;
    }
    here
}
