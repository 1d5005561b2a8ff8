// A child's place in the list of its parent's children.
ghost use Rattle.std.specs.Prelude.{◌≡◌};
ghost use Rattle.table.specs.Words.{table_of};
ghost use Rattle.rules.specs.Blossom.{relinked, relisted, replace_child};

use slot::Node;
use table::layout::SLOTS;
use table::storing::Pointer;
use table::{Table, field, storing};

// In the list that starts at first, the node whose next is `from` gets `to` as its next.
#[tactic(auto, using(crate::proofs::Lists::relinks))]
fn relink(t: &mut Table, first: Node, from: Node, to: Node)
    ensures { table_of t.new ≡ relinked 256 first.0 from.0 to.0 (table_of t.old) }
{
    let mut here = first;
    for _ in 0..SLOTS {
        if here.is_none() {
            return;
        }
        let next = field::sibling(t, here);
        if next == from {
            storing::store_pointer(t, here, Pointer::Sibling, to);
            return;
        }
        here = next;
    }
}

#[tactic(auto, using(crate::proofs::Lists::relists))]
fn relist(t: &mut Table, p: Node, from: Node, to: Node)
    ensures { table_of t.new ≡ relisted p.0 from.0 to.0 (table_of t.old) }
{
    let first = field::first_child(t, p);
    if first == from {
        storing::store_pointer(t, p, Pointer::FirstChild, to);
    } else {
        relink(t, first, from, to);
    }
}

// In p's child list `from` gives its place to `to`, which goes on where `from` went on.
#[tactic(auto, unfolding(rules::specs::Blossom::replace_child, rules::specs::Act::alter))]
pub fn alternating_tree_replace_child_with(t: &mut Table, p: Node, from: Node, to: Node)
    ensures { table_of t.new ≡ replace_child p.0 from.0 to.0 (table_of t.old) }
{
    relist(t, p, from, to);
    let next = field::sibling(t, from);
    storing::store_pointer(t, to, Pointer::Sibling, next);
}
