// What an outer node is to the conflict table (01, "What a conflict does").
ghost use Rattle.std.specs.Prelude.{◌≡◌};
ghost use Rattle.table.specs.Table.{at};
ghost use Rattle.table.specs.Words.{table_of};
ghost use Rattle.table.specs.Place.{place};

use crate::Table;
use slot::Node;

#[derive(Clone, Copy, PartialEq, Eq)]
pub enum Place {
    Free,
    // Matched to this peer.
    Paired(Node),
    // Matched to a virtual vertex.
    Virtual,
    // In an alternating tree.
    Tree,
}

// The node's touch, and not its sibling, tells a matched node from a free one: matched to a virtual vertex it has no sibling.
#[tactic(auto, unfolding(crate::specs::Place::place))]
pub fn place_of(t: &Table, n: Node) -> Place
    ensures { result ≡ place (at (table_of t.now) n.0) }
{
    let s = crate::get(t, n);
    if !s.parent.is_none() || !s.first_child.is_none() {
        return Place::Tree;
    }
    if s.link.touch.is_none() {
        return Place::Free;
    }
    if s.sibling.is_none() {
        return Place::Virtual;
    }
    Place::Paired(s.sibling)
}
