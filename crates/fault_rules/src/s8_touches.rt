// S8, at the slot that stores the link: its touch is a defect inside its node, its peer touch one inside the far end.
ghost use Rattle.std.specs.Prelude.{◌≡◌};
ghost use Rattle.table.specs.Words.{table_of};
ghost use Rattle.rules.specs.Sound.{far_end, is_defect_inside, s8};

use slot::Node;
use table::{Table, climb, counts, field};

// The matched peer, the tree parent or the ring's next node.
pub fn far_end(t: &Table, n: Node) -> Node
    ensures { result.0 ≡ far_end (table_of t.now) n.0 }
{
    let above = field::parent(t, n);
    if field::is_outer(t, n) && !above.is_none() {
        above
    } else {
        field::sibling(t, n)
    }
}

pub fn is_defect_inside(t: &Table, x: Node, n: Node) -> bool
    ensures { result ≡ is_defect_inside (table_of t.now) x.0 n.0 }
{
    n.0 < counts::begin(t) && climb::is_inside(t, x, n)
}

#[tactic(auto, unfolding(rules::specs::Sound::s8))]
pub fn holds(t: &Table, n: Node) -> bool
    ensures { result ≡ s8 (table_of t.now) n.0 }
{
    let link = field::link(t, n);
    (link.touch.is_none() || is_defect_inside(t, n, link.touch))
        && (link.peer_touch.is_none() || is_defect_inside(t, far_end(t, n), link.peer_touch))
}
