// S7: at an outer node, that the way up from it comes to an end; at an inner one, that its parent is a blossom with a larger number.
ghost use Rattle.std.specs.Prelude.{◌≡◌};
ghost use Rattle.table.specs.Words.{table_of};
ghost use Rattle.rules.specs.Slots.{up};
ghost use Rattle.rules.specs.Walk.{ends};
ghost use Rattle.rules.specs.Sound.{s7};

use slot::Node;
use table::{Table, field};

// 01: "Parents of tree nodes reach a root within 256 steps"; one step more leaves the root.
const WAY: usize = 257;

#[tactic(auto, using(crate::proofs::WaySteps::ends_here, crate::proofs::WaySteps::ends_spent, crate::proofs::WaySteps::ends_more))]
fn way_ends(t: &Table, n: Node) -> bool
    ensures { result ≡ ends 257 (up (table_of t.now)) n.0 }
{
    let mut here = n;
    for _ in 0..WAY {
        if here.is_none() {
            return true;
        }
        here = field::parent(t, here);
    }
    here.is_none()
}

#[tactic(auto, unfolding(rules::specs::Sound::s7))]
pub fn holds(t: &Table, n: Node) -> bool
    ensures { result ≡ s7 (table_of t.now) n.0 }
{
    let above = field::parent(t, n);
    (!field::is_outer(t, n) || way_ends(t, n))
        && (!field::is_inner(t, n)
            || (field::is_blossom(t, above) && field::has_node(t, above) && n.0 < above.0))
}
