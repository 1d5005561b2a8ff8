// Climbs through the parents of inner nodes. Each takes at most 256 steps, so it ends on any table.
ghost use Rattle.std.specs.Prelude.{◌≡◌};
ghost use Rattle.table.specs.Words.{table_of};
ghost use Rattle.table.specs.Climb.{inside, outer_blossom, second_outer_blossom};

use crate::{Table, field};
use slot::Node;

// 01: "climbing through the parents of inner nodes, at most 256 steps".
const STEPS: usize = 256;

// Whether n is inside x.
#[tactic(auto, using(crate::proofs::Climbs::inside_here, crate::proofs::Climbs::inside_stop, crate::proofs::Climbs::inside_up, crate::proofs::Climbs::inside_end))]
pub fn is_inside(t: &Table, x: Node, n: Node) -> bool
    ensures { result ≡ inside (table_of t.now) x.0 n.0 }
{
    let mut here = n;
    for _ in 0..STEPS {
        if here == x {
            return true;
        }
        if !field::is_inner(t, here) {
            return false;
        }
        here = field::parent(t, here);
    }
    here == x
}

pub fn get_outer_blossom(t: &Table, n: Node) -> Node
    ensures { result.0 ≡ outer_blossom (table_of t.now) n.0 }
{
    let mut here = n;
    let mut left = STEPS;
    // Kept: with a `for` a step takes 13 to 15 instructions and not 10, and the nested tape 1.02 of the original's, above the bar of 0.98. What
    // is left is asked at the end of a step: the compiler then takes two steps for one such question.
    loop {
        if !field::is_inner(t, here) {
            return here;
        }
        here = field::parent(t, here);
        left -= 1;
        if left == 0 {
            return here;
        }
    }
}

pub fn get_second_outer_blossom(t: &Table, n: Node) -> Node
    ensures { result.0 ≡ second_outer_blossom (table_of t.now) n.0 }
{
    let mut below = n;
    let mut here = n;
    let mut left = STEPS;
    // Kept: as in get_outer_blossom; with a `for` taking a nest of 84 blossoms apart takes 1.27 of the instructions.
    loop {
        if !field::is_inner(t, here) {
            return below;
        }
        below = here;
        here = field::parent(t, here);
        left -= 1;
        if left == 0 {
            return below;
        }
    }
}
