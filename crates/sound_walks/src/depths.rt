// Ways up (S7). A node's depth is the number of steps from it along parents to none, and 0 stands for one not known yet.
ghost use Rattle.std.specs.Prelude.{◌≡◌, ◌<◌, ◌≤◌, MatchOption};
ghost use Rattle.table.specs.Words.{table_of};
ghost use Rattle.sound_walks.specs.Marks.{judged_of};
ghost use Rattle.sound_walks.specs.Depths.{measured, recorded, depth_step};

use slot::Node;
use table::numbers::{number_of, set_number};
use table::{Table, field};

// The depth of n, by way of the first node whose depth is known. None where it is more than 257.
fn measure(t: &Table, deep: &[u16], n: Node) -> Option<u16>
    ensures { MatchOption result (257 < measured (table_of t.now) deep.now 257 n.0 0) (λ depth. (depth ≡ measured (table_of t.now) deep.now 257 n.0 0) × (depth ≤ 257)) }
{
    let mut here = n;
    for count in 0..258 {
        if here.is_none() {
            return Some(count);
        }
        let known = number_of(deep, here);
        if known != 0 {
            return if known <= 257 - count {
                Some(count + known)
            } else {
                None
            };
        }
        here = field::parent(t, here);
    }
    None
}

// The depths on the way up from n, which has this one, to a node whose depth is known.
fn note_way(t: &Table, deep: &mut [u16], n: Node, depth: u16)
    ensures { deep.new ≡ recorded (table_of t.now) depth n.0 deep.old }
{
    let mut here = n;
    for step in 0..depth {
        if number_of(deep, here) != 0 {
            return;
        }
        set_number(deep, here, depth - step);
        here = field::parent(t, here);
    }
}

// Whether the way up from n comes to an end. A node without a parent is at the top, and its depth need not be remembered; most
// often the parent's depth is known.
#[tactic(auto, unfolding(crate::specs::Depths::depth_step))]
pub fn depth_step(t: &Table, deep: &mut [u16], n: Node) -> bool
    ensures { judged_of result deep.new ≡ depth_step (table_of t.now) n.0 deep.old }
{
    let above = field::parent(t, n);
    if above.is_none() {
        return true;
    }
    let own = number_of(deep, n);
    if own != 0 {
        return own <= 257;
    }
    let known = number_of(deep, above);
    if known != 0 {
        if 256 < known {
            return false;
        }
        set_number(deep, n, known + 1);
        return true;
    }
    let Some(depth) = measure(t, deep, n) else {
        return false;
    };
    note_way(t, deep, n, depth);
    true
}
