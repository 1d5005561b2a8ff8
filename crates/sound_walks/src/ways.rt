// The last pass (S5, S7): every outer node that has a parent was marked on its parent's list, and the way up from it ends.
ghost use Rattle.std.specs.Prelude.{◌≡◌, ◌-◌};
ghost use Rattle.table.specs.Words.{table_of};
ghost use Rattle.sound_walks.specs.Marks.{judged_of, sweep};
ghost use Rattle.sound_walks.specs.Depths.{way_step};

use crate::depths;
use slot::Node;
use table::{Table, field, marks};

// Inner nodes stand on rings, and have numbers.
#[tactic(auto, unfolding(crate::specs::Depths::way_step))]
fn way_step(t: &Table, listed: &[u8], deep: &mut [u16], n: Node) -> bool
    ensures { judged_of result deep.new ≡ way_step (table_of t.now) listed.now n.0 deep.old }
{
    if field::parent(t, n).is_none() || field::is_inner(t, n) {
        return true;
    }
    marks::is_marked(listed, n) && depths::depth_step(t, deep, n)
}

// The slots from one number to before another.
pub fn ways_hold(t: &Table, listed: &[u8], deep: &mut [u16], from: u16, to: u16) -> bool
    ensures { judged_of result deep.new ≡ sweep (way_step (table_of t.now) listed.now) (to - from) from deep.old }
{
    for i in from..to {
        if !way_step(t, listed, deep, Node(i)) {
            return false;
        }
    }
    true
}
