// Child lists (S5): each list is walked and its nodes are marked. Only outer nodes have one.
ghost use Rattle.std.specs.Prelude.{◌≡◌, ◌-◌};
ghost use Rattle.table.specs.Words.{table_of};
ghost use Rattle.rules.specs.Sound.{is_outer_child};
ghost use Rattle.sound_walks.specs.Marks.{judged_of, sweep};
ghost use Rattle.sound_walks.specs.Lists.{list_step};

use crate::marking::walk_lent;
use slot::Node;
use table::{Table, field};

pub fn is_child(t: &Table, i: Node, n: Node) -> bool
    ensures { result ≡ is_outer_child (table_of t.now) i.0 n.0 }
{
    field::is_outer(t, n) && field::parent(t, n) == i
}

// From the first child along siblings to the end, children of i alone.
#[tactic(auto, unfolding(crate::specs::Lists::list_step))]
pub fn list_step(t: &Table, seen: &mut [u8], i: Node) -> bool
    ensures { judged_of result seen.new ≡ list_step (table_of t.now) i.0 seen.old }
{
    let child = field::first_child(t, i);
    walk_lent(seen, child, |n| field::sibling(t, n), |n| is_child(t, i, n)).is_some()
}

// The lists of the slots from one number to before another.
// Kept: beside ways_hold; one pass over any step would say in its clause what each step means of two kinds of lists, longer than both loops.
pub fn lists_hold(t: &Table, seen: &mut [u8], from: u16, to: u16) -> bool
    ensures { judged_of result seen.new ≡ sweep (list_step (table_of t.now)) (to - from) from seen.old }
{
    for i in from..to {
        if !list_step(t, seen, Node(i)) {
            return false;
        }
    }
    true
}
