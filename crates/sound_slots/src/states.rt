// What a slot must be depends on its state alone: what each state asks of the slot and of what its pointers name. Nothing is
// asked that another test tells: a peer with a smaller number has judged the link, and the walks along child lists and rings find
// that what they name is present. Rings were walked before, and gave their nodes numbers.
// Kept: a node, its slot and the numbers of insides go to each state's function by themselves; a struct of them would be made for one call.
ghost use Rattle.std.specs.Prelude.{◌≡◌};
ghost use Rattle.slot.specs.Slot.{slot_of};
ghost use Rattle.table.specs.Words.{table_of};
ghost use Rattle.sound_slots.specs.Links.{is_held, is_numbered};
ghost use Rattle.sound_slots.specs.States.{inner_holds, stay_holds, grow_holds, shrink_holds};

use crate::links::{pair_holds, touch_holds, touches_hold};
use crate::value;
use slot::{Link, Node, Slot, State};
use table::numbers::number_of;
use table::{Table, field};

#[tactic(auto, unfolding(crate::specs::States::inner_holds))]
pub fn inner_holds(t: &Table, lo: &[u16], hi: &[u16], n: Node, s: Slot) -> bool
    ensures { result ≡ inner_holds (is_held (table_of t.now) lo.now hi.now) (is_numbered lo.now) n.0 (slot_of s) }
{
    value::is_through(s.link)
        && s.first_child.is_none()
        && n.0 < s.parent.0
        && number_of(lo, n) != 0
        && touches_hold(t, lo, hi, n, s.sibling, s.link)
}

#[tactic(auto, unfolding(crate::specs::States::stay_holds))]
pub fn stay_holds(t: &Table, lo: &[u16], hi: &[u16], n: Node, s: Slot) -> bool
    ensures { result ≡ stay_holds (table_of t.now) (is_held (table_of t.now) lo.now hi.now) n.0 (slot_of s) }
{
    if !(value::is_through(s.link) && s.parent.is_none() && s.first_child.is_none()) {
        return false;
    }
    if s.sibling.is_none() {
        return s.link.peer_touch.is_none() && touch_holds(t, lo, hi, n, s.link.touch);
    }
    pair_holds(t, n, s) && touches_hold(t, lo, hi, n, s.sibling, s.link)
}

#[tactic(auto, unfolding(crate::specs::States::grow_holds))]
pub fn grow_holds(t: &Table, lo: &[u16], hi: &[u16], n: Node, s: Slot) -> bool
    ensures { result ≡ grow_holds (table_of t.now) (is_held (table_of t.now) lo.now hi.now) n.0 (slot_of s) }
{
    if !s.sibling.is_none() {
        return false;
    }
    if s.parent.is_none() {
        return s.link == Link::none();
    }
    value::is_through(s.link)
        && field::state(t, s.parent) == State::Shrink
        && touches_hold(t, lo, hi, n, s.parent, s.link)
}

// Nothing is asked of the child: an outer node below a − node must be Grow, and so has no sibling.
#[tactic(auto, unfolding(crate::specs::States::shrink_holds))]
pub fn shrink_holds(t: &Table, lo: &[u16], hi: &[u16], n: Node, s: Slot) -> bool
    ensures { result ≡ shrink_holds (table_of t.now) (is_held (table_of t.now) lo.now hi.now) n.0 (slot_of s) }
{
    value::is_through(s.link)
        && field::state(t, s.parent) == State::Grow
        && !s.first_child.is_none()
        && touches_hold(t, lo, hi, n, s.parent, s.link)
}
