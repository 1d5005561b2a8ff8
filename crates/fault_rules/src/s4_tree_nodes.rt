// S4, at an outer node with a parent or a child: it is a root, a − node or another + node. A − node has one child where its first child
// has no sibling.
ghost use Rattle.std.specs.Prelude.{◌≡◌};
ghost use Rattle.slot.specs.Slot.{slot_of};
ghost use Rattle.table.specs.Words.{table_of};
ghost use Rattle.rules.specs.Sound.{is_root, is_minus, is_plus, s4};

use slot::{Link, Node, Slot, State};
use sound_slots::value;
use table::{Table, field};

fn is_root(s: Slot) -> bool
    ensures { result ≡ is_root (slot_of s) }
{
    s.state == State::Grow
        && !s.first_child.is_none()
        && s.parent.is_none()
        && s.sibling.is_none()
        && s.link == Link::none()
}

fn is_minus(t: &Table, s: Slot) -> bool
    ensures { result ≡ is_minus (table_of t.now) (slot_of s) }
{
    s.state == State::Shrink
        && value::is_full(s.link)
        && field::state(t, s.parent) == State::Grow
        && !s.first_child.is_none()
        && field::sibling(t, s.first_child).is_none()
}

fn is_plus(t: &Table, s: Slot) -> bool
    ensures { result ≡ is_plus (table_of t.now) (slot_of s) }
{
    s.state == State::Grow
        && value::is_full(s.link)
        && s.sibling.is_none()
        && field::state(t, s.parent) == State::Shrink
}

#[tactic(auto, unfolding(rules::specs::Sound::s4))]
pub fn holds(t: &Table, n: Node) -> bool
    ensures { result ≡ s4 (table_of t.now) n.0 }
{
    let s = table::get(t, n);
    let in_tree = field::is_outer(t, n) && !(s.parent.is_none() && s.first_child.is_none());
    !in_tree || is_root(s) || is_minus(t, s) || is_plus(t, s)
}
