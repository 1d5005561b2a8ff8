// Tests of a slot's link and pointers: touches inside the two ends, by the numbers of insides (S8), a matched peer that points back with the mirrored link
// (S3), a first blossom child of blossoms alone (S1).

ghost use Rattle.std.specs.Prelude.{◌≡◌};
ghost use Rattle.slot.specs.Slot.{link_of, slot_of};
ghost use Rattle.table.specs.Words.{table_of};
ghost use Rattle.sound_slots.specs.Links.{is_held, touches_hold, ring_placed, points_back, pair_holds};

use slot::{Link, Node, Slot, State};
use table::numbers::number_of;
use table::{Table, field};

// A defect inside x: x itself, as most often, or one whose number lies in x's stretch.
#[tactic(auto, unfolding(crate::specs::Links::is_held))]
pub fn touch_holds(t: &Table, lo: &[u16], hi: &[u16], x: Node, touch: Node) -> bool
    ensures { result ≡ is_held (table_of t.now) lo.now hi.now x.0 touch.0 }
{
    let begin = table::counts::begin(t);
    if begin <= touch.0 {
        return false;
    }
    if touch == x {
        return true;
    }
    let number = number_of(lo, touch);
    if number < number_of(lo, x) {
        return false;
    }
    number < number_of(hi, x)
}

// S8 of a link with two touches.
#[tactic(auto, unfolding(crate::specs::Links::touches_hold))]
pub fn touches_hold(t: &Table, lo: &[u16], hi: &[u16], n: Node, far: Node, link: Link) -> bool
    ensures { result ≡ touches_hold (is_held (table_of t.now) lo.now hi.now) n.0 far.0 (link_of link) }
{
    touch_holds(t, lo, hi, n, link.touch) && touch_holds(t, lo, hi, far, link.peer_touch)
}

// Only blossoms have a first blossom child.
pub fn ring_placed(t: &Table, n: Node, ring: Node) -> bool
    ensures { result ≡ ring_placed (table_of t.now) n.0 ring.0 }
{
    ring.is_none() || field::is_blossom(t, n)
}

#[tactic(auto, unfolding(crate::specs::Links::points_back))]
fn points_back(t: &Table, n: Node, peer: Node) -> bool
    ensures { result ≡ points_back (table_of t.now) n.0 peer.0 }
{
    field::state(t, peer) == State::Stay && field::sibling(t, peer) == n
}

// Another matched node, which points back with the mirrored link. The smaller of the two has judged the link.
#[tactic(auto, unfolding(crate::specs::Links::pair_holds))]
pub fn pair_holds(t: &Table, n: Node, s: Slot) -> bool
    ensures { result ≡ pair_holds (table_of t.now) n.0 (slot_of s) }
{
    let peer = s.sibling;
    points_back(t, n, peer)
        && (peer.0 < n.0 || (peer != n && field::link(t, peer) == s.link.mirrored()))
}
