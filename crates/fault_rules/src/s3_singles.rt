// S3, at an outer node with neither parent nor child: it is free, or matched to another that points back with the mirrored link, or
// matched to a virtual vertex. Unequal links fail at both nodes.
ghost use Rattle.std.specs.Prelude.{◌≡◌};
ghost use Rattle.slot.specs.Slot.{slot_of};
ghost use Rattle.table.specs.Words.{table_of};
ghost use Rattle.rules.specs.Sound.{is_single, is_free, is_touched, is_paired, is_virtual, s3};

use slot::{Link, Node, Slot, State};
use sound_slots::value;
use table::{Table, field};

fn is_single(t: &Table, n: Node) -> bool
    ensures { result ≡ is_single (table_of t.now) n.0 }
{
    field::is_outer(t, n) && field::parent(t, n).is_none() && field::first_child(t, n).is_none()
}

fn is_free(s: Slot) -> bool
    ensures { result ≡ is_free (slot_of s) }
{
    s.state == State::Grow && s.sibling.is_none() && s.link == Link::none()
}

fn is_touched(s: Slot) -> bool
    ensures { result ≡ is_touched (slot_of s) }
{
    s.state == State::Stay && !s.link.touch.is_none() && value::is_through(s.link)
}

fn is_virtual(s: Slot) -> bool
    ensures { result ≡ is_virtual (slot_of s) }
{
    s.sibling.is_none() && s.link.peer_touch.is_none()
}

fn is_paired(t: &Table, n: Node) -> bool
    ensures { result ≡ is_paired (table_of t.now) n.0 }
{
    let s = table::get(t, n);
    let peer = table::get(t, s.sibling);
    !s.sibling.is_none()
        && !s.link.peer_touch.is_none()
        && s.sibling != n
        && is_single(t, s.sibling)
        && peer.state == State::Stay
        && peer.sibling == n
        && peer.link == s.link.mirrored()
}

#[tactic(auto, unfolding(rules::specs::Sound::s3))]
pub fn holds(t: &Table, n: Node) -> bool
    ensures { result ≡ s3 (table_of t.now) n.0 }
{
    let s = table::get(t, n);
    !is_single(t, n) || is_free(s) || (is_touched(s) && (is_paired(t, n) || is_virtual(s)))
}
