// Tests of a link and a whole slot: none of them looks at the table.
ghost use Rattle.std.specs.Prelude.{◌≡◌};
ghost use Rattle.slot.specs.Slot.{link_of, slot_of};
ghost use Rattle.rules.specs.Slots.{is_full};
ghost use Rattle.rules.specs.Sound.{is_bare};
ghost use Rattle.sound_slots.specs.Links.{is_through};

use slot::{Link, Slot};

// Both throughs.
pub fn is_through(l: Link) -> bool
    ensures { result ≡ is_through (link_of l) }
{
    !l.through.is_none() && !l.peer_through.is_none()
}

// Both touches too.
pub fn is_full(l: Link) -> bool
    ensures { result ≡ is_full (link_of l) }
{
    !l.touch.is_none()
        && !l.through.is_none()
        && !l.peer_touch.is_none()
        && !l.peer_through.is_none()
}

// 01: "an empty slot stores none throughout". The state is not asked.
pub fn is_bare(s: Slot) -> bool
    ensures { result ≡ is_bare (slot_of s) }
{
    s.parent.is_none()
        && s.first_child.is_none()
        && s.sibling.is_none()
        && s.ring.is_none()
        && s.link == Link::none()
}
