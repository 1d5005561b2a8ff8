// The fields of a slot by name; and which of them stores something, or lacks it: the first such field.
use slot::{Link, Slot};
use std::fmt;

#[derive(Clone, Copy, PartialEq, Eq)]
pub enum Field {
    Parent,
    FirstChild,
    Sibling,
    FirstBlossomChild,
    Touch,
    PeerTouch,
    Through,
    PeerThrough,
}

impl fmt::Display for Field {
    fn fmt<W: fmt::Write>(&self, f: &mut fmt::Formatter<W>) -> fmt::Result {
        f.write_str(match self {
            Field::Parent => "parent",
            Field::FirstChild => "first child",
            Field::Sibling => "sibling",
            Field::FirstBlossomChild => "first blossom child",
            Field::Touch => "touch",
            Field::PeerTouch => "peer touch",
            Field::Through => "through",
            Field::PeerThrough => "peer through",
        })
    }
}

// A field of the link that is not none.
fn stored_in_link(link: Link) -> Option<Field> {
    if !link.touch.is_none() {
        Some(Field::Touch)
    } else if !link.peer_touch.is_none() {
        Some(Field::PeerTouch)
    } else if !link.through.is_none() {
        Some(Field::Through)
    } else if !link.peer_through.is_none() {
        Some(Field::PeerThrough)
    } else {
        None
    }
}

// A sibling, or a field of the link.
pub fn stored_beside(s: Slot) -> Option<Field> {
    if !s.sibling.is_none() {
        return Some(Field::Sibling);
    }
    stored_in_link(s.link)
}

// Any field.
pub fn stored(s: Slot) -> Option<Field> {
    if !s.parent.is_none() {
        Some(Field::Parent)
    } else if !s.first_child.is_none() {
        Some(Field::FirstChild)
    } else if !s.ring.is_none() {
        Some(Field::FirstBlossomChild)
    } else {
        stored_beside(s)
    }
}

// A field that a node matched to a virtual vertex has in its link.
pub fn missing_in_half_link(link: Link) -> Option<Field> {
    if link.touch.is_none() {
        Some(Field::Touch)
    } else if link.through.is_none() {
        Some(Field::Through)
    } else if link.peer_through.is_none() {
        Some(Field::PeerThrough)
    } else {
        None
    }
}

// A field of the link that is none.
pub fn missing_in_link(link: Link) -> Option<Field> {
    if link.peer_touch.is_none() {
        return Some(Field::PeerTouch);
    }
    missing_in_half_link(link)
}
