// What S3 finds wrong at an outer node with neither parent nor child.
use crate::field;
use crate::field::Field;
use crate::finding::Finding;
use slot::{Link, Node, Slot, State};
use std::fmt;
use table::Table;

#[derive(Clone, Copy)]
pub enum Wrong {
    FreeStores(Field),
    ShrinksAlone,
    MatchedWithout(Field),
    VirtualTouched(Node),
    MatchedToItself,
    Matched(Node, Peer),
}

// What is wrong with the peer that a node is matched to.
#[derive(Clone, Copy)]
pub enum Peer {
    Inside,
    Grows,
    Shrinks,
    InTree(Field),
    MatchedToOther(Node),
    MatchedToVirtual,
    MatchedToNobody,
    TouchTurned { touch: Node, back: Node },
    PeerTouchTurned { touch: Node, back: Node },
    ThroughTurned,
    PeerThroughTurned,
}

impl fmt::Display for Wrong {
    fn fmt<W: fmt::Write>(&self, f: &mut fmt::Formatter<W>) -> fmt::Result {
        match *self {
            Wrong::FreeStores(field) => {
                write!(
                    f,
                    "Grow, with neither parent nor child, and stores a {field}"
                )
            }
            Wrong::ShrinksAlone => write!(f, "Shrink, with neither parent nor child"),
            Wrong::MatchedWithout(field) => {
                write!(
                    f,
                    "Stay, with neither parent nor child, and its {field} is none"
                )
            }
            Wrong::VirtualTouched(touch) => write!(
                f,
                "matched to a virtual vertex, having no sibling, and its peer touch is {touch}"
            ),
            Wrong::MatchedToItself => write!(f, "matched to itself"),
            Wrong::Matched(peer, what) => write!(f, "matched to {peer}, {what}"),
        }
    }
}

impl fmt::Display for Peer {
    fn fmt<W: fmt::Write>(&self, f: &mut fmt::Formatter<W>) -> fmt::Result {
        match *self {
            Peer::Inside => write!(f, "which is inside a blossom"),
            Peer::Grows => write!(f, "which is Grow"),
            Peer::Shrinks => write!(f, "which is Shrink"),
            Peer::InTree(field) => write!(f, "which has a {field}"),
            Peer::MatchedToOther(other) => write!(f, "which is matched to {other}"),
            Peer::MatchedToVirtual => write!(f, "which is matched to a virtual vertex"),
            Peer::MatchedToNobody => write!(f, "which has no sibling"),
            Peer::TouchTurned { touch, back } => {
                write!(
                    f,
                    "and its touch is {touch}, but the peer touch there {back}"
                )
            }
            Peer::PeerTouchTurned { touch, back } => {
                write!(
                    f,
                    "and its peer touch is {touch}, but the touch there {back}"
                )
            }
            Peer::ThroughTurned => write!(f, "and its through is not the peer through there"),
            Peer::PeerThroughTurned => write!(f, "and its peer through is not the through there"),
        }
    }
}

impl Finding for Wrong {
    fn other(&self) -> Option<Node> {
        match *self {
            Wrong::Matched(peer, _) => Some(peer),
            _ => None,
        }
    }
}

// The first field in which a link and that of the peer are not one another's mirror.
fn wrong_mirror(link: Link, back: Link) -> Peer {
    if link.touch != back.peer_touch {
        Peer::TouchTurned {
            touch: link.touch,
            back: back.peer_touch,
        }
    } else if link.peer_touch != back.touch {
        Peer::PeerTouchTurned {
            touch: link.peer_touch,
            back: back.touch,
        }
    } else if link.through != back.peer_through {
        Peer::ThroughTurned
    } else {
        Peer::PeerThroughTurned
    }
}

// A peer that stays.
fn wrong_matched(n: Node, link: Link, other: Slot) -> Peer {
    if !other.parent.is_none() {
        Peer::InTree(Field::Parent)
    } else if !other.first_child.is_none() {
        Peer::InTree(Field::FirstChild)
    } else if other.sibling == n {
        wrong_mirror(link, other.link)
    } else if !other.sibling.is_none() {
        Peer::MatchedToOther(other.sibling)
    } else if other.link.peer_touch.is_none() {
        Peer::MatchedToVirtual
    } else {
        Peer::MatchedToNobody
    }
}

fn wrong_peer(t: &Table, n: Node, link: Link, peer: Node) -> Option<Peer> {
    let other = table::get(t, peer);
    match other.state {
        State::Inner => Some(Peer::Inside),
        State::Stay => Some(wrong_matched(n, link, other)),
        State::Grow => Some(Peer::Grows),
        State::Shrink => Some(Peer::Shrinks),
        State::Empty | State::Damaged => None,
    }
}

fn wrong_stay(t: &Table, n: Node, s: Slot) -> Option<Wrong> {
    let link = s.link;
    let peer = s.sibling;
    if let Some(missing) = field::missing_in_half_link(link) {
        Some(Wrong::MatchedWithout(missing))
    } else if peer.is_none() {
        Some(Wrong::VirtualTouched(link.peer_touch))
    } else if peer == n {
        Some(Wrong::MatchedToItself)
    } else if link.peer_touch.is_none() {
        Some(Wrong::MatchedWithout(Field::PeerTouch))
    } else {
        Some(Wrong::Matched(peer, wrong_peer(t, n, link, peer)?))
    }
}

pub fn find(t: &Table, n: Node) -> Option<Wrong> {
    let s = table::get(t, n);
    match s.state {
        State::Stay => wrong_stay(t, n, s),
        State::Grow => field::stored_beside(s).map(Wrong::FreeStores),
        State::Shrink => Some(Wrong::ShrinksAlone),
        _ => None,
    }
}
