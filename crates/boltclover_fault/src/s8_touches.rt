// What S8 finds wrong with a link: its touch, or its peer touch.
use crate::field::Field;
use crate::finding::Finding;
use fault_rules::s8_touches::{far_end, is_defect_inside};
use slot::{Link, Node};
use std::fmt;
use table::Table;

#[derive(Clone, Copy)]
pub enum Wrong {
    TouchesBlossom {
        field: Field,
        touch: Node,
        begin: u16,
    },
    TouchOutside(Node),
    PeerTouchOutside {
        touch: Node,
        end: End,
        far: Node,
    },
}

// What the far end of a link is to the node.
#[derive(Clone, Copy)]
pub enum End {
    Peer,
    Parent,
    Next,
}

impl fmt::Display for End {
    fn fmt<W: fmt::Write>(&self, f: &mut fmt::Formatter<W>) -> fmt::Result {
        f.write_str(match self {
            End::Peer => "its peer",
            End::Parent => "its parent",
            End::Next => "the next node of its ring",
        })
    }
}

impl fmt::Display for Wrong {
    fn fmt<W: fmt::Write>(&self, f: &mut fmt::Formatter<W>) -> fmt::Result {
        match *self {
            Wrong::TouchesBlossom {
                field,
                touch,
                begin,
            } => write!(
                f,
                "its {field} is {touch}, no defect: those are below {begin}"
            ),
            Wrong::TouchOutside(touch) => write!(f, "its touch, {touch}, is not inside it"),
            Wrong::PeerTouchOutside { touch, end, far } => {
                write!(f, "its peer touch, {touch}, is not inside {end}, {far}")
            }
        }
    }
}

impl Finding for Wrong {
    fn other(&self) -> Option<Node> {
        match *self {
            Wrong::PeerTouchOutside { far, .. } => Some(far),
            _ => None,
        }
    }
}

fn end_of(t: &Table, n: Node) -> End {
    if table::field::is_inner(t, n) {
        End::Next
    } else if table::field::parent(t, n).is_none() {
        End::Peer
    } else {
        End::Parent
    }
}

// A touch that is no defect.
fn no_defect(t: &Table, field: Field, touch: Node) -> Option<Wrong> {
    if !table::field::is_blossom(t, touch) {
        return None;
    }
    Some(Wrong::TouchesBlossom {
        field,
        touch,
        begin: table::counts::begin(t),
    })
}

fn wrong_link(t: &Table, n: Node, link: Link) -> Wrong {
    if !link.touch.is_none() && !is_defect_inside(t, n, link.touch) {
        let outside = Wrong::TouchOutside(link.touch);
        return no_defect(t, Field::Touch, link.touch).unwrap_or(outside);
    }
    let outside = Wrong::PeerTouchOutside {
        touch: link.peer_touch,
        end: end_of(t, n),
        far: far_end(t, n),
    };
    no_defect(t, Field::PeerTouch, link.peer_touch).unwrap_or(outside)
}

pub fn find(t: &Table, n: Node) -> Option<Wrong> {
    Some(wrong_link(t, n, table::field::link(t, n)))
}
