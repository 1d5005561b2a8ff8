// What S7 finds wrong: a way up that goes round, or the parent of an inner node.
use crate::finding::Finding;
use slot::Node;
use std::fmt;
use table::Table;

#[derive(Clone, Copy)]
pub enum Wrong {
    Endless(Node),
    InnerWithoutParent,
    InsideDefect(Node),
    InsideSmaller(Node),
}

impl fmt::Display for Wrong {
    fn fmt<W: fmt::Write>(&self, f: &mut fmt::Formatter<W>) -> fmt::Result {
        match *self {
            Wrong::Endless(n) => write!(
                f,
                "its way up comes to no root: the parents go round through {n}"
            ),
            Wrong::InnerWithoutParent => write!(f, "inside a blossom, and its parent is none"),
            Wrong::InsideDefect(above) => write!(f, "inside {above}, which is a defect"),
            Wrong::InsideSmaller(above) => write!(f, "inside {above}, which is no larger number"),
        }
    }
}

impl Finding for Wrong {
    fn other(&self) -> Option<Node> {
        match *self {
            Wrong::Endless(n) | Wrong::InsideDefect(n) | Wrong::InsideSmaller(n) => Some(n),
            Wrong::InnerWithoutParent => None,
        }
    }
}

// Where the way up from a node stands after 255 steps: on the circle, if it comes to no root; and at another node than the first, since
// on a circle + and − nodes stand by turns.
fn far_up(t: &Table, n: Node) -> Node {
    let mut here = n;
    for _ in 0..255 {
        here = table::field::parent(t, here);
    }
    here
}

fn wrong_inner(t: &Table, n: Node) -> Wrong {
    let above = table::field::parent(t, n);
    if above.is_none() {
        Wrong::InnerWithoutParent
    } else if !table::field::is_blossom(t, above) {
        Wrong::InsideDefect(above)
    } else {
        Wrong::InsideSmaller(above)
    }
}

pub fn find(t: &Table, n: Node) -> Option<Wrong> {
    if table::field::is_inner(t, n) {
        return Some(wrong_inner(t, n));
    }
    Some(Wrong::Endless(far_up(t, n)))
}
