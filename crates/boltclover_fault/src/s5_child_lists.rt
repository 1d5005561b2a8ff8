// What S5 finds wrong with a node's child list: where the walk along it ends, or the first node that is not on it.
use crate::finding::Finding;
use crate::unmarked::first_unmarked;
use slot::Node;
use sound_walks::children;
use std::fmt;
use table::Table;

#[derive(Clone, Copy)]
pub enum Wrong {
    // A node, and its parent.
    ListsOther(Node, Node),
    ListsInner(Node),
    Endless(Node),
    NotListed(Node),
}

impl fmt::Display for Wrong {
    fn fmt<W: fmt::Write>(&self, f: &mut fmt::Formatter<W>) -> fmt::Result {
        match *self {
            Wrong::ListsOther(n, above) => {
                write!(f, "its child list comes to {n}, whose parent is {above}")
            }
            Wrong::ListsInner(n) => {
                write!(f, "its child list comes to {n}, which is inside a blossom")
            }
            Wrong::Endless(n) => {
                write!(f, "its child list does not end: it goes round through {n}")
            }
            Wrong::NotListed(n) => {
                write!(
                    f,
                    "node {n} names it as parent, and is not on its child list"
                )
            }
        }
    }
}

impl Finding for Wrong {
    fn other(&self) -> Option<Node> {
        match *self {
            Wrong::ListsOther(n, _)
            | Wrong::ListsInner(n)
            | Wrong::Endless(n)
            | Wrong::NotListed(n) => Some(n),
        }
    }
}

// Kept: beside wrong_ring_node of S6, since each rule has sentences of its own.
fn wrong_child(t: &Table, child: Node) -> Wrong {
    if !table::field::is_outer(t, child) {
        return Wrong::ListsInner(child);
    }
    Wrong::ListsOther(child, table::field::parent(t, child))
}

fn wrong_list(t: &Table, n: Node) -> Option<Wrong> {
    let mut here = table::field::first_child(t, n);
    for _ in 0..256 {
        if here.is_none() {
            return None;
        }
        if !children::is_child(t, n, here) {
            return Some(wrong_child(t, here));
        }
        here = table::field::sibling(t, here);
    }
    Some(Wrong::Endless(here))
}

pub fn find(t: &Table, n: Node) -> Option<Wrong> {
    let mut listed = [0u8; 256];
    if !children::list_step(t, &mut listed, n) {
        return wrong_list(t, n);
    }
    first_unmarked(&listed, |child| children::is_child(t, n, child)).map(Wrong::NotListed)
}
