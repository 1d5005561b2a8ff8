// What S6 finds wrong with a blossom's ring, or with an inner node.
use crate::field;
use crate::field::Field;
use crate::finding::Finding;
use crate::unmarked::first_unmarked;
use fault_rules::s6_rings;
use slot::Node;
use std::fmt;
use table::Table;

#[derive(Clone, Copy)]
pub enum Wrong {
    NoRing,
    // A node, and its parent.
    RingsOther(Node, Node),
    RingsOuter(Node),
    RingEnds(Node),
    // The first node.
    Endless(Node),
    NotOnRing(Node),
    RingOf(u16),
    InnerWithout(Field),
    InnerChild(Node),
}

impl fmt::Display for Wrong {
    fn fmt<W: fmt::Write>(&self, f: &mut fmt::Formatter<W>) -> fmt::Result {
        match *self {
            Wrong::NoRing => write!(f, "a blossom without a first blossom child"),
            Wrong::RingsOther(n, above) => {
                write!(f, "its ring comes to {n}, whose parent is {above}")
            }
            Wrong::RingsOuter(n) => {
                write!(f, "its ring comes to {n}, which is not inside a blossom")
            }
            Wrong::RingEnds(n) => write!(f, "its ring comes to {n}, which has no sibling"),
            Wrong::Endless(n) => { write!(f, "its ring does not come back to its first node, {n}") }
            Wrong::NotOnRing(n) => write!(f, "node {n} is inside it, and is not on its ring"),
            Wrong::RingOf(count) => write!(
                f,
                "its ring has {count} nodes, and is to have an odd number, at least 3"
            ),
            Wrong::InnerWithout(field) => write!(f, "inside a blossom, and its {field} is none"),
            Wrong::InnerChild(n) => write!(f, "inside a blossom, and has a first child, {n}"),
        }
    }
}

impl Finding for Wrong {
    fn other(&self) -> Option<Node> {
        match *self {
            Wrong::RingsOther(n, _)
            | Wrong::RingsOuter(n)
            | Wrong::RingEnds(n)
            | Wrong::Endless(n)
            | Wrong::NotOnRing(n)
            | Wrong::InnerChild(n) => Some(n),
            _ => None,
        }
    }
}

// Kept: beside wrong_child of S5, since each rule has sentences of its own.
fn wrong_ring_node(t: &Table, n: Node) -> Wrong {
    if !table::field::is_inner(t, n) {
        return Wrong::RingsOuter(n);
    }
    Wrong::RingsOther(n, table::field::parent(t, n))
}

// Where the way round the ring goes wrong.
fn wrong_way_round(t: &Table, b: Node, first: Node) -> Wrong {
    let mut here = first;
    for _ in 0..256 {
        if !s6_rings::is_inner_child(t, b, here) {
            return wrong_ring_node(t, here);
        }
        let after = table::field::sibling(t, here);
        if after.is_none() {
            return Wrong::RingEnds(here);
        }
        here = after;
    }
    Wrong::Endless(first)
}

fn wrong_ring(t: &Table, b: Node) -> Wrong {
    let first = table::field::get_first_blossom_child(t, b);
    if first.is_none() {
        return Wrong::NoRing;
    }
    let mut seen = [0u8; 256];
    let Some(count) = s6_rings::walk_ring_lent(t, &mut seen, b, first) else {
        return wrong_way_round(t, b, first);
    };
    match first_unmarked(&seen, |n| s6_rings::is_inner_child(t, b, n)) {
        Some(missing) => Wrong::NotOnRing(missing),
        None => Wrong::RingOf(count),
    }
}

fn wrong_inner(s: slot::Slot) -> Wrong {
    match field::missing_in_link(s.link) {
        Some(missing) => Wrong::InnerWithout(missing),
        None => Wrong::InnerChild(s.first_child),
    }
}

pub fn find(t: &Table, n: Node) -> Option<Wrong> {
    if !s6_rings::ring_fits(t, n) {
        return Some(wrong_ring(t, n));
    }
    Some(wrong_inner(table::get(t, n)))
}
