// What S4 finds wrong at an outer node with a parent or a child.
use crate::field;
use crate::field::Field;
use crate::finding::Finding;
use slot::{Node, Slot, State};
use std::fmt;
use table::Table;

#[derive(Clone, Copy)]
pub enum Wrong {
    // The field, and the node that it names.
    StaysInTree(Field, Node),
    RootStores(Field),
    PlusWithout(Field),
    PlusSibling(Node),
    PlusParent(Node),
    MinusWithout(Field),
    MinusParent(Node),
    // The first child, and its sibling.
    MinusChildren(Node, Node),
}

impl fmt::Display for Wrong {
    fn fmt<W: fmt::Write>(&self, f: &mut fmt::Formatter<W>) -> fmt::Result {
        match *self {
            Wrong::StaysInTree(field, n) => write!(f, "Stay, and has a {field}, {n}"),
            Wrong::RootStores(field) => {
                write!(f, "a root (Grow, without parent), and stores a {field}")
            }
            Wrong::PlusWithout(field) => {
                write!(f, "a + node (Grow, with a parent), and its {field} is none")
            }
            Wrong::PlusSibling(n) => {
                write!(f, "a + node (Grow, with a parent), and has a sibling, {n}")
            }
            Wrong::PlusParent(n) => write!(
                f,
                "a + node (Grow, with a parent), and its parent, {n}, is not Shrink"
            ),
            Wrong::MinusWithout(field) => {
                write!(f, "a - node (Shrink), and its {field} is none")
            }
            Wrong::MinusParent(n) => {
                write!(f, "a - node (Shrink), and its parent, {n}, is not Grow")
            }
            Wrong::MinusChildren(first, second) => write!(
                f,
                "a - node (Shrink), and its first child, {first}, has a sibling, {second}"
            ),
        }
    }
}

impl Finding for Wrong {
    fn other(&self) -> Option<Node> {
        match *self {
            Wrong::StaysInTree(_, n)
            | Wrong::PlusSibling(n)
            | Wrong::PlusParent(n)
            | Wrong::MinusParent(n)
            | Wrong::MinusChildren(n, _) => Some(n),
            _ => None,
        }
    }
}

fn wrong_stay(s: Slot) -> Wrong {
    if !s.parent.is_none() {
        return Wrong::StaysInTree(Field::Parent, s.parent);
    }
    Wrong::StaysInTree(Field::FirstChild, s.first_child)
}

fn wrong_plus(s: Slot) -> Wrong {
    if let Some(missing) = field::missing_in_link(s.link) {
        Wrong::PlusWithout(missing)
    } else if !s.sibling.is_none() {
        Wrong::PlusSibling(s.sibling)
    } else {
        Wrong::PlusParent(s.parent)
    }
}

fn wrong_grow(s: Slot) -> Option<Wrong> {
    if s.parent.is_none() {
        return field::stored_beside(s).map(Wrong::RootStores);
    }
    Some(wrong_plus(s))
}

fn missing_of_minus(s: Slot) -> Option<Field> {
    if s.parent.is_none() {
        Some(Field::Parent)
    } else if s.first_child.is_none() {
        Some(Field::FirstChild)
    } else {
        field::missing_in_link(s.link)
    }
}

// A − node: it lacks something, or is at a parent or has a child that it should not have.
fn wrong_minus(t: &Table, s: Slot) -> Wrong {
    if let Some(missing) = missing_of_minus(s) {
        Wrong::MinusWithout(missing)
    } else if table::field::state(t, s.parent) != State::Grow {
        Wrong::MinusParent(s.parent)
    } else {
        Wrong::MinusChildren(s.first_child, table::field::sibling(t, s.first_child))
    }
}

pub fn find(t: &Table, n: Node) -> Option<Wrong> {
    let s = table::get(t, n);
    match s.state {
        State::Stay => Some(wrong_stay(s)),
        State::Grow => wrong_grow(s),
        State::Shrink => Some(wrong_minus(t, s)),
        _ => None,
    }
}
