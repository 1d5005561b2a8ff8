// What S2 finds wrong at a slot: the first of its pointers that names no present slot.
use crate::field::Field;
use crate::finding::Finding;
use fault_rules::s2_pointers::names_present;
use slot::Node;
use std::fmt;
use table::Table;

// A pointer, and the slot that it names.
#[derive(Clone, Copy)]
pub struct Wrong {
    field: Field,
    to: Node,
}

impl fmt::Display for Wrong {
    fn fmt<W: fmt::Write>(&self, f: &mut fmt::Formatter<W>) -> fmt::Result {
        write!(f, "its {} is {}, ", self.field, self.to)?;
        f.write_str(if 256 <= self.to.0 {
            "past the last slot, 255"
        } else {
            "an empty slot"
        })
    }
}

impl Finding for Wrong {}

pub fn find(t: &Table, n: Node) -> Option<Wrong> {
    let s = table::get(t, n);
    let pointers = [
        (Field::Parent, s.parent),
        (Field::FirstChild, s.first_child),
        (Field::Sibling, s.sibling),
        (Field::FirstBlossomChild, s.ring),
    ];
    for (field, to) in pointers {
        if !names_present(t, to) {
            return Some(Wrong { field, to });
        }
    }
    None
}
