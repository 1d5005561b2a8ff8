// A slot in words.
use slot::{Node, State};
use std::fmt;
use table::Table;
use table::layout::{SLOT_WORDS, SLOTS};

// What a mark says of a slot's node.
#[derive(Clone, Copy)]
struct Mark(u16);

impl fmt::Display for Mark {
    fn fmt<W: fmt::Write>(&self, f: &mut fmt::Formatter<W>) -> fmt::Result {
        match State::from(self.0) {
            State::Empty => write!(f, "empty"),
            State::Inner => write!(f, "inside a blossom"),
            State::Stay => write!(f, "Stay"),
            State::Grow => write!(f, "Grow"),
            State::Shrink => write!(f, "Shrink"),
            State::Damaged => write!(f, "mark {}", self.0),
        }
    }
}

// None past the last slot.
fn mark_at(t: &Table, n: Node) -> Option<Mark> {
    let at = n.0 as usize * SLOT_WORDS;
    if SLOTS * SLOT_WORDS <= at {
        return None;
    }
    Some(Mark(t[at]))
}

// A line that says what stands in a slot; past the last slot, nothing.
#[derive(Clone, Copy)]
pub struct Shown<'a> {
    pub table: &'a Table,
    pub slot: Node,
}

impl fmt::Display for Shown<'_> {
    fn fmt<W: fmt::Write>(&self, f: &mut fmt::Formatter<W>) -> fmt::Result {
        let Shown { table, slot } = *self;
        let Some(mark) = mark_at(table, slot) else {
            return Ok(());
        };
        let s = table::get(table, slot);
        let link = s.link;
        write!(f, "  slot {slot}: {mark}, parent {}", s.parent)?;
        write!(f, ", first child {}, sibling {}", s.first_child, s.sibling)?;
        write!(f, ", first blossom child {}", s.ring)?;
        write!(f, ", touch {}, peer touch {}", link.touch, link.peer_touch)?;
        writeln!(
            f,
            ", through {}, peer through {}",
            link.through, link.peer_through
        )
    }
}
