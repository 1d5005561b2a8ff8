// Nodes and vertices as people read them: a number, or the word none.
ghost use Rattle.std.specs.Prelude.{Some};
ghost use Rattle.slot.specs.Number.{none, no_vertex};
ghost use Rattle.slot.specs.Shown.{shown, word_or};

use crate::number::{Node, Vertex};
use std::fmt;

// Kept: each kind of number has a none of its own, so a number goes with the answer whether it is that one.
#[derive(Clone, Copy)]
struct Shown {
    number: u32,
    is_none: bool,
}

impl fmt::Display for Shown {
    ghost output = { λ s. Some (word_or s.is_none s.number) };

    fn fmt<W: fmt::Write>(&self, f: &mut fmt::Formatter<W>) -> fmt::Result {
        if self.is_none {
            return f.write_str("none");
        }
        let number = self.number;
        write!(f, "{number}")
    }
}

impl fmt::Display for Node {
    ghost output = { λ n. Some (shown none n.0) };

    fn fmt<W: fmt::Write>(&self, f: &mut fmt::Formatter<W>) -> fmt::Result {
        let shown = Shown {
            number: self.0 as u32,
            is_none: self.is_none(),
        };
        write!(f, "{shown}")
    }
}

impl fmt::Display for Vertex {
    ghost output = { λ v. Some (shown no_vertex v.0) };

    fn fmt<W: fmt::Write>(&self, f: &mut fmt::Formatter<W>) -> fmt::Result {
        let shown = Shown {
            number: self.0,
            is_none: self.is_none(),
        };
        write!(f, "{shown}")
    }
}
