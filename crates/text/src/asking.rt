// The question for a partner, and the answer that is no record: nobody. They are printed, and passed over in a text, as answers are.
use crate::grammar::{NOBODY, QUESTION, Word};
use crate::shown::Words;
use slot::Node;
use std::fmt;

#[derive(Clone, Copy)]
pub struct Question(pub Node);

#[derive(Clone, Copy)]
pub struct Nobody(pub Node);

// The words, with the node at their mark, behind so many blanks.
fn of_node<W: fmt::Write>(
    f: &mut fmt::Formatter<W>,
    blanks: &str,
    words: &'static [Word],
    node: Node,
) -> fmt::Result {
    let number = node.0.to_le_bytes();
    let words = Words {
        words,
        record: &number,
    };
    writeln!(f, "{blanks}{words}")
}

impl fmt::Display for Question {
    fn fmt<W: fmt::Write>(&self, f: &mut fmt::Formatter<W>) -> fmt::Result {
        of_node(f, "", &QUESTION, self.0)
    }
}

impl fmt::Display for Nobody {
    fn fmt<W: fmt::Write>(&self, f: &mut fmt::Formatter<W>) -> fmt::Result {
        of_node(f, "  ", &NOBODY, self.0)
    }
}
