// What is wrong with a line that is no request: where, and what was expected there.
use crate::grammar::Word;
use std::fmt;

#[derive(Clone, Copy)]
pub enum Expected {
    // The first word of any request.
    Request,
    Word(Word),
    // No more words.
    End,
}

// The first place at which a line is no request, counted from 0.
#[derive(Clone, Copy)]
pub struct Fault {
    pub place: usize,
    pub expected: Expected,
}

impl Fault {
    // The fault of a line that goes wrong where its rest begins.
    pub fn before(line: &[u8], rest: &[u8], expected: Expected) -> Fault {
        Fault {
            place: line.len().saturating_sub(rest.len()),
            expected,
        }
    }
}

impl fmt::Display for Expected {
    fn fmt<W: fmt::Write>(&self, f: &mut fmt::Formatter<W>) -> fmt::Result {
        match *self {
            Expected::Request => {
                f.write_str("a request: conflict, virtual, expand, reset or list")
            }
            Expected::Word(word) => write!(f, "{word}"),
            Expected::End => f.write_str("the end of the line"),
        }
    }
}

// Columns are counted from 1. A line of a text has fewer than 65,536 bytes; where as many are read as one, the place behind them is told
// as their last column.
fn column(place: usize) -> usize {
    if place < 65536 {
        return place + 1;
    }
    place
}

// As "column 10: expected the word touch".
impl fmt::Display for Fault {
    fn fmt<W: fmt::Write>(&self, f: &mut fmt::Formatter<W>) -> fmt::Result {
        let column = column(self.place);
        let expected = self.expected;
        write!(f, "column {column}: expected {expected}")
    }
}
