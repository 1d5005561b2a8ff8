// Records in words: a line for each.
ghost use Rattle.std.specs.Iterator.{at_most};
ghost use Rattle.std.specs.Prelude.{length};

use crate::grammar;
use crate::grammar::Word;
use crate::numbers::{narrow_at, wide_at};
use record::Kind;
use slot::{Node, Vertex};
use std::fmt;

// A word as it stands in the line of a record.
#[derive(Clone, Copy)]
struct Filled<'a> {
    word: Word,
    record: &'a [u8],
}

impl fmt::Display for Filled<'_> {
    fn fmt<W: fmt::Write>(&self, f: &mut fmt::Formatter<W>) -> fmt::Result {
        match self.word {
            Word::Is(word) => f.write_str(word),
            Word::Node(at) => write!(f, "{}", Node(narrow_at(self.record, at))),
            Word::Vertex(at) => write!(f, "{}", Vertex(wide_at(self.record, at))),
            Word::Speed(at) => f.write_str(speed(narrow_at(self.record, at))),
        }
    }
}

fn speed(number: u16) -> &'static str {
    grammar::SPEEDS.get(number as usize).copied().unwrap_or("")
}

// Words with a blank between two of them; their numbers are a record's.
#[derive(Clone, Copy)]
pub(crate) struct Words<'a> {
    pub words: &'static [Word],
    pub record: &'a [u8],
}

impl fmt::Display for Words<'_> {
    fn fmt<W: fmt::Write>(&self, f: &mut fmt::Formatter<W>) -> fmt::Result {
        let record = self.record;
        let mut between = "";
        for word in self.words {
            let filled = Filled {
                word: *word,
                record,
            };
            write!(f, "{between}{filled}")?;
            between = " ";
        }
        Ok(())
    }
}

// What an end record says: 0 or the number of a refusal, and its side, 0 for neither.
#[derive(Clone, Copy, PartialEq, Eq)]
pub struct End {
    pub number: u16,
    pub side: u16,
}

// Why, for each number of a refusal from 1 on (01, "Numbers given back").
const REFUSALS: [&str; 13] = [
    "table not sound; ./boltclover fault TABLE says why",
    "no room for the record",
    "no such node, or a vertex is none",
    "a named node is not outer",
    "both nodes are one",
    "a touch is not a defect inside its node",
    "no named node is Grow, or one is Shrink",
    "no slot left for a blossom",
    "command room below 4096 bytes",
    "listing room below 16 bytes for each present defect",
    "node to expand is not a present - blossom",
    "bad record",
    "begin outside 1 to 256",
];

impl End {
    fn of(record: &[u8]) -> End {
        End {
            number: narrow_at(record, 4),
            side: narrow_at(record, 6),
        }
    }

    // In words, where it is a refusal.
    fn reason(self) -> Option<&'static str> {
        REFUSALS
            .get((self.number as usize).checked_sub(1)?)
            .copied()
    }
}

// As "end", "refused 5" or "refused 3 at side 1".
impl fmt::Display for End {
    fn fmt<W: fmt::Write>(&self, f: &mut fmt::Formatter<W>) -> fmt::Result {
        let End { number, side } = *self;
        if number == 0 {
            return f.write_str("end");
        }
        write!(f, "refused {number}")?;
        if side == 0 {
            return Ok(());
        }
        write!(f, " at side {side}")
    }
}

// The line of a record, with its line feed; an answer's is indented.
#[derive(Clone, Copy)]
struct Line<'a>(&'a [u8]);

impl fmt::Display for Line<'_> {
    fn fmt<W: fmt::Write>(&self, f: &mut fmt::Formatter<W>) -> fmt::Result {
        let record = self.0;
        let end = End::of(record);
        match (Kind::try_from(narrow_at(record, 2)), end.reason()) {
            (Err(_), _) => Ok(()),
            (Ok(Kind::End), Some(reason)) => writeln!(f, "  {end}: {reason}"),
            (Ok(kind), _) => {
                let words = Words {
                    words: grammar::words_of(kind),
                    record,
                };
                if grammar::REQUESTS.contains(&kind) {
                    return writeln!(f, "{words}");
                }
                writeln!(f, "  {words}")
            }
        }
    }
}

// The lines of the records that stand one after another in bytes.
#[derive(Clone, Copy, Drop)]
struct Lines<'a>(&'a [u8]);

impl<'a> Iterator for Lines<'a> {
    type Item = Line<'a>;

    ghost remaining = { λ s. at_most (length s.0.now) };

    fn next(&mut self) -> Option<Line<'a>> {
        let size = 2 + narrow_at(self.0, 0) as usize;
        let (record, rest) = self.0.split_at_checked(size)?;
        self.0 = rest;
        Some(Line(record))
    }
}

// All lines of a run of records.
#[derive(Clone, Copy)]
pub struct Records<'a>(pub &'a [u8]);

impl fmt::Display for Records<'_> {
    fn fmt<W: fmt::Write>(&self, f: &mut fmt::Formatter<W>) -> fmt::Result {
        for line in Lines(self.0) {
            write!(f, "{line}")?;
        }
        Ok(())
    }
}
