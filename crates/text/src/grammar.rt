// The words of each record's line, which are written and read alike.
use record::Kind;
use std::fmt;

// A word itself, or a number of the record and the place where it starts there.
#[derive(Clone, Copy)]
pub enum Word {
    Is(&'static str),
    Node(usize),
    Vertex(usize),
    Speed(usize),
}

use Word::{Is, Node, Speed, Vertex};

pub const SPEEDS: [&str; 3] = ["Stay", "Grow", "Shrink"];

const CONFLICT: [Word; 9] = [
    Is("conflict"),
    Node(4),
    Node(6),
    Is("touch"),
    Node(8),
    Node(10),
    Is("vertex"),
    Vertex(12),
    Vertex(16),
];

const VIRTUAL_CONFLICT: [Word; 8] = [
    Is("virtual"),
    Node(4),
    Is("touch"),
    Node(6),
    Is("vertex"),
    Vertex(8),
    Is("virtual"),
    Vertex(12),
];

const EXPANSION: [Word; 2] = [Is("expand"), Node(4)];

const RESET: [Word; 1] = [Is("reset")];

const LIST: [Word; 1] = [Is("list")];

const SPEED: [Word; 2] = [Node(4), Speed(6)];

const CREATE: [Word; 2] = [Is("create"), Node(4)];

const EXPAND: [Word; 2] = [Is("expanded"), Node(4)];

const END: [Word; 1] = [Is("end")];

const PAIR: [Word; 6] = [
    Is("pair"),
    Node(4),
    Node(6),
    Is("through"),
    Vertex(8),
    Vertex(12),
];

const VIRTUAL_PAIR: [Word; 6] = [
    Is("pair"),
    Node(4),
    Is("virtual"),
    Vertex(10),
    Is("through"),
    Vertex(6),
];

// The question for a partner, and the answer that is no record: nobody. Their one number stands for itself.
pub const QUESTION: [Word; 2] = [Is("partner"), Node(0)];

pub const NOBODY: [Word; 3] = [Is("pair"), Node(0), Is("nobody")];

// The heading of the listing.
pub const LISTING: [Word; 1] = [Is("listing")];

pub const REQUESTS: [Kind; 5] = [
    Kind::Conflict,
    Kind::VirtualConflict,
    Kind::Expansion,
    Kind::Reset,
    Kind::List,
];

pub const ANSWERS: [Kind; 6] = [
    Kind::Speed,
    Kind::Create,
    Kind::Expand,
    Kind::End,
    Kind::Pair,
    Kind::VirtualPair,
];

// An end is in these words where the request was accepted.
pub fn words_of(kind: Kind) -> &'static [Word] {
    match kind {
        Kind::Conflict => &CONFLICT,
        Kind::VirtualConflict => &VIRTUAL_CONFLICT,
        Kind::Expansion => &EXPANSION,
        Kind::Reset => &RESET,
        Kind::List => &LIST,
        Kind::Speed => &SPEED,
        Kind::Create => &CREATE,
        Kind::Expand => &EXPAND,
        Kind::End => &END,
        Kind::Pair => &PAIR,
        Kind::VirtualPair => &VIRTUAL_PAIR,
    }
}

// What a person is told to write there.
impl fmt::Display for Word {
    fn fmt<W: fmt::Write>(&self, f: &mut fmt::Formatter<W>) -> fmt::Result {
        match *self {
            Is(word) => write!(f, "the word {word}"),
            Node(_) => f.write_str("a node number, 0 to 65535, or none"),
            Vertex(_) => f.write_str("a vertex number, 0 to 4294967295, or none"),
            Speed(_) => f.write_str("the word Stay, Grow or Shrink"),
        }
    }
}
