// Why the record that stands first on a tape is bad.
use crate::grammar::REQUESTS;
use crate::numbers::narrow_at;
use record::Kind;
use slot::Node;
use std::fmt;

// A number of two bytes is shown as a node's is, the largest as none.
#[derive(Clone, Copy)]
pub enum RecordFault {
    CutShort,
    NoRecord {
        kind: u16,
    },
    Answer {
        kind: u16,
    },
    // The length of a kind whose records have one length, or two: the second with padding.
    OtherLength {
        kind: u16,
        length: u16,
        exact: u16,
    },
    NeitherLength {
        kind: u16,
        length: u16,
        exact: u16,
        padded: u16,
    },
    NonzeroPadding {
        kind: u16,
        length: u16,
    },
}

impl RecordFault {
    // A tape that is no tape at all is told by its kind sooner than by its length.
    pub fn of(tape: &[u8]) -> RecordFault {
        if tape.len() < 4 {
            return RecordFault::CutShort;
        }
        let number = narrow_at(tape, 2);
        match Kind::try_from(number) {
            Err(_) => RecordFault::NoRecord { kind: number },
            Ok(kind) if REQUESTS.contains(&kind) => of_request(tape, kind),
            Ok(_) => RecordFault::Answer { kind: number },
        }
    }
}

fn of_request(tape: &[u8], request: Kind) -> RecordFault {
    let kind = u16::from(request);
    let length = narrow_at(tape, 0);
    let exact = request.length();
    let padded = exact.saturating_add(record::layout::padding_of(exact));
    if length != exact && length != padded {
        if exact == padded {
            return RecordFault::OtherLength {
                kind,
                length,
                exact,
            };
        }
        return RecordFault::NeitherLength {
            kind,
            length,
            exact,
            padded,
        };
    }
    if tape.len() < length as usize + 2 {
        return RecordFault::CutShort;
    }
    RecordFault::NonzeroPadding { kind, length }
}

impl fmt::Display for RecordFault {
    fn fmt<W: fmt::Write>(&self, f: &mut fmt::Formatter<W>) -> fmt::Result {
        match *self {
            RecordFault::CutShort => f.write_str("cut short"),
            RecordFault::NoRecord { kind } => write!(f, "no record has kind {}", Node(kind)),
            RecordFault::Answer { kind } => {
                write!(f, "kind {kind} is an answer's, and a tape holds requests")
            }
            RecordFault::OtherLength {
                kind,
                length,
                exact,
            } => write!(
                f,
                "length {} for kind {kind}, whose records have {exact}",
                Node(length)
            ),
            RecordFault::NeitherLength {
                kind,
                length,
                exact,
                padded,
            } => write!(
                f,
                "length {} for kind {kind}, whose records have {exact}, or {padded} with padding",
                Node(length)
            ),
            RecordFault::NonzeroPadding { kind, length } => write!(
                f,
                "length {length} for kind {kind}, with padding that is not zero"
            ),
        }
    }
}

// Where it stands, and why: as "at byte 262: cut short".
#[derive(Clone, Copy)]
pub struct BadRecord {
    pub at: u64,
    pub fault: RecordFault,
}

impl fmt::Display for BadRecord {
    fn fmt<W: fmt::Write>(&self, f: &mut fmt::Formatter<W>) -> fmt::Result {
        let BadRecord { at, fault } = *self;
        write!(f, "at byte {at}: {fault}")
    }
}
