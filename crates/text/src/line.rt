// One line, read as a request.
use crate::faults::Expected;
use crate::grammar::{LISTING, NOBODY, QUESTION, Word};
use crate::numbers::put;
use crate::words::{from_word, is_indented, is_word, split_word};
use crate::{Fault, grammar};
use record::Kind;
use slot::{Node, Vertex};

// More than the record of any request fills.
pub const RECORD_ROOM: usize = 24;

fn read_number(word: &[u8], none: u32) -> Option<u32> {
    if is_word(word, "none") {
        return Some(none);
    }
    text_decimals::read_decimal(word, none)
}

// The bytes of a word's number go to their place in the record.
fn read_node(word: &[u8], record: &mut [u8], at: usize) -> Option<()> {
    let number = u16::try_from(read_number(word, Node::NONE.0 as u32)?).ok()?;
    put(record, at, &number.to_le_bytes());
    Some(())
}

fn read_vertex(word: &[u8], record: &mut [u8], at: usize) -> Option<()> {
    let number = read_number(word, Vertex::NONE.0)?;
    put(record, at, &number.to_le_bytes());
    Some(())
}

// Whether a word is the expected one; a number goes to its place in the record.
fn read_word(word: &[u8], expected: Word, record: &mut [u8]) -> bool {
    match expected {
        Word::Is(own) => is_word(word, own),
        Word::Node(at) => read_node(word, record, at).is_some(),
        Word::Vertex(at) => read_vertex(word, record, at).is_some(),
        Word::Speed(_) => grammar::SPEEDS.iter().any(|speed| is_word(word, speed)),
    }
}

// Reads a line that is to be in these words, and no more.
fn read_words(line: &[u8], words: &[Word], record: &mut [u8]) -> Result<(), Fault> {
    let mut rest = line;
    for expected in words {
        rest = from_word(rest);
        let (word, behind) = split_word(rest);
        if !read_word(word, *expected, record) {
            return Err(Fault::before(line, rest, Expected::Word(*expected)));
        }
        rest = behind;
    }
    rest = from_word(rest);
    if rest.is_empty() {
        return Ok(());
    }
    Err(Fault::before(line, rest, Expected::End))
}

fn is_in_words(line: &[u8], words: &[Word]) -> bool {
    let mut record = [0u8; RECORD_ROOM];
    read_words(line, words, &mut record).is_ok()
}

// The request whose line begins with a word.
fn request_kind(first: &[u8]) -> Option<Kind> {
    grammar::REQUESTS
        .iter()
        .copied()
        .find(|kind| match grammar::words_of(*kind).first() {
            Some(Word::Is(name)) => is_word(first, name),
            _ => false,
        })
}

// The length and the kind stand first in a record. Returns how many bytes it fills.
fn put_header(record: &mut [u8], kind: Kind) -> usize {
    let length = kind.length();
    put(record, 0, &length.to_le_bytes());
    put(record, 2, &u16::from(kind).to_le_bytes());
    2 + length as usize
}

fn read_request(line: &[u8], kind: Kind, record: &mut [u8]) -> Result<usize, Fault> {
    read_words(line, grammar::words_of(kind), record)?;
    Ok(put_header(record, kind))
}

// Answers are told from requests by their words, and are passed over only where they are indented, as they are printed. What a
// refusal says after its first word differs from one to the next.
fn is_indented_answer(line: &[u8], first: &[u8]) -> bool {
    is_indented(line)
        && (is_word(first, "refused")
            || is_in_words(line, &NOBODY)
            || grammar::ANSWERS
                .iter()
                .any(|kind| is_in_words(line, grammar::words_of(*kind))))
}

fn is_passed(line: &[u8], first: &[u8]) -> bool {
    first.is_empty()
        || first[0] == b'#'
        || is_in_words(line, &LISTING)
        || is_in_words(line, &QUESTION)
        || is_indented_answer(line, first)
}

// Reads a line, without its line feed, and returns the record of its request, made in the room as far as there is room; or none where
// there is nothing to read: at an empty line, a comment, an answer, the heading of the listing, or a question for a partner.
pub fn read_line<'a>(line: &[u8], room: &'a mut [u8]) -> Result<Option<&'a [u8]>, Fault> {
    let rest = from_word(line);
    let (first, _) = split_word(rest);
    match request_kind(first) {
        Some(kind) => {
            let size = read_request(line, kind, room)?;
            let made = size.min(room.len());
            Ok(Some(&room[..made]))
        }
        None if is_passed(line, first) => Ok(None),
        None => Err(Fault::before(line, rest, Expected::Request)),
    }
}
