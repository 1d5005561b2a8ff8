// Words of a line that a person wrote. Between two of them stand blanks: spaces, tabs, and the carriage return of a line's end.
// Capital letters are read as small ones.

// Fewer bytes than the library's white space, which has the form feed too.
fn is_blank(byte: u8) -> bool {
    matches!(byte, b' ' | b'\t' | b'\r')
}

pub fn is_indented(line: &[u8]) -> bool {
    line.first().is_some_and(|byte| is_blank(*byte))
}

// A line from its first word on.
pub fn from_word(line: &[u8]) -> &[u8] {
    match line.iter().position(|byte| !is_blank(*byte)) {
        Some(at) => &line[at..],
        None => &[],
    }
}

// The word that a line begins with, and what stands behind it.
pub fn split_word(line: &[u8]) -> (&[u8], &[u8]) {
    match line.iter().position(|byte| is_blank(*byte)) {
        Some(at) => line.split_at(at),
        None => (line, &[]),
    }
}

pub fn is_word(word: &[u8], other: &str) -> bool {
    word.eq_ignore_ascii_case(other.as_bytes())
}
