// The arguments of a program.
use slot::Node;
use std::env::{Env, FillError};

// The longest word that is read: a path has at most so many bytes.
pub(crate) const LONGEST_WORD: usize = 4096;

fn is_given(rt: &HostRuntime, i: usize) -> bool {
    !matches!(rt.arg(i, &mut []), Err(FillError::NotPresent))
}

// An argument as a number up to some limit.
fn number_argument(rt: &HostRuntime, i: usize, most: u16) -> Option<u16> {
    let mut word = [0u8; LONGEST_WORD];
    let n = rt.arg(i, &mut word).ok()?;
    u16::try_from(text_decimals::read_decimal(&word[..n], most as u32)?).ok()
}

// begin: the first argument, or the usual one where there is none. None where it is no number up to 256.
pub fn begin(rt: &HostRuntime, usual: u16) -> Option<u16> {
    if !is_given(rt, 1) {
        return Some(usual);
    }
    number_argument(rt, 1, 256)
}

// The arguments behind the second are defects that are asked about: the place of the first, the place after the last, and the number at
// a place, which is none where it says no number.
pub const FIRST_ASKED: usize = 3;

pub fn asked_end(rt: &HostRuntime) -> usize {
    (0..usize::MAX)
        .find(|i| !is_given(rt, *i))
        .unwrap_or(usize::MAX)
}

// Kept: 65,535 names no defect, so what is no number is refused as such a number is.
pub fn asked(rt: &HostRuntime, i: usize) -> Node {
    number_argument(rt, i, Node::NONE.0).map_or(Node::NONE, Node)
}
