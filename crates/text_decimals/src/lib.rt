// Text in fixed memory: pages of it, words copied, and numbers in decimal, written and read.
#![tactic(auto)]

ghost use Rattle.std.specs.Prelude.{◌≡◌};
ghost use Rattle.record.specs.Writing.{out_of, written};
ghost use Rattle.text_decimals.specs.Decimal.{decimal, number_within};

mod page;

pub use page::Page;

// Copies the bytes to pos, and returns the position after them; without room for all of them, nothing, and pos.
// Kept: lent bytes with a position, as write_decimal has them.
pub fn write_bytes(out: &mut [u8], pos: usize, bytes: &[u8]) -> usize
    ensures { out_of out.new result ≡ written (out_of out.old pos) bytes.now }
{
    if out.len() < bytes.len() {
        return pos;
    }
    if out.len() - bytes.len() < pos {
        return pos;
    }
    for (i, byte) in bytes.iter().enumerate() {
        out[pos + i] = *byte;
    }
    pos + bytes.len()
}

// Writes a number in decimal at pos, in the same way.
// Kept: docs/PROMISES.md promises this of lent bytes and a position.
pub fn write_decimal(out: &mut [u8], pos: usize, n: u64) -> usize
    ensures { out_of out.new result ≡ written (out_of out.old pos) (decimal n) }
{
    let mut digits = [0u8; 20];
    let count = io::decimal(n, &mut digits);
    write_bytes(out, pos, &digits[..count])
}

// The number that a word of digits stands for, where it is at most so large: none where the word is empty, or not digits alone.
#[tactic(auto, using(crate::proofs::Scan::says_empty, crate::proofs::Scan::says_word, crate::proofs::Scan::stops_below, crate::proofs::Scan::stops_above))]
pub fn read_decimal(word: &[u8], most: u32) -> Option<u32>
    ensures { result ≡ number_within most word.now }
{
    if word.is_empty() {
        return None;
    }
    let mut value: u32 = 0;
    for byte in word {
        let digit = match *byte {
            b'0'..=b'9' => *byte - b'0',
            _ => return None,
        };
        let next = value as u64 * 10 + digit as u64;
        if next > most as u64 {
            return None;
        }
        value = next as u32;
    }
    Some(value)
}
