// Standard input, in fixed memory.
ghost use Rattle.std.specs.Prelude.{◌≡◌, ◌≤◌, ◌↔◌, ℕ, List, [], length, take, drop, IsTrue};

use std::io::Read;
use std::marker::Model;

// Fills the bytes from a reader until there is no more room or no more input, and returns how many there are. A read that fails ends
// the input.
pub fn read_from(reader: &mut impl Read, bytes: &mut [u8]) -> usize
    ensures { result ≤ length bytes.new }
{
    let mut done = 0;
    // Kept: a read gives as many bytes as it likes, so there is nothing to count by.
    while done < bytes.len() {
        match reader.read(&mut bytes[done..]) {
            Ok(0) | Err(_) => break,
            Ok(n) => done += n,
        }
    }
    done
}

// The same of standard input.
pub fn read_input(rt: &HostRuntime, bytes: &mut [u8]) -> usize
    ensures { result ≤ length bytes.new }
{
    read_from(&mut rt.stdin(), bytes)
}

// The bytes of standard input that are still looked at, at most so many.
#[derive(Drop)]
pub struct Input<const N: usize> {
    bytes: [u8; N],
    length: usize,
}

impl<const N: usize> Model for Input<N> {
    ghost Value = { List ℕ };

    ghost view = { λ i. take i.length i.bytes };

    ghost invariant = { λ i. i.length ≤ N };
}

impl<const N: usize> Input<N> {
    // Kept: beside Page (text_decimals), which is written to and shown; a type for both would let an input be printed into.
    pub fn new() -> Self
        ensures { result ≡ [] }
    {
        Input {
            bytes: [0; N],
            length: 0,
        }
    }

    pub fn as_bytes(&self) -> &[u8]
        ensures { result.now ≡ self.now }
    {
        &self.bytes[..self.length]
    }

    // There is no more room: the input may go on.
    pub fn is_full(&self) -> bool
        ensures { IsTrue result ↔ (length self.now ≡ N) }
    {
        self.length == N
    }

    // Reads behind the bytes that are there, until there is no more room or no more input.
    pub fn fill(&mut self, rt: &HostRuntime)
        ensures { take (length self.old) self.new ≡ self.old }
    {
        let bytes = &mut self.bytes[..];
        self.length += read_input(rt, &mut bytes[self.length..]);
    }

    // Leaves out the first bytes.
    pub fn pass(&mut self, n: usize)
        ensures { self.new ≡ drop n self.old }
    {
        if self.length <= n {
            self.length = 0;
            return;
        }
        let bytes = &mut self.bytes[..];
        bytes.copy_within(n..self.length, 0);
        self.length -= n;
    }
}
