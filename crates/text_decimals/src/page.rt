// Lines in fixed memory: text is written to a page, and the page to standard output.
ghost use Rattle.std.specs.Prelude.{◌≡◌, ◌≤◌, ℕ, List, [], length, take};
ghost use Rattle.text_decimals.specs.Page.{with_piece, ShownOn};

use std::fmt;
use std::marker::Model;

// The bytes written so far, of at most so many.
#[derive(Drop)]
pub struct Page<const N: usize> {
    bytes: [u8; N],
    length: usize,
}

impl<const N: usize> Model for Page<N> {
    ghost Value = { List ℕ };

    ghost view = { λ p. take p.length p.bytes };

    ghost invariant = { λ p. p.length ≤ N };
}

impl<const N: usize> Page<N> {
    pub fn new() -> Self
        ensures { result ≡ [] }
    {
        Page {
            bytes: [0; N],
            length: 0,
        }
    }

    pub fn as_bytes(&self) -> &[u8]
        ensures text { result.now ≡ self.now }
        ensures within { length result.now ≤ N }
    {
        &self.bytes[..self.length]
    }

    // Bytes of any kind behind those that are there; without room for all of them, nothing.
    pub fn push(&mut self, piece: &[u8])
        ensures { self.new ≡ with_piece N self.old piece.now }
    {
        if piece.len() <= N - self.length {
            let end = self.length + piece.len();
            let bytes = &mut self.bytes[..];
            bytes[self.length..end].copy_from_slice(piece);
            self.length = end;
        }
    }

    // What a value shows as text, in pieces, each of which is left out where there is no room for all of it. A value that fails to show
    // itself leaves an empty page, since nothing is known of what it wrote before; none of the programs' values does.
    pub fn add<D: fmt::Display + Drop>(&mut self, what: D)
        ensures { ShownOn N self.old (D.output what) self.new }
    {
        if fmt::Write::write(self, what).is_err() {
            self.length = 0;
        }
    }
}

impl<const N: usize> fmt::Write for Page<N> {
    ghost write_str_gives = { λ before piece after. after ≡ with_piece N before piece };

    fn write_str(&mut self, s: &str) -> fmt::Result {
        self.push(s.as_bytes());
        Ok(())
    }
}
