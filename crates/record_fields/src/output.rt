// Lent bytes, and the position where the next record goes. What a function does to an output is said in specs/Outputs.
ghost use Rattle.std.specs.Prelude.{◌≡◌, ◌∷◌, ◌+◌, ◌*◌, ◌≤◌, length};
ghost use Rattle.record.specs.Kinds.{length_of, number_of_kind};
ghost use Rattle.record.specs.Writing.{placed};
ghost use Rattle.record_fields.specs.Outputs.{Wrote, in_words};

use record::Kind;

// Kept: the table is no part of it, though most rules take both: the calls of `table` take the table alone, and would take it out again.
#[derive(Drop)]
pub struct Output<'a> {
    pub bytes: &'a mut [u8],
    pub pos: usize,
}

// Words of two bytes, the low byte first, one after another from at on.
fn place<const N: usize>(bytes: &mut [u8], at: usize, words: [u16; N])
    requires { at + 2 * N ≤ length bytes.old }
    ensures { bytes.new ≡ placed bytes.old at (in_words words.entry) }
{
    for i in 0..N {
        let [low, high] = words[i].to_le_bytes();
        bytes[at + 2 * i] = low;
        bytes[at + 2 * i + 1] = high;
    }
}

impl<'a> Output<'a> {
    // A record of this kind with these words for its fields, a vertex's low word first: its length and its kind come before them.
    pub fn put<const N: usize>(&mut self, kind: Kind, words: [u16; N])
        requires { N ≤ 8 }
        ensures { Wrote (in_words (length_of kind ∷ number_of_kind kind ∷ words.entry)) self.old self.new }
    {
        let size = 2 * N + 4;
        if self.bytes.len().saturating_sub(self.pos) < size {
            return;
        }
        place(self.bytes, self.pos, [kind.length(), u16::from(kind)]);
        place(self.bytes, self.pos + 4, words);
        self.pos += size;
    }
}
