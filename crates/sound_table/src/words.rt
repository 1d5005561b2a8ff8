// Lent words that hold a sound table. Whoever makes such a value, or changes its words, shows that the table in them is sound.
ghost use Rattle.std.specs.Prelude.{◌≡◌, true};
ghost use Rattle.table.specs.Words.{table_of};
ghost use Rattle.rules.specs.Sound.{sound};

use table::Table;

// Words that a call may change. No function gives words that it was lent back as one, or refuses: whoever lent them would not learn what
// became of them where the table is not sound. So a caller asks `check` first, and makes the value of the words itself.
#[derive(Drop)]
pub struct SoundTable<'a> {
    pub words: &'a mut Table,
    pub ghost is_sound: { sound (table_of words.now) ≡ true },
}

// Words that are only read.
#[derive(Clone, Copy, Drop)]
pub struct SoundView<'a> {
    pub words: &'a Table,
    pub ghost is_sound: { sound (table_of words.now) ≡ true },
}

impl<'a> SoundTable<'a> {
    // The same words, to read.
    pub fn view<'b>(&'b self) -> SoundView<'b>
        ensures { result.words.now ≡ self.now.words.now }
    {
        SoundView { words: self.words }
    }
}
