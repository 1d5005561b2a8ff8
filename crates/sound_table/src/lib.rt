// Lent words that hold a sound table, as types, and the check that comes before.
#![tactic(auto)]

pub mod words;

ghost use Rattle.sound_table.specs.Checks.{Checked};

use refusal::Refusal;
use table::Table;
pub use words::{SoundTable, SoundView};

// Refused by 1 where the table is not sound.
pub fn check<'a>(t: &'a Table) -> Result<SoundView<'a>, Refusal>
    ensures { Checked t.now result }
{
    if !sound::is_sound(t) {
        return Err(Refusal::NotSound);
    }
    Ok(SoundView { words: t })
}
