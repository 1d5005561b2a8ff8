// Reset, on a table that is known to be sound: only slots that were given out can store anything (S1), so only those are emptied.
ghost use Rattle.std.specs.Prelude.{◌≡◌};
ghost use Rattle.table.specs.Words.{table_of};
ghost use Rattle.table.specs.Making.{emptied};
ghost use Rattle.sound_table.specs.Checks.{SameWords};

use sound_table::SoundTable;

// 01: "Reset empties all slots and zeroes both counts." begin stays.
pub fn reset(t: &mut SoundTable)
    ensures { (table_of t.new.words.now ≡ emptied (table_of t.old.words.now)) × SameWords t.old t.new }
{
    let defects = table::counts::count_defects(t.words);
    let begin = table::counts::begin(t.words);
    let end = table::counts::blossom_end(t.words);
    crate::clear_slots(t.words, 0, defects);
    crate::clear_slots(t.words, begin, end);
    table::counts::set_count_defects(t.words, 0);
    table::counts::set_count_blossoms(t.words, 0);
}
