// begin and the two counts, in the table's last three words.
// Kept: a getter and a setter for each, and not one of each with a parameter: every one of the six reads or writes a word by its name, so a
// function over an enum of the counts would be longer, and its calls no plainer.
ghost use Rattle.std.specs.Prelude.{◌≡◌};
ghost use Rattle.table.specs.Words.{table_of};
ghost use Rattle.table.specs.Counts.{with_begin, with_defects, with_blossoms, blossom_end};

use crate::{Table, layout};

// `blossom_begin`: the first slot that is no defect's.
#[tactic(auto, unfolding(crate::specs::Words::table_of))]
pub fn begin(t: &Table) -> u16
    ensures { result ≡ (table_of t.now).begin }
{
    t[layout::BEGIN]
}

#[tactic(auto, unfolding(crate::specs::Words::table_of))]
pub fn count_defects(t: &Table) -> u16
    ensures { result ≡ (table_of t.now).defects }
{
    t[layout::COUNT_DEFECTS]
}

#[tactic(auto, unfolding(crate::specs::Words::table_of))]
pub fn count_blossoms(t: &Table) -> u16
    ensures { result ≡ (table_of t.now).blossoms }
{
    t[layout::COUNT_BLOSSOMS]
}

// One past the last blossom slot given out.
#[tactic(auto, unfolding(crate::specs::Counts::blossom_end))]
pub fn blossom_end(t: &Table) -> u16
    ensures { result ≡ blossom_end (table_of t.now) }
{
    begin(t).saturating_add(count_blossoms(t)).min(256)
}

#[tactic(auto, using(crate::proofs::WordsOfCounts::begin_words))]
pub fn set_begin(t: &mut Table, n: u16)
    ensures { table_of t.new ≡ with_begin (table_of t.old) n }
{
    t[layout::BEGIN] = n;
}

#[tactic(auto, using(crate::proofs::WordsOfCounts::defects_words))]
pub fn set_count_defects(t: &mut Table, n: u16)
    ensures { table_of t.new ≡ with_defects (table_of t.old) n }
{
    t[layout::COUNT_DEFECTS] = n;
}

#[tactic(auto, using(crate::proofs::WordsOfCounts::blossoms_words))]
pub fn set_count_blossoms(t: &mut Table, n: u16)
    ensures { table_of t.new ≡ with_blossoms (table_of t.old) n }
{
    t[layout::COUNT_BLOSSOMS] = n;
}
