// The soundness check (01, "The table", S1 to S8): yes exactly if the table is sound, for any words.
//
// Slots that are not given out must be empty; the others, the defects below `count_defects` and the blossoms from begin on, are
// judged one by one, with the numbers that a walk along rings gives, and then along child lists and ways up.
#![tactic(auto)]

pub mod slots;

ghost use Rattle.std.specs.Prelude.{◌≡◌};
ghost use Rattle.table.specs.Words.{table_of};
ghost use Rattle.rules.specs.Sound.{sound};
ghost use Rattle.sound_slots.specs.Links.{is_held, is_numbered};
ghost use Rattle.sound.specs.Given.{each_holds, numbered_hold, paths_hold};

use crate::slots::{all_vacant, slots_hold};
use sound_slots::stretches::Stretches;
use sound_walks::{children, numbers, ways};
use table::{Table, counts};

// Each slot by itself (S1 to S4, S7 and S8), touches by numbers.
// Kept: defects, begin and end are three numbers, as the definitions in specs/Given take them; a struct would be taken apart in each clause.
#[tactic(auto, unfolding(crate::specs::Given::each_holds))]
fn each_holds(t: &Table, lo: &[u16], hi: &[u16], defects: u16, begin: u16, end: u16) -> bool
    ensures { result ≡ each_holds (table_of t.now) (is_held (table_of t.now) lo.now hi.now) (is_numbered lo.now) defects begin end }
{
    slots_hold(t, lo, hi, 0, defects)
        && all_vacant(t, defects, begin)
        && slots_hold(t, lo, hi, begin, end)
        && all_vacant(t, end, 256)
}

// Rings, whose insides get numbers (S6), then each slot by itself.
// Kept: the three numbers, as in each_holds.
#[tactic(auto, unfolding(crate::specs::Given::numbered_hold, crate::specs::Given::numbers_from))]
fn numbered_hold(t: &Table, defects: u16, begin: u16, end: u16) -> bool
    ensures { result ≡ numbered_hold (table_of t.now) defects begin end }
{
    let mut inside = Stretches::none();
    numbers::number_outers(t, &mut inside, begin, end).is_some()
        && each_holds(
            t,
            inside.lo.as_slice(),
            inside.hi.as_slice(),
            defects,
            begin,
            end,
        )
}

// Child lists and ways up (S5, S7).
// Kept: the three numbers, as in each_holds.
#[tactic(auto, unfolding(crate::specs::Given::paths_hold, crate::specs::Given::given_pass))]
fn paths_hold(t: &Table, defects: u16, begin: u16, end: u16) -> bool
    ensures { result ≡ paths_hold (table_of t.now) defects begin end }
{
    let mut listed = [0u8; 256];
    let mut deep = [0u16; 256];
    if !children::lists_hold(t, &mut listed, 0, defects) {
        return false;
    }
    if !children::lists_hold(t, &mut listed, begin, end) {
        return false;
    }
    if !ways::ways_hold(t, &listed, &mut deep, 0, defects) {
        return false;
    }
    ways::ways_hold(t, &listed, &mut deep, begin, end)
}

pub fn is_sound(t: &Table) -> bool
    ensures { result ≡ sound (table_of t.now) }
{
    if !slots::sizes_hold(t) {
        return false;
    }
    let defects = counts::count_defects(t);
    let begin = counts::begin(t);
    let end = begin + counts::count_blossoms(t);
    numbered_hold(t, defects, begin, end) && paths_hold(t, defects, begin, end)
}
