// The rules of soundness that look at one slot, and passes over slots. The state is read once and decides what is asked.
ghost use Rattle.std.specs.Prelude.{◌≡◌, ◌+◌, ◌-◌};
ghost use Rattle.table.specs.Words.{table_of};
ghost use Rattle.rules.specs.Sound.{sizes_hold};
ghost use Rattle.sound_slots.specs.Links.{is_held, is_numbered};
ghost use Rattle.sound_walks.specs.Pass.{all_from};
ghost use Rattle.sound.specs.OneSlot.{slot_holds, is_vacant};

use slot::{Node, State};
use sound_slots::links::ring_placed;
use sound_slots::states::{grow_holds, inner_holds, shrink_holds, stay_holds};
use sound_slots::value;
use table::Table;

// One past the last blossom given out.
pub fn end_of(t: &Table) -> u32
    ensures { result ≡ (table_of t.now).begin + (table_of t.now).blossoms }
{
    let begin = table::counts::begin(t);
    let blossoms = table::counts::count_blossoms(t);
    begin as u32 + blossoms as u32
}

pub fn sizes_hold(t: &Table) -> bool
    ensures { result ≡ sizes_hold (table_of t.now) }
{
    let begin = table::counts::begin(t);
    let defects = table::counts::count_defects(t);
    1 <= begin && begin <= 256 && defects <= begin && end_of(t) <= 256
}

// All that is asked of a slot that is given out, with the numbers of insides.
#[tactic(auto, unfolding(crate::specs::OneSlot::slot_holds))]
pub fn slot_holds(t: &Table, lo: &[u16], hi: &[u16], n: Node) -> bool
    ensures { result ≡ slot_holds (table_of t.now) (is_held (table_of t.now) lo.now hi.now) (is_numbered lo.now) n.0 }
{
    let s = table::get(t, n);
    if !ring_placed(t, n, s.ring) {
        return false;
    }
    match s.state {
        State::Empty => value::is_bare(s),
        State::Inner => inner_holds(t, lo, hi, n, s),
        State::Stay => stay_holds(t, lo, hi, n, s),
        State::Grow => grow_holds(t, lo, hi, n, s),
        State::Shrink => shrink_holds(t, lo, hi, n, s),
        State::Damaged => false,
    }
}

// An empty slot, which stores none throughout.
#[tactic(auto, unfolding(crate::specs::OneSlot::is_vacant))]
fn is_vacant(t: &Table, n: Node) -> bool
    ensures { result ≡ is_vacant (table_of t.now) n.0 }
{
    let s = table::get(t, n);
    s.state == State::Empty && value::is_bare(s)
}

// The slots from one number to before another.
pub fn slots_hold(t: &Table, lo: &[u16], hi: &[u16], from: u16, to: u16) -> bool
    ensures { result ≡ all_from (slot_holds (table_of t.now) (is_held (table_of t.now) lo.now hi.now) (is_numbered lo.now)) (to - from) from }
{
    (from..to).all(|i| slot_holds(t, lo, hi, Node(i)))
}

pub fn all_vacant(t: &Table, from: u16, to: u16) -> bool
    ensures { result ≡ all_from (is_vacant (table_of t.now)) (to - from) from }
{
    (from..to).all(|i| is_vacant(t, Node(i)))
}
