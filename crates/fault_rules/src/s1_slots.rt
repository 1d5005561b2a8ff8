// S1, at a slot: the sizes, at slot 0; a mark that is one of the five; a node within its count; an empty slot that stores none
// throughout; a first blossom child of present blossoms alone.
ghost use Rattle.std.specs.Prelude.{◌≡◌};
ghost use Rattle.table.specs.Words.{table_of};
ghost use Rattle.rules.specs.Sound.{is_given, s1};

use slot::{Node, State};
use sound::slots::{end_of, sizes_hold};
use sound_slots::value;
use table::{Table, counts, field};

fn is_given(t: &Table, n: Node) -> bool
    ensures { result ≡ is_given (table_of t.now) n.0 }
{
    n.0 < counts::count_defects(t) || (field::is_blossom(t, n) && (n.0 as u32) < end_of(t))
}

#[tactic(auto, unfolding(rules::specs::Sound::s1))]
pub fn holds(t: &Table, n: Node) -> bool
    ensures { result ≡ s1 (table_of t.now) n.0 }
{
    let s = table::get(t, n);
    let present = s.state.is_present();
    (n.0 != 0 || sizes_hold(t))
        && s.state != State::Damaged
        && (!present || is_given(t, n))
        && (present || value::is_bare(s))
        && (s.ring.is_none() || (field::is_blossom(t, n) && present))
}
