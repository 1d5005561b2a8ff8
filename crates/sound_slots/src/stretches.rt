// The numbers of what is inside blossoms, by which touches are judged without a climb (S8): a defect's number, or where a blossom's stretch
// of numbers begins, stands in `lo`, one past the stretch's last in `hi`; 0 stands for none.
ghost use Rattle.std.specs.Prelude.{◌≡◌, replicate};
ghost use Rattle.table.specs.Words.{table_of};
ghost use Rattle.sound_slots.specs.Links.{is_held, is_numbered};

use crate::links::touch_holds;
use slot::Node;
use table::Table;
use table::numbers::SlotNumbers;

// Kept: 0 in a list stands for none, as the definitions is_held, is_numbered and ring_from say, which sound/proofs/InsideByNumbers speaks of.
#[derive(Drop)]
pub struct Stretches {
    pub lo: SlotNumbers,
    pub hi: SlotNumbers,
}

impl Stretches {
    pub fn none() -> Stretches
        ensures lo { result.lo ≡ replicate 256 0 }
        ensures hi { result.hi ≡ replicate 256 0 }
    {
        Stretches {
            lo: SlotNumbers::filled(0),
            hi: SlotNumbers::filled(0),
        }
    }

    pub fn is_numbered(&self, n: Node) -> bool
        ensures { result ≡ is_numbered self.now.lo n.0 }
    {
        self.lo.get(n) != 0
    }

    // The test of a touch, with both lists lent.
    pub fn holds(&self, t: &Table, x: Node, touch: Node) -> bool
        ensures { result ≡ is_held (table_of t.now) self.now.lo self.now.hi x.0 touch.0 }
    {
        touch_holds(t, self.lo.as_slice(), self.hi.as_slice(), x, touch)
    }
}
