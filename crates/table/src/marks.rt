// Which slots a walk has passed, a mark for each. Past the last slot there is nothing to read and nothing to change. (The mark in the
// table's own words is a slot's state.)
ghost use Rattle.std.specs.Prelude.{◌≡◌, ℕ, List, map, set, cond};
ghost use Rattle.table.specs.Marks.{marked, unmarked};

use slot::Node;
use std::marker::Model;

// In lent bytes of any length, one for each slot: past their end there is nothing to read and nothing to change.
pub fn mark(seen: &mut [u8], n: Node)
    ensures { seen.new ≡ set seen.old n.0 1 }
{
    let i = n.0 as usize;
    if i < seen.len() {
        seen[i] = 1;
    }
}

pub fn is_marked(seen: &[u8], n: Node) -> bool
    ensures { result ≡ marked seen.now n.0 }
{
    let i = n.0 as usize;
    if i < seen.len() {
        return seen[i] == 1;
    }
    false
}

// The same of all 256 slots, in memory of its own.
#[derive(Drop)]
pub struct Marks {
    passed: [bool; 256],
}

// A mark is seen as the number 1, no mark as 0.
impl Model for Marks {
    ghost Value = { List ℕ };

    ghost view = { λ m. map (λ b. cond b 1 0) m.passed };
}

impl Marks {
    pub fn none() -> Marks
        ensures { result ≡ unmarked }
    {
        Marks {
            passed: [false; 256],
        }
    }

    pub fn mark(&mut self, n: Node)
        ensures { self.new ≡ set self.old n.0 1 }
    {
        let i = n.0 as usize;
        if i < 256 {
            self.passed[i] = true;
        }
    }

    pub fn is_marked(&self, n: Node) -> bool
        ensures { result ≡ marked self.now n.0 }
    {
        let i = n.0 as usize;
        if i < 256 {
            return self.passed[i];
        }
        false
    }
}
