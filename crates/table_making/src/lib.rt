// Making a table and emptying one (01, "The table", port 2).
#![tactic(auto)]

pub mod resetting;

ghost use Rattle.std.specs.Prelude.{◌≡◌, ◌-◌};
ghost use Rattle.table.specs.Words.{table_of};
ghost use Rattle.table.specs.Making.{emptied, Made};
ghost use Rattle.table_making.specs.Cleared.{cleared};

use refusal::{Answer, Refusal};
use slot::{Node, Slot};
use table::Table;

// Empties the slots from one up to another (not with it).
pub fn clear_slots(t: &mut Table, from: u16, to: u16)
    ensures { table_of t.new ≡ cleared (to - from) from (table_of t.old) }
{
    for i in from..to {
        table::storing::store(t, Node(i), Slot::empty());
    }
}

// Empties all slots and zeroes both counts; begin stays.
fn empty_table(t: &mut Table)
    ensures { table_of t.new ≡ emptied (table_of t.old) }
{
    clear_slots(t, 0, 256);
    table::counts::set_count_defects(t, 0);
    table::counts::set_count_blossoms(t, 0);
}

// A fresh table with this begin in the lent words, or refusal 13 and the words as they were.
pub fn make(t: &mut Table, begin: u16) -> Answer
    ensures { Made t.old begin result t.new }
{
    if begin < 1 || 256 < begin {
        return Err(Refusal::BadBegin.into());
    }
    table::counts::set_begin(t, begin);
    empty_table(t);
    Ok(0)
}
