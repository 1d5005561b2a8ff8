// A slot, or one of its pointers, stored in the words that the caller lends. All are total: past the last slot there is nothing to change.
ghost use Rattle.std.specs.Prelude.{◌≡◌, ◌+◌, ◌≤◌, length};
ghost use Rattle.lists.specs.Stores.{stores};
ghost use Rattle.slot.specs.Slot.{slot_of, link_of};
ghost use Rattle.table.specs.Table.{at, put};
ghost use Rattle.table.specs.Fields.{pointer_replaced};
ghost use Rattle.table.specs.Layout.{pointer_place};
ghost use Rattle.table.specs.Words.{slot_words, link_words, table_of};

use crate::{Table, layout};
use slot::{Link, Node, Slot};

// A link's six words, from b on.
fn write_link(t: &mut [u16], b: usize, link: Link)
    requires { b + 6 ≤ length t.old }
    ensures { t.new ≡ stores t.old b 0 (link_words (link_of link)) }
{
    t[b + 0] = link.touch.0;
    t[b + 1] = link.peer_touch.0;
    t[b + 2] = link.through.low_word();
    t[b + 3] = link.through.high_word();
    t[b + 4] = link.peer_through.low_word();
    t[b + 5] = link.peer_through.high_word();
}

// A slot's eleven words, from b on.
fn write_slot(t: &mut [u16], b: usize, s: Slot)
    requires { b + 11 ≤ length t.old }
    ensures { t.new ≡ stores t.old b 0 (slot_words (slot_of s)) }
{
    t[b + 0] = u16::from(s.state);
    t[b + 1] = s.parent.0;
    t[b + 2] = s.first_child.0;
    t[b + 3] = s.sibling.0;
    t[b + 4] = s.ring.0;
    write_link(t, b + layout::LINK, s.link);
}

// Sets slot n; past the table, nothing.
pub fn store(t: &mut Table, n: Node, s: Slot)
    ensures { table_of t.new ≡ put (table_of t.old) n.0 (slot_of s) }
{
    let i = n.0 as usize;
    if i < layout::SLOTS {
        write_slot(t, i * layout::SLOT_WORDS, s);
    }
}

// The pointers of a slot that rules set alone.
#[derive(Clone, Copy, PartialEq, Eq)]
pub enum Pointer {
    Parent,
    FirstChild,
    Sibling,
}

impl Pointer {
    // Its word in the slot.
    fn word(self) -> usize
        ensures { result ≡ pointer_place self }
    {
        match self {
            Pointer::Parent => layout::PARENT,
            Pointer::FirstChild => layout::FIRST_CHILD,
            Pointer::Sibling => layout::SIBLING,
        }
    }
}

// One pointer of slot n set, and none of its other words touched; past the table, nothing.
#[tactic(auto, using(crate::proofs::WordsOfFields::put_pointer, crate::proofs::WordsOfSlots::put_past))]
pub fn store_pointer(t: &mut Table, n: Node, pointer: Pointer, to: Node)
    ensures { table_of t.new ≡ put (table_of t.old) n.0 (pointer_replaced pointer to.0 (at (table_of t.old) n.0)) }
{
    let i = n.0 as usize;
    if i < layout::SLOTS {
        t[i * layout::SLOT_WORDS + pointer.word()] = to.0;
    }
}
