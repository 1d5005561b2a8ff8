// The table in words that the caller lends. `get` is total: past the last slot stands the empty one. Slots are stored in `storing`, the
// counts stand in `counts`, and above this crate nothing knows the layout of the words.
#![tactic(auto)]

pub mod climb;
pub mod counts;
pub mod field;
pub mod layout;
pub mod marks;
pub mod numbers;
pub mod place;
pub mod storing;

ghost use Rattle.std.specs.Prelude.{◌≡◌, ◌≤◌};
ghost use Rattle.slot.specs.Slot.{slot_of, link_of};
ghost use Rattle.table.specs.Words.{slot_from, link_from, table_of};
ghost use Rattle.table.specs.Table.{at};

use slot::{Link, Node, Slot, State, Vertex};

// 256 slots of eleven words, then begin, count_defects and count_blossoms: 2,819 words.
pub type Table = [u16; layout::WORDS];

// The link in the six words from b on.
fn link_at(t: &Table, b: usize) -> Link
    requires { b ≤ 2813 }
    ensures { link_of result ≡ link_from t.now b }
{
    Link {
        touch: Node(t[b + 0]),
        through: Vertex::from_words(t[b + 2], t[b + 3]),
        peer_touch: Node(t[b + 1]),
        peer_through: Vertex::from_words(t[b + 4], t[b + 5]),
    }
}

// The slot in the eleven words from b on.
fn slot_at(t: &Table, b: usize) -> Slot
    requires { b ≤ 2808 }
    ensures { slot_of result ≡ slot_from t.now b }
{
    Slot {
        state: State::from(t[b + 0]),
        parent: Node(t[b + 1]),
        first_child: Node(t[b + 2]),
        sibling: Node(t[b + 3]),
        ring: Node(t[b + 4]),
        link: link_at(t, b + layout::LINK),
    }
}

// Slot n; past the table, the empty slot.
pub fn get(t: &Table, n: Node) -> Slot
    ensures { slot_of result ≡ at (table_of t.now) n.0 }
{
    let i = n.0 as usize;
    if i < layout::SLOTS {
        slot_at(t, i * layout::SLOT_WORDS)
    } else {
        Slot::empty()
    }
}

pub use marks::Marks;
pub use place::Place;
