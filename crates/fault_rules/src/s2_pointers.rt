// S2, at a slot: each of its four pointers is none or names a present slot.
ghost use Rattle.std.specs.Prelude.{◌≡◌};
ghost use Rattle.table.specs.Words.{table_of};
ghost use Rattle.rules.specs.Sound.{names_present, s2};

use slot::Node;
use table::Table;

pub fn names_present(t: &Table, n: Node) -> bool
    ensures { result ≡ names_present (table_of t.now) n.0 }
{
    n.is_none() || table::field::has_node(t, n)
}

#[tactic(auto, unfolding(rules::specs::Sound::s2))]
pub fn holds(t: &Table, n: Node) -> bool
    ensures { result ≡ s2 (table_of t.now) n.0 }
{
    let s = table::get(t, n);
    names_present(t, s.parent)
        && names_present(t, s.first_child)
        && names_present(t, s.sibling)
        && names_present(t, s.ring)
}
