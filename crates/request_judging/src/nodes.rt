// What the checks ask of one named node (01, "Numbers given back").
ghost use Rattle.std.specs.Prelude.{◌≡◌};
ghost use Rattle.table.specs.Words.{table_of};
ghost use Rattle.rules.specs.Refusals.{is_not_expandable};
ghost use Rattle.request_judging.specs.Seen.{seen_state, elsewhere};

use slot::{Node, State};
use table::{Table, climb, field};

// The state of a node as the checks read it: an empty defect slot as the node that it would become, no slot as an empty one. The slot is
// looked for first, so that whatever asks for it later is known to find it.
pub fn seen_state(t: &Table, n: Node) -> State
    ensures { result ≡ seen_state (table_of t.now) n.0 }
{
    if 256 <= n.0 {
        return State::Empty;
    }
    let state = field::state(t, n);
    if field::is_blossom(t, n) {
        return state;
    }
    if field::has_node(t, n) {
        return state;
    }
    State::Grow
}

// 6 of an outer node: the touch must be a defect, and this the outer node that it is inside.
#[tactic(auto, using(crate::proofs::NodesSteps::elsewhere_cases))]
pub fn touches_elsewhere(t: &Table, n: Node, touch: Node) -> bool
    ensures { result ≡ elsewhere (table_of t.now) n.0 touch.0 }
{
    let begin = table::counts::begin(t);
    if begin <= touch.0 {
        return true;
    }
    if touch == n {
        return false;
    }
    let outer = climb::get_outer_blossom(t, touch);
    outer != n
}

// 11: only a − blossom is taken apart.
pub fn is_not_expandable(t: &Table, n: Node) -> bool
    ensures { result ≡ is_not_expandable (table_of t.now) n.0 }
{
    !field::is_blossom(t, n) || field::state(t, n) != State::Shrink
}
