// Why an expansion was refused: what the node is instead of a − blossom.
use refusal::Refusal;
use slot::{Node, State};
use table::{Table, climb, field};
use text::Reason;

fn not_minus(t: &Table, n: Node) -> Option<Reason> {
    match field::state(t, n) {
        State::Empty => Some(Reason::EmptyBlossomSlot(n)),
        State::Inner => Some(Reason::BlossomInside(n, climb::get_outer_blossom(t, n))),
        State::Stay => Some(Reason::BlossomStays(n)),
        State::Grow => Some(Reason::BlossomGrows(n)),
        State::Shrink | State::Damaged => None,
    }
}

fn not_expandable(t: &Table, n: Node) -> Option<Reason> {
    if 256 <= n.0 {
        Some(Reason::PastTheTable(n))
    } else if !field::is_blossom(t, n) {
        Some(Reason::IsDefect(n))
    } else {
        not_minus(t, n)
    }
}

pub fn why(t: &Table, n: Node, refusal: Refusal) -> Option<Reason> {
    match refusal {
        Refusal::NotExpandable => not_expandable(t, n),
        _ => None,
    }
}
