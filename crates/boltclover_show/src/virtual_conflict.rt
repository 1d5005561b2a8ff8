// Why a virtual conflict was refused.
use crate::named::Named;
use record::VirtualConflict;
use refusal::Refusal;
use request_judging::{nodes, states};
use slot::Node;
use table::Table;
use text::Reason;

fn not_growing(t: &Table, node: Node) -> Reason {
    if states::is_minus(nodes::seen_state(t, node)) {
        return Reason::NodeShrinks(node);
    }
    Reason::NodeStays(node)
}

pub fn why(t: &Table, c: VirtualConflict, refusal: Refusal) -> Option<Reason> {
    let named = Named {
        node: c.node,
        touch: c.touch,
        vertex: c.vertex,
    };
    match refusal {
        Refusal::NotGrowing => Some(not_growing(t, c.node)),
        _ => named.why(t, refusal),
    }
}
