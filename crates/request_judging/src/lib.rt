// Which of a request's numbers is given (01, "Numbers given back"), on a table that is sound and with room for commands.
#![tactic(auto)]

pub mod checks;
pub mod nodes;
pub mod states;
pub mod trees;

ghost use Rattle.std.specs.Prelude.{◌≡◌};
ghost use Rattle.table.specs.Words.{table_of};
ghost use Rattle.rules.specs.Refusals.{first_of, conflict_node_checks, virtual_node_checks, expansion_node_checks};

use record::{Conflict, Expansion, VirtualConflict};
use refusal::{Refusal, Side, Verdict};
use slot::State;
use table::Table;

// 3, 4, 5, 6, 7, 8: the first that applies. 3, 4 and 6 are tried at node_1 and then at node_2, and name that side.
#[tactic(auto, using(crate::proofs::JudgingSteps::conflict_tried))]
pub fn judge_conflict(t: &Table, c: Conflict) -> Verdict
    ensures { result ≡ first_of (conflict_node_checks (table_of t.now) c) }
{
    let node_1 = c.node_1;
    let node_2 = c.node_2;
    let touch_1 = c.touch_1;
    let touch_2 = c.touch_2;
    let vertex_1 = c.vertex_1;
    let vertex_2 = c.vertex_2;
    // 6 is worked out first and asked in its turn: a step of a climb takes fewer instructions where little else is held meanwhile.
    let outside_1 = nodes::touches_elsewhere(t, node_1, touch_1);
    let outside_2 = nodes::touches_elsewhere(t, node_2, touch_2);
    let seen_1 = nodes::seen_state(t, node_1);
    if checks::is_no_side(seen_1, vertex_1) {
        return Err(Refusal::NoSuchNode.at(Side::First));
    }
    let seen_2 = nodes::seen_state(t, node_2);
    if checks::is_no_side(seen_2, vertex_2) {
        return Err(Refusal::NoSuchNode.at(Side::Second));
    }
    if !seen_1.is_outer() {
        return Err(Refusal::NotOuter.at(Side::First));
    }
    if !seen_2.is_outer() {
        return Err(Refusal::NotOuter.at(Side::Second));
    }
    if node_1 == node_2 {
        return Err(Refusal::SameNode.into());
    }
    if outside_1 {
        return Err(Refusal::TouchOutside.at(Side::First));
    }
    if outside_2 {
        return Err(Refusal::TouchOutside.at(Side::Second));
    }
    if states::are_not_growing(seen_1, seen_2) {
        return Err(Refusal::NotGrowing.into());
    }
    // A slot is nearly always left, and then the trees are not asked.
    if !checks::lacks_blossom_slot(t) {
        return Ok(());
    }
    if checks::makes_blossom(t, node_1, node_2) {
        return Err(Refusal::NoBlossomSlot.into());
    }
    Ok(())
}

// 3, 4, 6, 7: the first that applies; its node, its vertex and the virtual vertex are all of the first side.
#[tactic(auto, using(crate::proofs::JudgingSteps::virtual_tried))]
pub fn judge_virtual_conflict(t: &Table, c: VirtualConflict) -> Verdict
    ensures { result ≡ first_of (virtual_node_checks (table_of t.now) c) }
{
    let node = c.node;
    let touch = c.touch;
    let vertex = c.vertex;
    let virtual_vertex = c.virtual_vertex;
    let seen = nodes::seen_state(t, node);
    if checks::is_no_side(seen, vertex) {
        return Err(Refusal::NoSuchNode.at(Side::First));
    }
    if checks::is_no_vertex(virtual_vertex) {
        return Err(Refusal::NoSuchNode.at(Side::First));
    }
    if !seen.is_outer() {
        return Err(Refusal::NotOuter.at(Side::First));
    }
    if nodes::touches_elsewhere(t, node, touch) {
        return Err(Refusal::TouchOutside.at(Side::First));
    }
    if seen != State::Grow {
        return Err(Refusal::NotGrowing.into());
    }
    Ok(())
}

// 11.
#[tactic(auto, using(crate::proofs::JudgingSteps::expansion_tried))]
pub fn judge_expansion(t: &Table, e: Expansion) -> Verdict
    ensures { result ≡ first_of (expansion_node_checks (table_of t.now) e) }
{
    let node = e.node;
    if nodes::is_not_expandable(t, node) {
        return Err(Refusal::NotExpandable.into());
    }
    Ok(())
}
