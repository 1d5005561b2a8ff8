// Augmenting a tree (01, "What a conflict does"): to the root, and each subtree matched on the way.
#![tactic(auto)]

pub mod growth;
pub mod pairing;

ghost use Rattle.rules.specs.Doing.{Does};
ghost use Rattle.rules.specs.Matching.{match_siblings, match_subtree, augment_subtree, augment_within, augment_whole_tree};

use record_fields::Output;
use slot::Node;
use table::storing::Pointer;
use table::{Table, field, storing};

// The subtree of the − node n: its child with it, by the child's link, then the children that the child had.
#[cycle(match_siblings_match_subtree)]
#[tactic(auto, using(rules::proofs::Runs::runs, crate::proofs::MatchingSteps::siblings), unfolding(rules::specs::Matching::match_subtree, rules::specs::Matching::subtree))]
fn match_subtree(t: &mut Table, out: &mut Output, n: Node, left: usize)
    ensures { Does (match_subtree left n.0) t.old out.old t.new out.new }
{
    let child = field::first_child(t, n);
    let link = field::link(t, child);
    let first_grandchild = field::first_child(t, child);
    crate::pairing::temporary_match(t, out, child, link, n);
    match_siblings(t, out, first_grandchild, left);
}

// n and its siblings, each with its subtree. The next sibling is read before the match, which replaces it.
#[cycle(match_siblings_match_subtree)]
#[tactic(auto, using(rules::proofs::Runs::runs, crate::proofs::MatchingSteps::siblings), unfolding(rules::specs::Matching::match_subtree, rules::specs::Matching::subtree))]
fn match_siblings(t: &mut Table, out: &mut Output, n: Node, left: usize)
    ensures { Does (match_siblings left n.0) t.old out.old t.new out.new }
{
    if left == 0 || n.is_none() {
        return;
    }
    let next = field::sibling(t, n);
    match_subtree(t, out, n, left - 1);
    match_siblings(t, out, next, left - 1);
}

// The + node n keeps its place; its children go.
#[tactic(auto, using(rules::proofs::Runs::runs), unfolding(rules::specs::Matching::augment_subtree, rules::specs::Act::alter))]
fn augment_subtree(t: &mut Table, out: &mut Output, n: Node, left: usize)
    ensures { Does (augment_subtree left n.0) t.old out.old t.new out.new }
{
    let first_child = field::first_child(t, n);
    storing::store_pointer(t, n, Pointer::FirstChild, Node::NONE);
    match_siblings(t, out, first_child, left);
}

// To the root, at most so many steps; left is the budget of each list on the way. On return the parent is matched with the ancestor.
#[tactic(auto, using(crate::proofs::MatchingSteps::within))]
fn augment_within(t: &mut Table, out: &mut Output, n: Node, steps: usize, left: usize)
    ensures { Does (augment_within steps left n.0) t.old out.old t.new out.new }
{
    if steps == 0 {
        return;
    }
    augment_subtree(t, out, n, left);
    let parent = field::parent(t, n);
    if parent.is_none() {
        return;
    }
    let link = field::link(t, parent);
    let ancestor = field::parent(t, parent);
    augment_within(t, out, ancestor, steps - 1, left);
    crate::pairing::temporary_match(t, out, parent, link, ancestor);
}

pub fn augment_whole_tree(t: &mut Table, out: &mut Output, n: Node)
    ensures { Does (augment_whole_tree n.0) t.old out.old t.new out.new }
{
    augment_within(t, out, n, 256, 256);
}
