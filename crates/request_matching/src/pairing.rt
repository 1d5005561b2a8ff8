// Matching two nodes, and matching one to a virtual vertex.
ghost use Rattle.std.specs.Prelude.{◌≡◌};
ghost use Rattle.slot.specs.Slot.{link_of};
ghost use Rattle.table.specs.Words.{table_of};
ghost use Rattle.rules.specs.Act.{alter};
ghost use Rattle.rules.specs.Doing.{Does};
ghost use Rattle.rules.specs.Matching.{matched_to, temporary_match, temporary_match_virtual};

use record::Speed;
use record_answers::commands;
use record_fields::Output;
use slot::{Link, Node, Slot, State, Vertex};
use table::Table;

// Slot n becomes Stay, with this peer and link and neither parent nor child. Its ring, if it is a blossom, stays.
#[tactic(auto, unfolding(rules::specs::Act::alter))]
fn settle(t: &mut Table, n: Node, peer: Node, link: Link)
    ensures { table_of t.new ≡ alter n.0 (matched_to peer.0 (link_of link)) (table_of t.old) }
{
    let ring = table::get(t, n).ring;
    table::storing::store(
        t,
        n,
        Slot {
            state: State::Stay,
            parent: Node::NONE,
            first_child: Node::NONE,
            sibling: peer,
            ring,
            link,
        },
    );
}

// 01: "Match a, b" sets a then b to Stay, clears parent and child, makes them siblings with mirrored links. The link is as a sees it.
#[tactic(auto, using(rules::proofs::Runs::runs), unfolding(rules::specs::Matching::temporary_match))]
pub fn temporary_match(t: &mut Table, out: &mut Output, a: Node, link: Link, b: Node)
    ensures { Does (temporary_match a.0 (link_of link) b.0) t.old out.old t.new out.new }
{
    commands::speed(out, a, Speed::Stay);
    commands::speed(out, b, Speed::Stay);
    settle(t, a, b, link);
    settle(t, b, a, link.mirrored());
}

// A match to the virtual vertex has neither a sibling nor a peer touch.
#[tactic(auto, using(rules::proofs::Runs::runs), unfolding(rules::specs::Matching::temporary_match_virtual))]
pub fn temporary_match_virtual(
    t: &mut Table,
    out: &mut Output,
    n: Node,
    touch: Node,
    vertex: Vertex,
    virtual_vertex: Vertex,
)
    ensures { Does (temporary_match_virtual n.0 touch.0 vertex.0 virtual_vertex.0) t.old out.old t.new out.new }
{
    let link = Link {
        touch,
        through: vertex,
        peer_touch: Node::NONE,
        peer_through: virtual_vertex,
    };
    commands::speed(out, n, Speed::Stay);
    settle(t, n, Node::NONE, link);
}
