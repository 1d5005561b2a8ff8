// What an accepted conflict does (01, "What a conflict does"): the rows of the conflict table.
// Kept: two ends and their link are three parameters, since the rows of the table name each by itself.
ghost use Rattle.std.specs.Prelude.{◌≡◌};
ghost use Rattle.slot.specs.Slot.{link_of};
ghost use Rattle.table.specs.Words.{table_of};
ghost use Rattle.rules.specs.Act.{world_of, run};
ghost use Rattle.rules.specs.Conflict.{trees_meet, resolved, conflict};
ghost use Rattle.rules.specs.Doing.{Does};
ghost use Rattle.requests.specs.Meeting.{found};
ghost use Rattle.requests.specs.Resolving.{Checked, CheckedOnceLoaded, met_with_slot, blossom_at};

use crate::meeting;
use record::Conflict;
use record_fields::Output;
use request_blossom::Ring;
use request_judging::checks;
use request_matching::{augment_whole_tree, growth, pairing};
use slot::{Link, Node};
use table::place::place_of;
use table::{Place, Table, counts};

// A blossom of two nodes of one tree, which meet at this node, in the next free slot. There is one, where the two were told to meet; the
// test keeps the count in its range on any table.
#[tactic(auto, using(crate::proofs::ConflictsSteps::blossoms))]
fn blossom_at(t: &mut Table, out: &mut Output, meeting: Node, x: Node, y: Node, link: Link)
    ensures { Does (blossom_at meeting.0 x.0 y.0 (link_of link)) t.old out.old t.new out.new }
{
    let next = counts::blossom_end(t);
    if next == 256 {
        return;
    }
    let given = counts::count_blossoms(t) + 1;
    let ring = Ring {
        blossom: Node(next),
        meeting,
        x,
        y,
        link,
    };
    ring.create_blossom(t, out, given);
}

// Where two tree nodes meet. Nothing is climbed where no slot is left: 8 was asked, so there are two trees.
fn meeting_of(t: &Table, x: Node, y: Node) -> Option<Node>
    ensures { found result ≡ met_with_slot (table_of t.now) x.0 y.0 }
{
    if checks::lacks_blossom_slot(t) {
        return None;
    }
    meeting::find_lowest_common_ancestor(t, x, y)
}

// Two tree nodes: one tree makes a blossom, two trees are augmented, node_1's first.
fn trees_meet(t: &mut Table, out: &mut Output, x: Node, y: Node, link: Link)
    ensures { Checked (table_of t.old) x.0 y.0 → Does (trees_meet x.0 y.0 (link_of link)) t.old out.old t.new out.new }
{
    if let Some(meeting) = meeting_of(t, x, y) {
        return blossom_at(t, out, meeting, x, y, link);
    }
    augment_whole_tree(t, out, x);
    augment_whole_tree(t, out, y);
    pairing::temporary_match(t, out, x, link, y);
}

// The row of the conflict table that the two nodes' places name.
#[tactic(auto, using(rules::proofs::Runs::runs), unfolding(rules::specs::Conflict::resolved))]
fn resolve(t: &mut Table, out: &mut Output, x: Node, y: Node, link: Link)
    ensures { Checked (table_of t.old) x.0 y.0 → Does (resolved x.0 y.0 (link_of link)) t.old out.old t.new out.new }
{
    match (place_of(t, x), place_of(t, y)) {
        (Place::Free, Place::Free | Place::Virtual) => {
            pairing::temporary_match(t, out, x, link, y)
        }
        (Place::Free, Place::Paired(peer)) => growth::grow_tree(
            t,
            out,
            x,
            link.mirrored(),
            y,
            peer,
        ),
        (Place::Free | Place::Virtual, Place::Tree) => {
            augment_whole_tree(t, out, y);
            pairing::temporary_match(t, out, x, link, y);
        }
        (Place::Paired(peer), Place::Free) => growth::grow_tree(t, out, y, link, x, peer),
        (Place::Paired(peer), Place::Tree) => growth::hang_pair(t, out, y, link, x, peer),
        (Place::Virtual, Place::Free) => pairing::temporary_match(t, out, y, link.mirrored(), x),
        (Place::Tree, Place::Free) => {
            augment_whole_tree(t, out, x);
            pairing::temporary_match(t, out, x, link, y);
        }
        (Place::Tree, Place::Paired(peer)) => growth::hang_pair(
            t,
            out,
            x,
            link.mirrored(),
            y,
            peer,
        ),
        (Place::Tree, Place::Virtual) => {
            augment_whole_tree(t, out, x);
            pairing::temporary_match(t, out, y, link.mirrored(), x);
        }
        (Place::Tree, Place::Tree) => trees_meet(t, out, x, y, link),
        // Two matched nodes are refused before.
        (Place::Paired(_) | Place::Virtual, Place::Paired(_) | Place::Virtual) => {}
    }
}

fn load_and_resolve(t: &mut Table, out: &mut Output, c: Conflict)
    ensures { CheckedOnceLoaded c (table_of t.old) → Does (conflict c) t.old out.old t.new out.new }
{
    let link = Link {
        touch: c.touch_1,
        through: c.vertex_1,
        peer_touch: c.touch_2,
        peer_through: c.vertex_2,
    };
    growth::load(t, c.node_1);
    growth::load(t, c.node_2);
    resolve(t, out, c.node_1, c.node_2, link);
}

// From a position of lent bytes on. Gives the position after what was written.
// Kept: a function that makes an Output and answers a Result does not prove by what its calls promise; one that gives a number does.
pub fn resolve_conflict(t: &mut Table, bytes: &mut [u8], pos: usize, c: Conflict) -> usize
    ensures { CheckedOnceLoaded c (table_of t.old) → world_of t.new bytes.new result ≡ run (world_of t.old bytes.old pos) (conflict c) }
{
    let mut out = Output { bytes, pos };
    load_and_resolve(t, &mut out, c);
    out.pos
}
