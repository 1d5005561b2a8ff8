// What the listing has of one slot (01, "The listing").
ghost use Rattle.table.specs.Table.{at};
ghost use Rattle.table.specs.Words.{table_of};
ghost use Rattle.table.specs.declared.place.Place.TheVariants.{Paired, Virtual};
ghost use Rattle.rules.specs.Listing.{matched_listed, slot_listed};
ghost use Rattle.request_listing.specs.Listed.{Listed};

use crate::pairs;
use record::VirtualPair;
use record_answers::closing;
use record_fields::Output;
use slot::Node;
use table::{Place, Table, field};

// A node matched to a peer is listed at the smaller number of the two.
#[tactic(auto, using(crate::proofs::SlotsSteps::paired))]
fn list_paired(t: &Table, out: &mut Output, n: Node, peer: Node)
    ensures { Listed (matched_listed (Paired peer) n.0 (at (table_of t.now) n.0) (table_of t.now)) out.old out.new }
{
    if n.0 < peer.0 {
        pairs::list_pair(t, out, n, peer, field::link(t, n), 256);
    }
}

#[tactic(auto, using(crate::proofs::SlotsSteps::virtually))]
fn list_virtual(t: &Table, out: &mut Output, n: Node)
    ensures { Listed (matched_listed Virtual n.0 (at (table_of t.now) n.0) (table_of t.now)) out.old out.new }
{
    let link = field::link(t, n);
    pairs::list_inside(t, out, n, link.touch, 256);
    closing::virtual_pair(out, VirtualPair::from(link));
}

#[tactic(auto, using(crate::proofs::SlotsSteps::slot_lists))]
pub fn list_slot(t: &Table, out: &mut Output, n: Node)
    ensures { Listed (slot_listed n.0 (table_of t.now)) out.old out.new }
{
    if !field::is_outer(t, n) {
        return;
    }
    match table::place::place_of(t, n) {
        Place::Free => {}
        Place::Paired(peer) => list_paired(t, out, n, peer),
        Place::Virtual => list_virtual(t, out, n),
        Place::Tree => {}
    }
}
