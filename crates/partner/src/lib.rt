// Whom a defect is paired with (ticket 3 of 02), on a table that is known to be sound. The way up from the defect is noted once; the climb
// from a link's touch then ends at the first noted node, so no node is climbed from twice. No list is written.
#![tactic(auto)]

pub mod following;
pub mod way;

ghost use Rattle.std.specs.Prelude.{◌≡◌, option_map};
ghost use Rattle.slot.specs.Slot.{link_of};
ghost use Rattle.table.specs.Words.{table_of};
ghost use Rattle.outcome.specs.Partner.{partner_at, later_partner};
ghost use Rattle.partner.specs.Following.{followed_entry};

use outcome::Partner;
use record::{Pair, VirtualPair};
use refusal::Refusal;
use slot::{Link, Node, State};
use sound_table::SoundView;
use table::{Table, field};

// The link by which d is paired.
fn entry_of(t: &Table, d: Node) -> Option<Link>
    ensures { option_map link_of result ≡ followed_entry (table_of t.now) d.0 }
{
    let mut below = [Node::NONE.0; 256];
    let home = way::note_way(t, &mut below, d);
    if field::state(t, home) != State::Stay {
        return None;
    }
    Some(following::follow(t, &below, d, field::link(t, home)))
}

// What a link says of its touch.
fn partner_at(link: Link) -> Partner
    ensures { result ≡ partner_at (link_of link) }
{
    if link.peer_touch.is_none() {
        return Partner::Virtual(VirtualPair::from(link));
    }
    Partner::Defect(Pair::from(link))
}

// Refused where d is no present defect.
pub fn partner(t: SoundView, d: Node) -> Result<Option<Partner>, Refusal>
    ensures { result ≡ later_partner (table_of t.entry.words.now) d.0 }
{
    if !field::is_present_defect(t.words, d) {
        return Err(Refusal::NoSuchNode);
    }
    Ok(entry_of(t.words, d).map(partner_at))
}
