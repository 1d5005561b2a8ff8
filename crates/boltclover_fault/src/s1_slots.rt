// What S1 finds wrong at a slot.
use crate::field;
use crate::field::Field;
use crate::finding::Finding;
use slot::{Node, State};
use std::fmt;
use table::{Table, counts};

#[derive(Clone, Copy)]
pub enum Wrong {
    BeginOutside { begin: u16 },
    DefectsAbove { defects: u16, begin: u16 },
    BlossomsAbove { begin: u16, blossoms: u16 },
    NoMark,
    DefectPast { defects: u16 },
    BlossomPast { blossoms: u16, end: u16 },
    EmptyStores(Field),
    DefectRing(Node),
}

impl fmt::Display for Wrong {
    fn fmt<W: fmt::Write>(&self, f: &mut fmt::Formatter<W>) -> fmt::Result {
        match *self {
            Wrong::BeginOutside { begin } => write!(f, "begin is {begin}, and is to be 1 to 256"),
            Wrong::DefectsAbove { defects, begin } => {
                write!(f, "count_defects is {defects}, above begin, {begin}")
            }
            Wrong::BlossomsAbove { begin, blossoms } => write!(
                f,
                "begin, {begin}, and count_blossoms, {blossoms}, come to more than 256"
            ),
            Wrong::NoMark => write!(f, "its mark is none of 0 to 4"),
            Wrong::DefectPast { defects } => write!(
                f,
                "present, and count_defects is {defects}: defect slots are to be empty from {defects} on"
            ),
            Wrong::BlossomPast { blossoms, end } => write!(
                f,
                "present, and count_blossoms is {blossoms}: blossom slots are to be empty from {end} on"
            ),
            Wrong::EmptyStores(field) => write!(f, "empty, and stores a {field}"),
            Wrong::DefectRing(ring) => write!(
                f,
                "a defect, and stores a first blossom child, {ring}"
            ),
        }
    }
}

impl Finding for Wrong {}

fn wrong_sizes(t: &Table) -> Wrong {
    let begin = counts::begin(t);
    let defects = counts::count_defects(t);
    if begin == 0 || 256 < begin {
        return Wrong::BeginOutside { begin };
    }
    if begin < defects {
        return Wrong::DefectsAbove { defects, begin };
    }
    Wrong::BlossomsAbove {
        begin,
        blossoms: counts::count_blossoms(t),
    }
}

// A node that is past its count, or stores a first blossom child and is no blossom.
fn wrong_node(t: &Table, n: Node) -> Wrong {
    let defects = counts::count_defects(t);
    if table::field::is_blossom(t, n) {
        return Wrong::BlossomPast {
            blossoms: counts::count_blossoms(t),
            end: counts::blossom_end(t),
        };
    }
    if defects <= n.0 {
        return Wrong::DefectPast { defects };
    }
    Wrong::DefectRing(table::field::get_first_blossom_child(t, n))
}

pub fn find(t: &Table, n: Node) -> Option<Wrong> {
    if !sound::slots::sizes_hold(t) {
        return Some(wrong_sizes(t));
    }
    let s = table::get(t, n);
    match s.state {
        State::Empty => field::stored(s).map(Wrong::EmptyStores),
        State::Damaged => Some(Wrong::NoMark),
        _ => Some(wrong_node(t, n)),
    }
}
