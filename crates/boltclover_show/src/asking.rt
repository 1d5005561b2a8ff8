// Whom defects are paired with, in words: for each defect the question, and below it the listing's entry as the defect sees it.
use crate::telling::{Lines, add_answer, add_refusal};
use boltclover_shared::{FIRST_ASKED, asked, asked_end, write_out};
use outcome::Partner;
use record::Record;
use refusal::Refusal;
use slot::Node;
use table::Table;
use text::{Nobody, Question, Reason};

// What stands at a number that is no present defect.
fn no_defect(t: &Table, node: Node) -> Reason {
    if 256 <= node.0 {
        Reason::PastTheTable(node)
    } else if table::field::is_blossom(t, node) {
        let begin = table::counts::begin(t);
        Reason::NoDefect { node, begin }
    } else {
        Reason::EmptyDefectSlot(node)
    }
}

fn why(t: &Table, d: Node, refusal: Refusal) -> Option<Reason> {
    match refusal {
        Refusal::NoSuchNode => Some(no_defect(t, d)),
        _ => None,
    }
}

fn add_partner(lines: &mut Lines, d: Node, partner: Option<Partner>) {
    match partner {
        None => lines.add(Nobody(d)),
        Some(Partner::Defect(pair)) => add_answer(lines, Record::Pair(pair)),
        Some(Partner::Virtual(pair)) => add_answer(lines, Record::VirtualPair(pair)),
    }
}

// Whether it was answered, and the answer could be written.
fn ask(rt: &HostRuntime, t: &Table, d: Node) -> bool {
    let mut lines = Lines::new();
    lines.add(Question(d));
    let answer = primal::partner(t, d);
    match answer {
        Ok(partner) => add_partner(&mut lines, d, partner),
        Err(refusal) => add_refusal(&mut lines, refusal.into(), why(t, d, refusal)),
    }
    write_out(rt, lines.as_bytes()) && answer.is_ok()
}

// Each defect that the arguments name: whether all were answered.
pub fn ask_all(rt: &HostRuntime, t: &Table) -> bool {
    let mut all_answered = true;
    for i in FIRST_ASKED..asked_end(rt) {
        if !ask(rt, t, asked(rt, i)) {
            all_answered = false;
        }
    }
    all_answered
}
