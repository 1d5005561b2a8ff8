// What is printed of a damaged table: which rule fails, where, what is wrong there and what the rule asks; then the slots that it is
// about, and the sizes.
use crate::asked::Asked;
use crate::finding::Finding;
use crate::shown::Shown;
use crate::{
    s1_slots, s2_pointers, s3_singles, s4_tree_nodes, s5_child_lists, s6_rings, s7_ways_up,
    s8_touches,
};
use rules::fault::Rule;
use slot::Node;
use std::fmt;
use table::{Table, counts};

// No report fills more bytes.
pub type Page = text_decimals::Page<2048>;

#[derive(Drop)]
struct Report<'a, F> {
    table: &'a Table,
    rule: Rule,
    slot: Node,
    finding: Option<F>,
}

impl<F: Finding> Report<'_, F> {
    // The other slot that the sentence speaks of.
    fn other(&self) -> Option<Node> {
        let other = self.finding.as_ref()?.other()?;
        if other == self.slot {
            return None;
        }
        Some(other)
    }
}

impl<F: Finding> fmt::Display for Report<'_, F> {
    fn fmt<W: fmt::Write>(&self, f: &mut fmt::Formatter<W>) -> fmt::Result {
        let table = self.table;
        let slot = self.slot;
        write!(f, "S{} at slot {slot}: ", u16::from(self.rule))?;
        if let Some(finding) = &self.finding {
            writeln!(f, "{finding}")?;
        }
        writeln!(f, "  asked: {}", Asked(self.rule))?;
        write!(f, "{}", Shown { table, slot })?;
        if let Some(slot) = self.other() {
            write!(f, "{}", Shown { table, slot })?;
        }
        let begin = counts::begin(table);
        let defects = counts::count_defects(table);
        let blossoms = counts::count_blossoms(table);
        writeln!(
            f,
            "  begin {begin}, count_defects {defects}, count_blossoms {blossoms}"
        )
    }
}

fn page_of<F: Finding>(table: &Table, rule: Rule, slot: Node, finding: Option<F>) -> Page {
    let mut page = Page::new();
    page.add(Report {
        table,
        rule,
        slot,
        finding,
    });
    page
}

pub fn page(t: &Table, rule: Rule, n: Node) -> Page {
    match rule {
        Rule::S1 => page_of(t, rule, n, s1_slots::find(t, n)),
        Rule::S2 => page_of(t, rule, n, s2_pointers::find(t, n)),
        Rule::S3 => page_of(t, rule, n, s3_singles::find(t, n)),
        Rule::S4 => page_of(t, rule, n, s4_tree_nodes::find(t, n)),
        Rule::S5 => page_of(t, rule, n, s5_child_lists::find(t, n)),
        Rule::S6 => page_of(t, rule, n, s6_rings::find(t, n)),
        Rule::S7 => page_of(t, rule, n, s7_ways_up::find(t, n)),
        Rule::S8 => page_of(t, rule, n, s8_touches::find(t, n)),
    }
}
