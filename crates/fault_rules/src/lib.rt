// The rules of soundness, S1 to S8, each asked of one slot as it is written (ticket 5 of 02), for any words and without regard to time.
#![tactic(auto)]

pub mod s1_slots;
pub mod s2_pointers;
pub mod s3_singles;
pub mod s4_tree_nodes;
pub mod s5_child_lists;
pub mod s6_rings;
pub mod s7_ways_up;
pub mod s8_touches;
#[cfg(test)]
mod tests;

ghost use Rattle.std.specs.Prelude.{◌≡◌};
ghost use Rattle.table.specs.Words.{table_of};
ghost use Rattle.rules.specs.Sound.{holds};

use rules::fault::Rule;
use slot::Node;
use table::Table;

// Kept: the rules are an enum, and a match that names each one's function says no more than a table of functions would.
pub fn rule_holds(t: &Table, rule: Rule, n: Node) -> bool
    ensures { result ≡ holds rule (table_of t.now) n.0 }
{
    match rule {
        Rule::S1 => s1_slots::holds(t, n),
        Rule::S2 => s2_pointers::holds(t, n),
        Rule::S3 => s3_singles::holds(t, n),
        Rule::S4 => s4_tree_nodes::holds(t, n),
        Rule::S5 => s5_child_lists::holds(t, n),
        Rule::S6 => s6_rings::holds(t, n),
        Rule::S7 => s7_ways_up::holds(t, n),
        Rule::S8 => s8_touches::holds(t, n),
    }
}
