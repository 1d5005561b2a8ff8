// Why a table is damaged (ticket 5 of 02): the first broken rule of S1 to S8, and the smallest slot that breaks it. Each rule is asked of
// one slot after the other, for any words and without regard to time: a sound table is told before.
#![tactic(auto)]

ghost use Rattle.std.specs.Prelude.{◌≡◌};
ghost use Rattle.table.specs.Words.{table_of};
ghost use Rattle.rules.specs.Fault.{lowest_fault, first_fault};

use fault_rules::rule_holds;
use rules::fault::{Fault, Rule};
use slot::Node;
use table::Table;

#[tactic(auto, using(crate::proofs::Searching::none_lower, crate::proofs::Searching::lowest_here, crate::proofs::Searching::lowest_later))]
fn lowest_fault(t: &Table, rule: Rule) -> Option<Fault>
    ensures { result ≡ lowest_fault rule (table_of t.now) 256 0 }
{
    for i in 0..256 {
        if !rule_holds(t, rule, Node(i)) {
            return Some(Fault {
                rule,
                slot: Node(i),
            });
        }
    }
    None
}

pub fn first_fault(t: &Table) -> Option<Fault>
    ensures { result ≡ first_fault (table_of t.now) }
{
    let mut found = None;
    for rule in &Rule::ALL {
        // A fault of an earlier rule is kept.
        found = found.or_else(|| lowest_fault(t, *rule));
    }
    found
}
