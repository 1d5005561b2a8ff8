// Which soundness rule a table breaks, and where (ticket 5 of 02).
ghost use Rattle.std.specs.Prelude.{◌≡◌};
ghost use Rattle.rules.specs.Fault.{rule_number};

use slot::Node;

#[derive(Clone, Copy, PartialEq, Eq)]
pub enum Rule {
    S1,
    S2,
    S3,
    S4,
    S5,
    S6,
    S7,
    S8,
}

impl Rule {
    // In 01's order.
    pub const ALL: [Rule; 8] = [
        Rule::S1,
        Rule::S2,
        Rule::S3,
        Rule::S4,
        Rule::S5,
        Rule::S6,
        Rule::S7,
        Rule::S8,
    ];
}

impl From<Rule> for u16 {
    ghost from_gives = { λ rule number. number ≡ rule_number rule };

    fn from(rule: Rule) -> u16 {
        match rule {
            Rule::S1 => 1,
            Rule::S2 => 2,
            Rule::S3 => 3,
            Rule::S4 => 4,
            Rule::S5 => 5,
            Rule::S6 => 6,
            Rule::S7 => 7,
            Rule::S8 => 8,
        }
    }
}

// This rule fails at this slot. A sound table has no fault.
#[derive(Clone, Copy, PartialEq, Eq)]
pub struct Fault {
    pub rule: Rule,
    pub slot: Node,
}
