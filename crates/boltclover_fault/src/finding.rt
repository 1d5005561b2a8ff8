// What is found wrong at a slot: a sentence, and the other slot that it speaks of.
use slot::Node;
use std::fmt;

pub trait Finding: fmt::Display + Drop {
    // A slot to be shown beside the one at which the rule fails.
    fn other(&self) -> Option<Node> {
        None
    }
}
