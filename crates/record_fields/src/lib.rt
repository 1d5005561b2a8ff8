// Records written into lent bytes, low byte first.
#![tactic(auto)]

pub mod output;

pub use output::Output;
