// What is printed about a line.

pub const PASSED_OVER: &str = "  passed over\n";

pub const RECORD: &str = "  record ";

pub const SAME_WORDS: &str = ", written in the same words\n";

pub const OTHER_WORDS: &str = ", written as ";

pub const BAD: &str = "  ";
