// The cases of the program: what each says, and what is printed of it.
use std::io;

// Whether a case is a script, which starts with a digit and a dot, and not a stored tape.
pub fn is_script(case: &[u8]) -> bool {
    case.get(1) == Some(&b'.')
}

// Writes two numbers with words between them, and then how it went.
// Kept: a yes or no, by which one of the two words is printed.
pub fn told(
    rt: &impl Print,
    n: usize,
    words: &str,
    m: usize,
    is_good: bool,
    good: &str,
    bad: &str,
) -> io::Result<()> {
    let verdict = if is_good { good } else { bad };
    print!(rt; "{n}{words}{m}{verdict}")
}
