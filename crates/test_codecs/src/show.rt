// Printing.
use refusal::Answer;
use std::io;

// Words, and a number after them.
pub fn told(rt: &HostRuntime, words: &str, n: usize) -> io::Result<()> {
    print!(rt; "{words}{n}")
}

// What came of a call, the bytes lent to it in hexadecimal, two digits each, and the end of the line.
pub fn outcome(rt: &HostRuntime, answer: Answer, lent: &[u8; 24]) -> io::Result<()> {
    match answer {
        Ok(size) => told(rt, " done ", size)?,
        Err(refused) => told(rt, " refused ", usize::from(u16::from(refused.refusal)))?,
    }
    rt.print(" ")?;
    hex(rt, lent)?;
    rt.println("")
}

pub fn hex(rt: &HostRuntime, bytes: &[u8]) -> io::Result<()> {
    for byte in bytes {
        print!(rt; "{byte:02x}")?;
    }
    Ok(())
}
