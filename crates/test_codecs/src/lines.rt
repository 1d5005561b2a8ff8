// Reads each line of standard input by itself, and prints the record that it makes; a request is then written in words again, and
// held to the line. A line that is no request is printed with what was expected of it.
use crate::{made, message};
use boltclover_shared::Input;
use std::io;
use text::RECORD_ROOM;

fn read(rt: &HostRuntime, line: &[u8], number: u64) -> io::Result<()> {
    let mut room = [0u8; RECORD_ROOM];
    match text::read_line(line, &mut room) {
        Ok(None) => rt.print(message::PASSED_OVER),
        Ok(Some(record)) => made::show(rt, record, line),
        Err(fault) => {
            rt.print(message::BAD)?;
            println!(rt; "line {number}, {fault}")
        }
    }
}

fn by_itself(rt: &HostRuntime, line: &[u8], number: u64) -> io::Result<()> {
    rt.write_all(line)?;
    rt.write_all(b"\n")?;
    read(rt, line, number)
}

// Lines are numbered from 1.
pub fn all(rt: &HostRuntime) -> io::Result<()> {
    let mut text = Input::<65536>::new();
    text.fill(rt);
    let lines = text.as_bytes().split_inclusive(|byte| *byte == b'\n');
    for (line, number) in lines.zip(1u64..) {
        by_itself(rt, line.strip_suffix(b"\n").unwrap_or(line), number)?;
    }
    Ok(())
}
