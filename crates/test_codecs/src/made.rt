// The record that a line made.
use crate::message;
use std::io;
use text::Records;
use text_decimals::Page;

fn compare(rt: &HostRuntime, own: &[u8], line: &[u8]) -> io::Result<()> {
    if own == line {
        return rt.print(message::SAME_WORDS);
    }
    rt.print(message::OTHER_WORDS)?;
    rt.write_all(own)?;
    rt.write_all(b"\n")
}

// The words end with a line feed, which the line no longer has.
fn written(rt: &HostRuntime, record: &[u8], line: &[u8]) -> io::Result<()> {
    let mut page = Page::<4096>::new();
    page.add(Records(record));
    match page.as_bytes().strip_suffix(b"\n") {
        Some(words) => compare(rt, words, line),
        None => Ok(()),
    }
}

pub fn show(rt: &HostRuntime, record: &[u8], line: &[u8]) -> io::Result<()> {
    rt.print(message::RECORD)?;
    crate::show::hex(rt, record)?;
    written(rt, record, line)
}
