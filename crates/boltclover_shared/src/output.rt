// Standard output and standard error.
use crate::Ending;
use crate::arguments::LONGEST_WORD;
use std::env::{Env, FillError};
use std::fmt::Display;
use std::io;
use std::io::{ErrorKind, Print};
use text_decimals::Page;

// Nobody can be told that standard error cannot be written.
fn say(rt: &HostRuntime, message: &[u8]) {
    let _ = rt.stderr().write_all(message);
}

// What is read: the second argument names it for people. A name may hold any bytes.
fn write_name(rt: &HostRuntime) {
    let mut name = [0u8; LONGEST_WORD];
    match rt.arg(2, &mut name) {
        Ok(n) => say(rt, &name[..n]),
        Err(FillError::NotPresent) => say(rt, b"standard input"),
        Err(FillError::TooLong) => {}
    }
}

// A line on standard error about what is read; the message has its line feed.
pub fn complain<D: Display + Drop>(rt: &HostRuntime, message: D) {
    let mut page = Page::<4096>::new();
    page.add(message);
    write_name(rt);
    say(rt, b": ");
    say(rt, page.as_bytes());
}

pub fn end_bad_begin(rt: &HostRuntime) -> Ending {
    say(rt, b"refused 13: begin outside 1 to 256\n");
    Ending::Misused
}

// The system's words for an error, without the number that std adds to them.
fn words_of(text: &str) -> &str {
    text.split_once(" (os error ")
        .map_or(text, |(words, _)| words)
}

fn complain_of_output(rt: &HostRuntime, error: io::Error) {
    let mut page = Page::<4096>::new();
    page.add(error);
    let words = str::from_utf8(page.as_bytes()).map_or("", words_of);
    let _ = eprintln!(rt; "standard output: {words}");
}

// Writes all of the bytes to standard output, or says why it cannot: but for a reader that has stopped, as `head` does, which is no
// fault to tell of.
pub fn write_out(rt: &HostRuntime, bytes: &[u8]) -> bool {
    match rt.write_all(bytes) {
        Ok(()) => true,
        Err(error) => {
            if error.kind() != ErrorKind::BrokenPipe {
                complain_of_output(rt, error);
            }
            false
        }
    }
}
