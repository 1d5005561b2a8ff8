// Reading: each request's record at every length of the tape, padding, the largest numbers, and every kind with every length. A
// request that was read is written again, so that its line shows its bytes, without padding.
use crate::show;
use refusal::Answer;
use std::io;

fn again(rt: &HostRuntime, tape: &[u8], out: &mut [u8; 24]) -> io::Result<Answer> {
    match record_reading::read_record(tape) {
        Ok((request, size)) => {
            show::told(rt, " ", size)?;
            Ok(record_writing::write(out, 0, request))
        }
        Err(refusal) => Ok(Err(refusal.into())),
    }
}

fn line(rt: &HostRuntime, tape: &[u8]) -> io::Result<()> {
    let mut bytes = [238u8; 24];
    show::told(rt, "read ", tape.len())?;
    let answer = again(rt, tape, &mut bytes)?;
    show::outcome(rt, answer, &bytes)
}

// The tape cut after each of its bytes, down to none.
fn cut(rt: &HostRuntime, tape: &[u8]) -> io::Result<()> {
    for n in 0..tape.len() {
        line(rt, &tape[..n])?;
    }
    line(rt, tape)
}

// Each tape has one byte more than the record fills.
pub fn lengths(rt: &HostRuntime) -> io::Result<()> {
    cut(
        rt,
        b"\x12\x00\x01\x00\x00\x00\x01\x00\x02\x00\x03\x00\x0a\x00\x00\x00\x0b\x00\x00\x00\x63",
    )?;
    cut(
        rt,
        b"\x0e\x00\x02\x00\x04\x01\x05\x02\x01\x02\x03\x04\x05\x06\x07\x08\x63",
    )?;
    cut(rt, b"\x04\x00\x03\x00\x80\x00\x63")?;
    cut(rt, b"\x06\x00\x03\x00\x80\x00\x00\x00\x63")?;
    cut(rt, b"\x02\x00\x04\x00\x63")?;
    cut(rt, b"\x02\x00\x05\x00\x63")
}

// A padding of which one byte is not zero, each in turn; the length of an expansion before two zeros; a conflict with two zeros more.
pub fn padding(rt: &HostRuntime) -> io::Result<()> {
    line(rt, b"\x06\x00\x03\x00\x80\x00\x01\x00")?;
    line(rt, b"\x06\x00\x03\x00\x80\x00\x00\x80")?;
    line(rt, b"\x04\x00\x03\x00\x80\x00\x00\x00")?;
    line(
        rt,
        b"\x14\x00\x01\x00\x00\x00\x01\x00\x02\x00\x03\x00\x0a\x00\x00\x00\x0b\x00\x00\x00\x00\x00",
    )
}

pub fn largest(rt: &HostRuntime) -> io::Result<()> {
    line(
        rt,
        b"\x12\x00\x01\x00\xff\xff\xff\xff\xff\xff\xff\xff\xff\xff\xff\xff\xff\xff\xff\xff",
    )?;
    line(rt, b"\x04\x00\xff\xff\xff\xff")
}

// The bytes taken from a record of this kind that states this length, where every byte behind the kind is the same: none where it is
// refused.
fn taken(kind: u8, length: u8, byte: u8) -> usize {
    let mut tape = [byte; 32];
    tape[0] = length;
    tape[1] = 0;
    tape[2] = kind;
    tape[3] = 0;
    match record_reading::read_record(&tape) {
        Ok((_, size)) => size,
        Err(_) => 0,
    }
}

fn every_length(rt: &HostRuntime, kind: u8, byte: u8) -> io::Result<()> {
    show::told(rt, "kind ", kind as usize)?;
    show::told(rt, " before bytes of ", byte as usize)?;
    rt.print(" takes")?;
    for length in 0..28 {
        show::told(rt, " ", taken(kind, length, byte))?;
    }
    rt.println("")
}

// Zeros are the padding of a padded record.
pub fn kinds(rt: &HostRuntime) -> io::Result<()> {
    for kind in 0..24 {
        every_length(rt, kind, 1)?;
        every_length(rt, kind, 0)?;
    }
    Ok(())
}
