// What a run of a tape hands out (01, "Records").
use refusal::Refusal;
use rules::Stop;

// Why it stopped, "how many records it handled and bytes it wrote", and "the unread rest of the caller's tape".
#[derive(Clone, Copy)]
pub struct Run<'a> {
    pub stop: Stop,
    pub handled: u32,
    pub written: usize,
    pub rest: &'a [u8],
}

// What a refused run tells: why, before any stop, and the rest, which is the whole tape, since nothing was handled.
#[derive(Clone, Copy)]
pub struct NotRun<'a> {
    pub refusal: Refusal,
    pub rest: &'a [u8],
}
