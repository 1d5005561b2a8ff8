// Numbers in a record, low byte first.

// The two-byte number that starts at a place; 0 past the end.
pub fn narrow_at(record: &[u8], at: usize) -> u16 {
    match record.get(at..) {
        Some([low, high, ..]) => u16::from_le_bytes([*low, *high]),
        _ => 0,
    }
}

// The same of four bytes.
pub fn wide_at(record: &[u8], at: usize) -> u32 {
    match record.get(at..) {
        Some([a, b, c, d, ..]) => u32::from_le_bytes([*a, *b, *c, *d]),
        _ => 0,
    }
}

// Stores bytes at a place, where there is room for all of them.
pub fn put(record: &mut [u8], at: usize, bytes: &[u8]) {
    if at <= record.len() && bytes.len() <= record.len() - at {
        record[at..at + bytes.len()].copy_from_slice(bytes);
    }
}
