// Padding: recorders fill each request up to a multiple of four bytes (ticket 2 of 02).
ghost use Rattle.std.specs.Prelude.{◌≡◌, ◌+◌, ◌-◌, ◌≤◌, length, take, drop};
ghost use Rattle.record.specs.Padding.{are_zero, has_its_length};

fn are_zero(bytes: &[u8]) -> bool
    ensures { result ≡ are_zero bytes.now }
{
    bytes.iter().all(|b| *b == 0)
}

// Whether a record that states this length has that of its kind: exact, or padded with zeros.
pub fn has_its_length(tape: &[u8], exact: u16, stated: u16) -> bool
    requires { stated + 2 ≤ length tape.now }
    ensures { result ≡ has_its_length exact stated tape.now }
{
    if stated == exact {
        return true;
    }
    if stated as u32 != exact as u32 + record::layout::padding_of(exact) as u32 {
        return false;
    }
    are_zero(&tape[(exact as usize) + 2..(stated as usize) + 2])
}
