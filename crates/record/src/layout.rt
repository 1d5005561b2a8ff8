// The layout of a padded record: the zeros that fill it up to a multiple of four bytes (ticket 2 of 02).
ghost use Rattle.std.specs.Prelude.{◌≡◌, ◌-◌};
ghost use Rattle.record.specs.Padding.{padded_length};

// The zeros behind the fields of a padded record whose exact length is this: with the length field's own two bytes it fills a multiple
// of four.
pub fn padding_of(exact: u16) -> u16
    ensures { result ≡ padded_length exact - exact }
{
    (6 - exact % 4) % 4
}
