// Decimal digits: how many stand at the front of a text, and which number they write.
ghost use Rattle.std.specs.Prelude.{◌≡◌, ◌≤◌, length};
ghost use Rattle.words.specs.Numerals.{digit_count, plain, number_of, value_within};

use crate::fault::ReadFault;

// How many digits stand at the front.
pub(crate) fn digit_count(text: &[u8]) -> usize
    ensures value { result ≡ digit_count text.now }
    ensures within { result ≤ length text.now }
{
    text.iter()
        .position(|b| !b.is_ascii_digit())
        .unwrap_or(text.len())
}

// One digit, or more that do not begin with 0.
fn plain(digits: &[u8]) -> bool
    ensures { result ≡ plain digits.now }
{
    match digits {
        [] => false,
        [_] => true,
        [first, ..] => *first != b'0',
    }
}

// The number that digits write, unless it passes 65,535. One pass, which ends at the first digit too many. The library's `parse`
// takes a plus sign and leading zeros too, so that digits would be gone over before it; reading then took more than twice as long.
fn value(digits: &[u8]) -> Result<u16, ReadFault>
    ensures { result ≡ value_within 0 digits.now }
{
    let mut n: u32 = 0;
    for b in digits {
        if !b.is_ascii_digit() {
            return Err(ReadFault::Unreadable);
        }
        n = 10 * n + u32::from(*b - b'0');
        if n > 65535 {
            return Err(ReadFault::Unreadable);
        }
    }
    Ok(n as u16)
}

// The number that digits write without a leading zero.
pub(crate) fn number_of(digits: &[u8]) -> Result<u16, ReadFault>
    ensures { result ≡ number_of digits.now }
{
    if plain(digits) {
        value(digits)
    } else {
        Err(ReadFault::Unreadable)
    }
}
