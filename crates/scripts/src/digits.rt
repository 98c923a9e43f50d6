//! Bytes from hexadecimal digits, by a table.
ghost use Rattle.std.specs.Prelude.{◌≡◌, ◌*◌, length, Some, None, if◌then◌else◌};
ghost use Rattle.std.specs.Result.{result_ok};
ghost use Rattle.hex.specs.Hex.{decode_of};
ghost use Rattle.scripts.specs.Digits.{value_or_none};

/// No digit has this value.
const NONE: u16 = 256;

/// For each byte its value as a digit of either case, or `NONE`.
static VALUES: [u16; 256] = [
    256, 256, 256, 256, 256, 256, 256, 256, 256, 256, 256, 256, 256, 256, 256, 256, 256, 256, 256,
    256, 256, 256, 256, 256, 256, 256, 256, 256, 256, 256, 256, 256, 256, 256, 256, 256, 256, 256,
    256, 256, 256, 256, 256, 256, 256, 256, 256, 256, 0, 1, 2, 3, 4, 5, 6, 7, 8, 9, 256, 256, 256,
    256, 256, 256, 256, 10, 11, 12, 13, 14, 15, 256, 256, 256, 256, 256, 256, 256, 256, 256, 256,
    256, 256, 256, 256, 256, 256, 256, 256, 256, 256, 256, 256, 256, 256, 256, 256, 10, 11, 12, 13,
    14, 15, 256, 256, 256, 256, 256, 256, 256, 256, 256, 256, 256, 256, 256, 256, 256, 256, 256,
    256, 256, 256, 256, 256, 256, 256, 256, 256, 256, 256, 256, 256, 256, 256, 256, 256, 256, 256,
    256, 256, 256, 256, 256, 256, 256, 256, 256, 256, 256, 256, 256, 256, 256, 256, 256, 256, 256,
    256, 256, 256, 256, 256, 256, 256, 256, 256, 256, 256, 256, 256, 256, 256, 256, 256, 256, 256,
    256, 256, 256, 256, 256, 256, 256, 256, 256, 256, 256, 256, 256, 256, 256, 256, 256, 256, 256,
    256, 256, 256, 256, 256, 256, 256, 256, 256, 256, 256, 256, 256, 256, 256, 256, 256, 256, 256,
    256, 256, 256, 256, 256, 256, 256, 256, 256, 256, 256, 256, 256, 256, 256, 256, 256, 256, 256,
    256, 256, 256, 256, 256, 256, 256, 256, 256, 256, 256, 256, 256, 256, 256, 256, 256, 256, 256,
    256, 256, 256,
];

/// Puts the bytes of these digits into the room; false where a byte is no digit. The crate `hex`
/// branches on the class of each digit, and one guess in three is wrong. A table has no branch, and
/// a byte that is no digit is found after the loop, by the bits of all sums. As a function of its
/// own the loop has the registers to itself.
#[inline(never)]
pub fn decode(digits: &[u8], room: &mut [u8]) -> bool
    requires { length digits.now ≡ 2 * length room.old }
    ensures { result_ok (decode_of digits.now) ≡ if result then Some room.new else None }
{
    let mut seen = 0u16;
    for i in 0..room.len() {
        let sum = 16 * value_of(digits[2 * i]) + value_of(digits[2 * i + 1]);
        seen |= sum;
        room[i] = (sum % 256) as u8;
    }
    seen < NONE
}

/// The value of a byte as a digit, or `NONE`.
#[inline(always)]
fn value_of(digit: u8) -> u16
    ensures { result ≡ value_or_none digit }
{
    VALUES[digit as usize]
}
