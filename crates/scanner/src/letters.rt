// Names and numbers as they are read: the code of a name, and the value of a number.
ghost use Rattle.std.specs.Prelude.{◌≡◌};
ghost use Rattle.scanner.specs.Codes.{next_letter, next_digit};

// Where a code, and a number, is held: 2 to the power of 40.
const HELD: u64 = 1 << 40;

// A name's code with one letter more: in base 32, a is 1 and z is 26.
pub(crate) fn letter(code: u64, b: u8) -> u64
    ensures { result ≡ next_letter code b }
{
    (32 * code.min(HELD) + u64::from(b % 32)).min(HELD)
}

// A number's value with one digit more.
pub(crate) fn digit(value: u64, b: u8) -> u64
    ensures { result ≡ next_digit value b }
{
    10 * value.min(HELD) + u64::from(b % 16)
}

// The code of amet: the places in the alphabet of a, m, e and t, in base 32.
// Stays: a code, as that of each name.
pub(crate) const AMET: u64 = ((1 * 32 + 13) * 32 + 5) * 32 + 20;
