// Signed numbers with a point: degrees, which are tenths, and corrected counts, which are thousandths.
ghost use Rattle.std.specs.Prelude.{◌≡◌, [], ◌∷◌, ◌++◌, length};
ghost use Rattle.std.specs.Prelude.{◌+◌, ◌*◌, ◌/◌, ◌^◌, ◌≤◌, ◌<◌};
ghost use Rattle.ice_correction.specs.FloatSize.{AtMost};
ghost use Rattle.event_text.specs.Line.{decimal};
ghost use Rattle.station_number.specs.Fixed.{sign_text, size_of, degrees_text, thousandths_text};
ghost use Rattle.station_number.specs.Fixed.{signed as signedBy, nearest_thousandths, thousandths};
ghost use Rattle.station_number.specs.Pattern.{pattern_size};
ghost use Rattle.station_number.specs.Puts.{Puts};

use crate::line::{add, add_digit, add_number};
use float_bits::bits_of_float;

// In the bit pattern of a float, the bit that is set below zero, and the lowest bit above its 52 digits.
const SIGN: u64 = 1 << 63;

const LEADING: u64 = 1 << 52;

fn add_sign(line: &mut [u8], at: usize, number: i32) -> usize
    requires { at + 1 ≤ length line.old }
    ensures { Puts line.old line.new at result (sign_text number) 1 }
{
    if number < 0 { add(line, at, b"-") } else { at }
}

// A number up to its point, where so many of it are one.
fn add_whole(line: &mut [u8], at: usize, number: i32, one: u32) -> usize
    requires { (at + 22 ≤ length line.old) × (0 < one) }
    ensures { Puts line.old line.new at result
        (sign_text number ++ (decimal (size_of number / one) ++ (46 ∷ []))) 22 }
{
    let signed = add_sign(line, at, number);
    let whole = add_number(line, signed, u64::from(number.unsigned_abs() / one));
    add(line, whole, b".")
}

pub fn add_degrees(line: &mut [u8], at: usize, tenths: i32) -> usize
    requires { at + 23 ≤ length line.old }
    ensures { Puts line.old line.new at result (degrees_text tenths) 23 }
{
    let point = add_whole(line, at, tenths, 10);
    add_digit(line, point, (tenths.unsigned_abs() % 10) as u8)
}

pub fn add_thousandths(line: &mut [u8], at: usize, thousandths: i32) -> usize
    requires { at + 25 ≤ length line.old }
    ensures { Puts line.old line.new at result (thousandths_text thousandths) 25 }
{
    let size = thousandths.unsigned_abs();
    let point = add_whole(line, at, thousandths, 1000);
    let tenth = add_digit(line, point, (size / 100 % 10) as u8);
    let hundredth = add_digit(line, tenth, (size / 10 % 10) as u8);
    add_digit(line, hundredth, (size % 10) as u8)
}

// The number with this sign and this size.
pub fn signed(below: bool, size: u64) -> i32
    requires { size < 2147483648 }
    ensures { result ≡ signedBy below size }
{
    let number = size as i32;
    if below { -number } else { number }
}

// digits / 2 ^ places in thousandths, rounded to the nearest whole number, and up where two are as near.
fn rounded(digits: u64, places: u64) -> u64
    requires { (digits < 9007199254740992) × (0 < places) }
    ensures { result ≡ nearest_thousandths digits (2 ^ places) }
{
    if 63 < places {
        return 0;
    }
    (digits * 1000 + (1u64 << (places - 1))) >> places
}

// The size of a float below 2 ^ 17 in thousandths, rounded; from its bit pattern without the sign.
#[tactic(auto, unfolding(crate::specs::Pattern::pattern_size))]
fn size_in_thousandths(pattern: u64) -> u64
    requires { pattern < 1040 * 4503599627370496 }
    ensures { result ≡ pattern_size pattern }
{
    let field = pattern / LEADING;
    let digits = pattern % LEADING;
    if field == 0 {
        rounded(digits, 1074)
    } else {
        rounded(digits + LEADING, 1075 - field)
    }
}

// A float in thousandths, rounded half away from zero.
pub fn thousandths_of(x: f64) -> i32
    requires { AtMost x 126535 }
    ensures { result ≡ thousandths x }
{
    let bits = bits_of_float(x);
    signed(SIGN <= bits, size_in_thousandths(bits % SIGN))
}
