// A line in the making: each function puts its bytes into the line from a place on and answers the place after them.
ghost use Rattle.std.specs.Prelude.{◌≡◌, [], ◌∷◌, ◌+◌, ◌≤◌, ◌<◌, length};
ghost use Rattle.event_text.specs.Line.{decimal};
ghost use Rattle.station_number.specs.Puts.{Puts};

use wire::copy_into;

// Room for the longest line.
pub const LINE: usize = 96;

pub fn add(line: &mut [u8], at: usize, text: &[u8]) -> usize
    requires { at + length text.now ≤ length line.old }
    ensures { Puts line.old line.new at result
        text.now (length text.now) }
{
    copy_into(line, at, text);
    at + text.len()
}

pub fn add_digit(line: &mut [u8], at: usize, digit: u8) -> usize
    requires { (digit < 10) × (at + 1 ≤ length line.old) }
    ensures { Puts line.old line.new at result ((48 + digit) ∷ []) 1 }
{
    line[at] = 48 + digit;
    at + 1
}

// A number in decimal.
fn add_decimal(line: &mut [u8], at: usize, n: u64) -> usize
    requires { at + length (decimal n) ≤ length line.old }
    ensures { Puts line.old line.new at result (decimal n) (length (decimal n)) }
{
    if n < 10 {
        return add_digit(line, at, n as u8);
    }
    let last = add_decimal(line, at, n / 10);
    add_digit(line, last, (n % 10) as u8)
}

pub fn add_number(line: &mut [u8], at: usize, n: u64) -> usize
    requires { at + 20 ≤ length line.old }
    ensures { Puts line.old line.new at result (decimal n) 20 }
{
    add_decimal(line, at, n)
}
