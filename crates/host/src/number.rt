// Numbers as text: decimal digits, and hexadecimal ones in lower case.
ghost use Rattle.std.specs.Prelude.{◌≡◌, ◌<◌, ◌≤◌, min, max, length, take, drop};
ghost use Rattle.host.specs.Count.{IsPrefix};
ghost use Rattle.host.specs.Digits.{last_digits, IsDigitCount, digit_character};

// Puts a number's decimal digits at the start of `out`, and answers how many they are.
pub fn decimal(n: u64, out: &mut [u8; 20]) -> usize
    ensures count { IsPrefix result out.new }
    ensures fewest { IsDigitCount 10 1 n result }
    ensures digits { take result out.new ≡ last_digits 10 result n }
    ensures rest { drop result out.new ≡ drop result out.old }
{
    let k = digit_count(n, 10, 1);
    put_digits(n, 10, k, out);
    k
}

// Puts a number's hexadecimal digits at the start of `out`, with zeros before them where they are fewer than `width`, and
// answers how many they are. A width of 0 stands for 1, one above 16 for 16.
pub fn hex(n: u64, width: usize, out: &mut [u8; 16]) -> usize
    ensures count { IsPrefix result out.new }
    ensures fewest { IsDigitCount 16 (min (max width 1) 16) n result }
    ensures digits { take result out.new ≡ last_digits 16 result n }
    ensures rest { drop result out.new ≡ drop result out.old }
{
    let k = digit_count(n, 16, width.max(1).min(16));
    put_digits(n, 16, k, out);
    k
}

// How many digits a number has in a base, or `width` where that is more.
fn digit_count(n: u64, base: u64, width: usize) -> usize
    requires base { 1 < base }
    requires width { 0 < width }
    ensures { IsDigitCount base width n result }
{
    let mut k: usize = 1;
    let mut left = n / base;
    while left > 0 {
        left /= base;
        k += 1;
    }
    k.max(width)
}

// Puts the last k digits of a number at the start of `out`.
fn put_digits(n: u64, base: u64, k: usize, out: &mut [u8])
    requires above { 0 < base }
    requires below { base ≤ 16 }
    requires room { k ≤ length out.old }
    ensures digits { take k out.new ≡ last_digits base k n }
    ensures rest { drop k out.new ≡ drop k out.old }
{
    let mut left = n;
    for i in (0..k).rev() {
        out[i] = digit_of(left % base);
        left /= base;
    }
}

// A digit as a character.
fn digit_of(d: u64) -> u8
    requires { d < 16 }
    ensures { result ≡ digit_character d }
{
    if d < 10 {
        b'0' + d as u8
    } else {
        b'a' - 10 + d as u8
    }
}
