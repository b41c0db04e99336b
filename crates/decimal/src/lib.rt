// Numbers written in decimal digits.
#![tactic(auto)]

ghost use Rattle.std.specs.Prelude.{◌≡◌};
ghost use Rattle.decimal.specs.Decimal.{is_digit, decimal_of};

fn is_digit(byte: u8) -> bool
    ensures { result ≡ is_digit byte }
{
    matches!(byte, b'0'..=b'9')
}

// One to ten decimal digits as a number.
#[tactic(auto, unfolding(crate::specs::Decimal::decimal_of))]
pub fn read_decimal(text: &[u8]) -> Option<u64>
    ensures { result ≡ decimal_of text.now }
{
    if text.is_empty() || 10 < text.len() {
        return None;
    }
    let mut value: u64 = 0;
    for &byte in text {
        if !is_digit(byte) {
            return None;
        }
        value = value * 10 + u64::from(byte - b'0');
    }
    Some(value)
}
