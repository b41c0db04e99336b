// Numbers in decimal.

// The number of one to twenty digits that a word is; none where another character stands or 64 bits do not hold it.
pub fn number_of(word: &[u8]) -> Option<u64> {
    if word.is_empty() || word.len() > 20 {
        return None;
    }
    let mut n: u64 = 0;
    for digit in word {
        if !digit.is_ascii_digit() {
            return None;
        }
        n = n.checked_mul(10)?.checked_add(u64::from(*digit - b'0'))?;
    }
    Some(n)
}

// A number of 32 bits, below zero where a minus sign stands before it.
pub fn signed_of(word: &[u8]) -> Option<i32> {
    let n = match word {
        [b'-', digits @ ..] => i64::try_from(number_of(digits)?).ok()?.checked_neg()?,
        _ => i64::try_from(number_of(word)?).ok()?,
    };
    i32::try_from(n).ok()
}
