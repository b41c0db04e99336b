// Bytes in hex.
ghost use Rattle.std.specs.Prelude.{◌<◌, IfSome};

// What a digit stands for. A capital letter is none.
fn digit_of(b: u8) -> Option<u8>
    ensures { IfSome result (λ d. d < 16) }
{
    match b {
        b'0'..=b'9' => Some(b - b'0'),
        b'a'..=b'f' => Some(b - b'a' + 10),
        _ => None,
    }
}

// Puts at most so many bytes of a word at the start of a buffer, and answers how many they are; `-` is no bytes.
pub fn decode(word: &[u8], most: usize, room: &mut [u8]) -> Option<usize> {
    if matches!(word, b"-") {
        return Some(0);
    }
    if word.is_empty() || word.len() % 2 == 1 {
        return None;
    }
    let mut n: usize = 0;
    for pair in word.chunks_exact(2) {
        if n >= most || n >= room.len() {
            return None;
        }
        room[n] = (digit_of(pair[0])? << 4) | digit_of(pair[1])?;
        n += 1;
    }
    Some(n)
}
