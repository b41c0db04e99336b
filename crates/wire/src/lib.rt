// Bytes: numbers of two and four bytes, bytes put into a lent buffer, bytes compared.
#![tactic(auto)]

ghost use Rattle.std.specs.Prelude.{◌≡◌, min, length};
ghost use Rattle.wire.specs.Number.{number2, number4};
ghost use Rattle.wire.specs.Buffer.{copied, zeros};
ghost use Rattle.wire.specs.Compare.{same_bytes, compared};

// A number of two bytes as a wider one. (A cast of an array's element asks that the element fits; this asks nothing.)
pub fn widen(n: u16) -> usize
    ensures { result ≡ n }
{
    usize::from(n)
}

// The number of two bytes, the high one first.
pub fn number_of_two(b1: u8, b0: u8) -> u16
    ensures { result ≡ number2 b1 b0 }
{
    u16::from_be_bytes([b1, b0])
}

// The number of four bytes, the highest first.
#[tactic(auto, unfolding(crate::specs::Number::number4))]
pub fn number_of_four(b3: u8, b2: u8, b1: u8, b0: u8) -> u32
    ensures { result ≡ number4 b3 b2 b1 b0 }
{
    u32::from_be_bytes([b3, b2, b1, b0])
}

// Copies src into out at place `at`; where there is no room for all of it, nothing changes. (A loop, since
// `copy_from_slice` becomes a call of `memmove`, and libraries for C are to need `memcpy` and `memset` alone.)
#[tactic(auto, using(crate::proofs::BufferLaws::copied_room, crate::proofs::BufferLaws::copied_none))]
pub fn copy_into(out: &mut [u8], at: usize, src: &[u8])
    ensures { out.new ≡ copied out.old at src.now }
{
    if at <= out.len() && src.len() <= out.len() - at {
        for i in 0..src.len() {
            out[at + i] = src[i];
        }
    }
}

// Zeroes a buffer.
pub fn clear(out: &mut [u8])
    ensures { out.new ≡ zeros (length out.old) }
{
    out.fill(0);
}

// The smaller of two numbers.
pub fn least(a: usize, b: usize) -> usize
    ensures { result ≡ min a b }
{
    a.min(b)
}

// What a comparison finds: whether the names are equal, and how many places were compared.
#[derive(Clone, Copy, Debug, PartialEq, Eq)]
pub struct Compared {
    pub equal: bool,
    pub places: usize,
}

// Lengths first, then byte by byte up to the first that differs, which counts as a place compared.
pub fn compare(a: &[u8], b: &[u8]) -> Compared
    ensures { result ≡ compared a.now b.now }
{
    if a.len() != b.len() {
        return Compared {
            equal: false,
            places: 0,
        };
    }
    for i in 0..a.len() {
        if a[i] != b[i] {
            return Compared {
                equal: false,
                places: i + 1,
            };
        }
    }
    Compared {
        equal: true,
        places: a.len(),
    }
}

// Whether two names are the same.
#[tactic(auto, unfolding(crate::specs::Compare::compared))]
pub fn same(a: &[u8], b: &[u8]) -> bool
    ensures { result ≡ same_bytes a.now b.now }
{
    compare(a, b).equal
}
