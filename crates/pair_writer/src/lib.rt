// A pair written into a lent buffer.
#![tactic(auto)]

ghost use Rattle.std.specs.Prelude.{◌≡◌, ◌+◌, ◌≤◌, ◌<◌, ◌++◌, length, take};
ghost use Rattle.wire.specs.Buffer.{put_at};
ghost use Rattle.pairs.specs.Length.{length_bytes};
ghost use Rattle.pair_writer.specs.Write.{answered, pair_written};

use wire::copy_into;

// Why a pair is refused: 8, a name or a value has more than 65,535 bytes; 6, the buffer is too short.
#[derive(Clone, Copy, Debug, PartialEq, Eq)]
pub enum PairRefusal {
    TooLong,
    NoRoom,
}

// Both lengths of a pair as they are written: the first `count` of these bytes.
#[derive(Clone, Copy, Debug, PartialEq, Eq)]
pub struct LengthFields {
    pub bytes: [u8; 8],
    pub count: usize,
}

// How many bytes a length takes.
fn length_size(n: usize) -> usize
    ensures { result ≡ length (length_bytes n) }
{
    if n < 128 { 1 } else { 4 }
}

// Writes a length at a place, and answers the place after it.
fn put_length(out: &mut [u8], at: usize, n: usize) -> usize
    requires { (n ≤ 65535) × (at + length (length_bytes n) ≤ length out.old) }
    ensures { (result ≡ at + length (length_bytes n))
        × (out.new ≡ put_at out.old at (length_bytes n)) }
{
    if n < 128 {
        copy_into(out, at, &[n as u8]);
        return at + 1;
    }
    let m = n + 2147483648;
    let four = [
        (m / 16777216 % 256) as u8,
        (m / 65536 % 256) as u8,
        (m / 256 % 256) as u8,
        (m % 256) as u8,
    ];
    copy_into(out, at, &four);
    at + 4
}

// Writes both lengths of a pair at the start of out, and answers the place after them.
fn put_lengths(out: &mut [u8], n: usize, v: usize) -> usize
    requires { (n ≤ 65535) × (v ≤ 65535) × (8 ≤ length out.old) }
    ensures { (result ≡ length (length_bytes n ++ length_bytes v))
        × (out.new ≡ put_at out.old 0 (length_bytes n ++ length_bytes v)) }
{
    let middle = put_length(out, 0, n);
    put_length(out, middle, v)
}

// Both lengths of a pair whose name and value have so many bytes. (A pair that is cut into records has them first.)
pub fn length_fields(n: u16, v: u16) -> LengthFields
    ensures { (result.count ≡ length (length_bytes n ++ length_bytes v))
        × (take result.count result.bytes ≡ length_bytes n ++ length_bytes v) }
{
    let mut bytes = [0u8; 8];
    let count = put_lengths(&mut bytes, n as usize, v as usize);
    LengthFields { bytes, count }
}

// Writes a pair at the start of out, each length in its shorter form. What lies after it stays.
#[tactic(auto, using(crate::proofs::WriteLaws::length_takes), unfolding(crate::specs::Write::pair_written))]
pub fn write_pair(out: &mut [u8], name: &[u8], value: &[u8]) -> Result<usize, PairRefusal>
    ensures { answered result out.new
        ≡ pair_written out.old name.now value.now }
{
    let n = name.len();
    let v = value.len();
    if 65535 < n || 65535 < v {
        return Err(PairRefusal::TooLong);
    }
    let size = length_size(n) + length_size(v) + n + v;
    if out.len() < size {
        return Err(PairRefusal::NoRoom);
    }
    let next = put_length(out, 0, n);
    let start = put_length(out, next, v);
    copy_into(out, start, name);
    copy_into(out, start + n, value);
    Ok(size)
}
