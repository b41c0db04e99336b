// A pair written as a stream: in records, cut where a record is full. The pair is never put together in one place; its
// lengths, its name and its value are three slices, and each record takes what falls into it of each.
#![tactic(auto)]

ghost use Rattle.std.specs.Prelude.{◌≡◌, true, ◌++◌, ◌+◌, ◌-◌, ◌≤◌, length, take, drop};
ghost use Rattle.wire.specs.Buffer.{copied};
ghost use Rattle.record_writer.specs.Written.{Placed, record_length, stream_fits, record_placed, stream_placed};
ghost use Rattle.pair_writer.specs.Write.{answered};
ghost use Rattle.pair_stream.specs.Stream.{pair_streamed};

use pair_writer::{PairRefusal, length_fields};
use record::header::header_bytes;
use record_writer::{record_length, stream_fits};
use wire::{copy_into, least};

// How far a place lies behind the first n; 0 if it lies among them.
fn past(place: usize, n: usize) -> usize
    ensures { result ≡ place - n }
{
    if place < n {
        return 0;
    }
    place - n
}

// Copies n bytes of s from a place on, or as many as it has, into out at place `at`, and answers how many these are.
fn copy_some(out: &mut [u8], at: usize, s: &[u8], from: usize, n: usize) -> usize
    ensures { (result ≡ length (take n (drop from s.now)))
        × (out.new ≡ copied out.old at (take n (drop from s.now))) }
{
    if s.len() <= from {
        return 0;
    }
    let k = least(n, s.len() - from);
    let next = from + k;
    copy_into(out, at, &s[from..next]);
    k
}

// The same of three slices, one after the other.
fn copy_part(out: &mut [u8], at: usize, a: &[u8], b: &[u8], c: &[u8], from: usize, n: usize)
    requires { at + n ≤ length out.old }
    ensures { out.new
        ≡ copied out.old at (take n (drop from (a.now ++ b.now ++ c.now))) }
{
    let k = copy_some(out, at, a, from, n);
    let second = past(from, a.len());
    let m = copy_some(out, at + k, b, second, n - k);
    copy_some(out, at + k + m, c, past(second, b.len()), n - k - m);
}

// One record at place `at`, whose content is n bytes of the three slices from a place on, and the place after it.
fn put_piece(
    out: &mut [u8],
    at: usize,
    kind: u8,
    id: u16,
    a: &[u8],
    b: &[u8],
    c: &[u8],
    from: usize,
    n: usize,
) -> usize
    requires { (n ≤ 65535) × (from + n ≤ length (a.now ++ b.now ++ c.now))
        × (at + record_length n ≤ length out.old) }
    ensures { record { next = result; buffer = out.new }
        ≡ record_placed out.old at kind id
        (take n (drop from (a.now ++ b.now ++ c.now))) }
{
    let padding = record_length(n as u16) - 8 - n;
    let header = header_bytes(kind, id, n as u16, padding as u8);
    copy_into(out, at, &header);
    let content = at + 8;
    copy_part(out, content, a, b, c, from, n);
    let tail = content + n;
    let zeros = [0u8; 8];
    let z: usize = 0;
    copy_into(out, tail, &zeros[z..padding]);
    tail + padding
}

// All of three slices, whose lengths have a sum, as a stream that fits, from the start of out on: the bytes written.
fn put_records(out: &mut [u8], kind: u8, id: u16, a: &[u8], b: &[u8], c: &[u8], size: u16) -> usize
    requires { (length a.now + length b.now + length c.now ≤ 1000000)
        × (stream_fits size (length (a.now ++ b.now ++ c.now)) 0 (length out.old) ≡ true) }
    ensures { record { next = result; buffer = out.new }
        ≡ stream_placed out.old 0 kind id (a.now ++ b.now ++ c.now) size }
{
    let all = a.len() + b.len() + c.len();
    let most = size as usize;
    let mut place: usize = 0;
    let mut from: usize = 0;
    while from < all {
        let n = least(most, all - from);
        place = put_piece(out, place, kind, id, a, b, c, from, n);
        from += n;
    }
    place
}

// Writes a pair into out from its start on, as a stream of that type and id, in records of `size` content bytes, the
// last one shorter. What lies after them stays.
pub fn write_pair_stream(
    out: &mut [u8],
    kind: u8,
    id: u16,
    name: &[u8],
    value: &[u8],
    size: u16,
) -> Result<usize, PairRefusal>
    ensures { answered result out.new
        ≡ pair_streamed out.old kind id name.now value.now size }
{
    let n = name.len();
    let v = value.len();
    if 65535 < n {
        return Err(PairRefusal::TooLong);
    }
    if 65535 < v {
        return Err(PairRefusal::TooLong);
    }
    let fields = length_fields(n as u16, v as u16);
    let head = fields.bytes;
    let h = fields.count;
    if !stream_fits(size, h + n + v, 0, out.len()) {
        return Err(PairRefusal::NoRoom);
    }
    let z: usize = 0;
    Ok(put_records(out, kind, id, &head[z..h], name, value, size))
}
