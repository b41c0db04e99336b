// One record, and a stream in records, written into a lent buffer.
#![tactic(auto)]

ghost use Rattle.std.specs.Prelude.{◌≡◌, ◌+◌, ◌≤◌, ◌<◌, length};
ghost use Rattle.record_writer.specs.Written.{Placed, padding_of, record_length, record_fits, stream_fits};
ghost use Rattle.record_writer.specs.Written.{record_placed, stream_placed};

use record::header::header_bytes;
use wire::{copy_into, least};

// The padding of n content bytes: to a multiple of eight.
#[tactic(auto, unfolding(crate::specs::Written::padding_of))]
fn padding_of(n: u16) -> u8
    ensures { result ≡ padding_of n }
{
    ((8 - n % 8) % 8) as u8
}

// The length of a record with n content bytes, header and padding included.
#[tactic(auto, unfolding(crate::specs::Written::record_length))]
pub fn record_length(n: u16) -> usize
    ensures { result ≡ record_length n }
{
    let padding = padding_of(n);
    8 + n as usize + padding as usize
}

// Whether n bytes of content make a record that fits into a buffer of `room` bytes at place `at`.
#[tactic(auto, using(wire::proofs::BufferLaws::room_left), unfolding(crate::specs::Written::record_fits))]
pub fn record_fits(n: usize, at: usize, room: usize) -> bool
    ensures { result ≡ record_fits n at room }
{
    n <= 65535 && at <= room && record_length(n as u16) <= room - at
}

// Writes one record into out at place `at`, padded to a multiple of eight, and answers the place after it.
// Where it does not fit, nothing is written and the answer is `at`.
#[tactic(auto, using(crate::proofs::WrittenLaws::record_fits_lem, crate::proofs::WrittenLaws::padding_small))]
pub fn write_record(out: &mut [u8], at: usize, kind: u8, id: u16, content: &[u8]) -> usize
    ensures { record { next = result; buffer = out.new }
        ≡ record_placed out.old at kind id content.now }
{
    let n = content.len();
    if !record_fits(n, at, out.len()) {
        return at;
    }
    let padding = padding_of(n as u16);
    let header = header_bytes(kind, id, n as u16, padding);
    copy_into(out, at, &header);
    let start = at + 8;
    copy_into(out, start, content);
    let end = start + n;
    let zeros = [0u8; 8];
    copy_into(out, end, &zeros[..padding as usize]);
    end + padding as usize
}

// Whether n bytes, in records of `size` content bytes, fit into a buffer of `room` bytes at place `at`.
#[tactic(auto, using(crate::proofs::StreamLaws::record_long, crate::proofs::StreamLaws::count_room), unfolding(crate::specs::Written::stream_fits))]
pub fn stream_fits(size: u16, n: usize, at: usize, room: usize) -> bool
    ensures { result ≡ stream_fits size n at room }
{
    if size == 0 || room < at {
        return false;
    }
    let left = room - at;
    let whole = record_length(size);
    let count = n / size as usize;
    if left / whole < count {
        return false;
    }
    let tail = n % size as usize;
    tail == 0 || record_length(tail as u16) <= left - count * whole
}

// Writes bytes into out from place `at` on, in records of `size` content bytes, the last one shorter, and answers
// the place after them. No bytes, no record. Where they do not all fit, nothing is written and the answer is `at`.
pub fn write_stream(out: &mut [u8], at: usize, kind: u8, id: u16, bytes: &[u8], size: u16) -> usize
    ensures { record { next = result; buffer = out.new }
        ≡ stream_placed out.old at kind id bytes.now size }
{
    if !stream_fits(size, bytes.len(), at, out.len()) {
        return at;
    }
    let mut place = at;
    let mut from: usize = 0;
    while from < bytes.len() {
        let n = least(size as usize, bytes.len() - from);
        let next = from + n;
        place = write_record(out, place, kind, id, &bytes[from..next]);
        from = next;
    }
    place
}
