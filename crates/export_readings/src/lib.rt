// The reader of readings linked from another language: a whole body is read in pieces, and all that the calls tell comes
// back as one number.
#![tactic(auto)]

ghost use Rattle.std.specs.Prelude.{◌<◌};

use digest::next_end;
use fastcgi::{Reading, ReadingResult, new_reader, read_reading, reading_fault_number};
use reading::sent_of;

// How much a temperature is above -600, of ten bits. (2,147,484,247 is 599 of ten bits, and no half is larger.)
fn above_coldest(sent: u32) -> u64
    ensures { result < 1024 }
{
    let half = u64::from(sent / 2);
    if sent % 2 == 0 {
        (half + 600) % 1024
    } else {
        (2147484247 - half) % 1024
    }
}

// A reading as a number of 48 bits.
fn reading_weight(r: Reading) -> u64
    ensures { result < 281474976710656 }
{
    let above = above_coldest(sent_of(r.tenths));
    (u64::from(r.log) + above * 4294967296 + u64::from(r.raw) * 7) % 281474976710656
}

// What a call told as a number of 48 bits.
fn told_weight(told: ReadingResult) -> u64
    ensures { result < 281474976710656 }
{
    match told {
        ReadingResult::Nothing => 0,
        ReadingResult::Reading(r) => reading_weight(r),
        ReadingResult::Refused(fault) => u64::from(reading_fault_number(fault)),
    }
}

// That number mixed into a digest of 56 bits.
fn mixed(sum: u64, told: ReadingResult) -> u64
    requires { sum < 72057594037927936 }
    ensures { result < 72057594037927936 }
{
    (sum * 33 + told_weight(told)) % 72057594037927936
}

// The digest of what the calls tell over a body that is read in pieces of `piece` bytes, to its end or to the first call
// that uses nothing.
#[unsafe(no_mangle)]
pub extern "C" fn fastcgi_readings_digest(input: &[u8], piece: usize) -> u64 {
    let mut reader = new_reader();
    let mut sum = 0;
    let mut at = 0;
    let mut end = 0;
    while at < input.len() {
        end = next_end(at, end, piece, input.len());
        let read = read_reading(reader, &input[at..end]);
        reader = read.reader;
        if read.used == 0 {
            return sum;
        }
        sum = mixed(sum, read.result);
        at += read.used;
    }
    sum
}
