// Whether the slots are in shape: row 9's part on the table. It is asked before every step, so it looks at as few slots
// as it can. Its loops have no way out and no branch, and each key is compared with the eight after it, going round, in
// one line: a compiler makes few instructions of that, for eight slots at a time.
#![tactic(auto)]

ghost use Rattle.std.specs.Prelude.{◌≡◌, ℕ, ◌≤◌, ◌<◌, true, false, List};
ghost use Rattle.slot_word.specs.Word.{taken};
ghost use Rattle.connection.specs.Sizes.{SLOTS};
ghost use Rattle.connection.specs.Shape.{slots_fit};
ghost use Rattle.slot_check.specs.Quick.{any_of, slot_bits, key_if, KeysOf, TakenBelow};
ghost use Rattle.slot_check.specs.Quick.{is_nameless, is_long, repeats};

use connection::sizes::{AREA, SLOTS};
use wire::widen;

// The bit of each slot.
const BITS: [u16; SLOTS] = [
    1, 2, 4, 8, 16, 32, 64, 128, 256, 512, 1024, 2048, 4096, 8192, 16384, 32768,
];

// Slot i is taken. Its bit comes from a table, since a shift by i would be made for one slot at a time.
fn has_bit(occupied: u16, bits: &[u16; SLOTS], i: usize) -> bool
    requires { (i < SLOTS) × (bits.now ≡ slot_bits) }
    ensures { result ≡ taken i occupied }
{
    let bit = bits[i];
    occupied & bit == bit
}

// The key of a slot: its id, 0 where it is free. The id is handed over, so that reading it does not depend on the test.
fn key_if(taken: bool, id: u16) -> u16
    ensures { result ≡ key_if taken id }
{
    if taken { id } else { 0 }
}

// Keys twice over: after the last comes the first again. And whether a slot is taken whose key is 0.
#[derive(Clone, Copy)]
struct Keys {
    keys: [u16; 32],
    nameless: bool,
}

// The keys of the first n slots.
fn keys_of(ids: &[u16; SLOTS], occupied: u16, n: usize) -> Keys
    requires { n ≤ SLOTS }
    ensures { KeysOf ids.now occupied n result.keys
        × (result.nameless ≡ any_of n (is_nameless ids.now occupied) 0) }
{
    let bits = BITS;
    let mut keys = [0u16; 32];
    let mut nameless = false;
    let mut i: usize = 0;
    while i < n {
        let id = ids[i];
        let taken = has_bit(occupied, &bits, i);
        let key = key_if(taken, id);
        keys[i] = key;
        keys[i + 16] = key;
        nameless |= taken & (key == 0);
        i += 1;
    }
    Keys { keys, nameless }
}

fn any_long(lengths: &[u16; SLOTS]) -> bool
    ensures { result ≡ any_of SLOTS (is_long lengths.now) 0 }
{
    let mut any = false;
    let mut i: usize = 0;
    while i < SLOTS {
        any |= AREA < widen(lengths[i]);
        i += 1;
    }
    any
}

// The key at place i is that of a slot taken and one of the eight after it is the same.
fn key_repeats(keys: &[u16; 32], i: usize) -> bool
    requires { i < SLOTS }
    ensures { result ≡ repeats keys.now i }
{
    let key = keys[i];
    (key != 0)
        & ((key == keys[i + 1])
            | (key == keys[i + 2])
            | (key == keys[i + 3])
            | (key == keys[i + 4])
            | (key == keys[i + 5])
            | (key == keys[i + 6])
            | (key == keys[i + 7])
            | (key == keys[i + 8]))
}

fn any_repeats(keys: &[u16; 32], n: usize) -> bool
    requires { n ≤ SLOTS }
    ensures { result ≡ any_of n (repeats keys.now) 0 }
{
    let mut any = false;
    let mut i: usize = 0;
    while i < n {
        any |= key_repeats(keys, i);
        i += 1;
    }
    any
}

// How many slots to look at: 8 where the upper half is free, and 16 elsewhere. It is computed without a test, because a
// compiler that knows one of the numbers writes the loops out.
pub fn reach(occupied: u16) -> usize
    ensures { TakenBelow occupied result }
{
    8 + ((occupied / 256) as usize + 255) / 256 * 8
}

// The lowest-numbered slot that is taken.
fn lowest_taken(occupied: u16) -> usize
    requires { 0 < occupied }
    ensures { (result < SLOTS) × (taken result occupied ≡ true) }
{
    u16::trailing_zeros(occupied) as usize
}

// No id of a slot taken is 0, and no two are the same. With one slot taken there is nothing to compare.
fn ids_fit(ids: &[u16; SLOTS], occupied: u16) -> bool
    ensures { (lengths : List ℕ) → any_of SLOTS (is_long lengths) 0 ≡ false
        → result ≡ slots_fit SLOTS ids.now lengths occupied 0 }
{
    if occupied == 0 {
        return true;
    }
    if occupied & (occupied - 1) == 0 {
        let one = lowest_taken(occupied);
        return ids[one] != 0;
    }
    let n = reach(occupied);
    let found = keys_of(ids, occupied, n);
    !(found.nameless | any_repeats(&found.keys, n))
}

// No area's length is over AREA, no id of a slot taken is 0, and no two are the same.
#[tactic(auto, using(crate::proofs::QuickRow::long_row))]
pub fn slots_fit<'a>(ids: &'a [u16; SLOTS], lengths: &'a [u16; SLOTS], occupied: u16) -> bool
    ensures { result ≡ slots_fit SLOTS ids.now lengths.now occupied 0 }
{
    !any_long(lengths) && ids_fit(ids, occupied)
}
