// Whether two pairs of a list have the same name. Reading all later pairs for each pair would take about twenty
// million instructions for the names that 4,096 bytes can hold. So each name has a key, a number, and later pairs
// are read only where one of them has the same key.
#![tactic(auto)]

ghost use Rattle.std.specs.Prelude.{◌≤◌, ◌≡◌, length};
ghost use Rattle.pair_list.specs.List.{first_from, is_named};
ghost use Rattle.pair_repeats.specs.Repeats.{repeats};
ghost use Rattle.pair_repeats.specs.Keys.{key_with, key_of, may_hold, Filled};

use pair_list::first_from;
use pairs::pair::{Read, read_pair};

// How many keys are kept: as many as 4,096 bytes can hold pairs. A list with more pairs is judged without keys.
const KEYS: usize = 2048;

// A key with one byte more at its end; only its last eight bytes stay.
#[tactic(auto, unfolding(crate::specs::Keys::key_with))]
fn key_with(key: u64, byte: u8) -> u64
    ensures { result ≡ key_with key byte }
{
    key % 0x100_0000_0000_0000 * 256 + u64::from(byte)
}

// A name's key: its length, then its bytes, as one number of which the last eight bytes stay.
fn name_key(name: &[u8]) -> u64
    ensures { result ≡ key_of name.now }
{
    let mut key = name.len() as u64;
    for &byte in name {
        key = key_with(key, byte);
    }
    key
}

// The keys of a list's names, in order. Answers how many there are, or, if the table is too short,
// a number above its length.
#[tactic(auto, using(pairs::proofs::PairLaws::pair_in_lem))]
fn fill_keys(list: &[u8], keys: &mut [u64]) -> usize
    ensures { Filled list.now 0 keys.new 0 result }
{
    let mut at = 0;
    let mut count = 0;
    while let Read::Pair(pair, next) = read_pair(list, at) {
        if keys.len() <= count {
            return keys.len() + 1;
        }
        keys[count] = name_key(&list[pair.name..pair.value]);
        count += 1;
        at = next;
    }
    count
}

// Whether a key may be among the entries `from` up to n; if the table is shorter than n, it may.
fn may_hold(keys: &[u64], from: usize, n: usize, key: u64) -> bool
    ensures { result ≡ may_hold keys.now from n key }
{
    if keys.len() < n {
        return true;
    }
    for i in from..n {
        if keys[i] == key {
            return true;
        }
    }
    false
}

// Whether a pair from a cursor on has that name. The entries `from` up to n are the keys of the pairs from the cursor
// on.
fn comes_again(list: &[u8], at: usize, name: &[u8], keys: &[u64], from: usize, n: usize) -> bool
    ensures { Filled list.now at keys.now from n
        → result ≡ is_named (first_from list.now at name.now) }
{
    may_hold(keys, from, n, name_key(name)) && first_from(list, at, name).is_some()
}

// Whether two pairs of the list have the same name, given the keys of all its pairs.
#[tactic(auto, using(pairs::proofs::PairLaws::pair_in_lem))]
fn repeats_by(list: &[u8], keys: &[u64], n: usize) -> bool
    ensures { Filled list.now 0 keys.now 0 n → result ≡ repeats list.now }
{
    let mut at = 0;
    let mut i: usize = 0;
    while let Read::Pair(pair, next) = read_pair(list, at) {
        i += 1;
        if comes_again(list, next, &list[pair.name..pair.value], keys, i, n) {
            return true;
        }
        at = next;
    }
    false
}

fn repeats_with(list: &[u8], keys: &mut [u64]) -> bool
    ensures { result ≡ repeats list.now }
{
    let count = fill_keys(list, keys);
    repeats_by(list, keys, count)
}

// Whether two pairs of the list have the same name; of a list that is malformed somewhere, the pairs before that
// place count.
pub fn list_repeats(list: &[u8]) -> bool
    ensures { result ≡ repeats list.now }
{
    let mut keys = [0u64; KEYS];
    repeats_with(list, &mut keys)
}
