// A list of pairs: how it ends, and a pair found by its name or its number.
#![tactic(auto)]

ghost use Rattle.std.specs.Prelude.{◌≡◌};
ghost use Rattle.pair_list.specs.List.{ending_of, first_from, first_named, pair_number};

use pairs::pair::{Pair, Read, read_pair};
use wire::same;

// How a list ends: with its bytes used up, or before a pair that cannot be read, which starts at a place.
#[derive(Clone, Copy, Debug, PartialEq, Eq)]
pub enum Ending {
    End,
    Malformed(usize),
}

#[tactic(auto, using(pairs::proofs::PairLaws::pair_in_lem))]
pub fn list_ending(list: &[u8]) -> Ending
    ensures { result ≡ ending_of list.now }
{
    let mut at = 0;
    loop {
        match read_pair(list, at) {
            Read::Pair(_, next) => at = next,
            Read::End => return Ending::End,
            Read::Malformed(place) => return Ending::Malformed(place),
        }
    }
}

// The first pair with that name, from a cursor on.
#[tactic(auto, using(pairs::proofs::PairLaws::pair_in_lem))]
pub fn first_from(list: &[u8], start: usize, name: &[u8]) -> Option<Pair>
    ensures { result ≡ first_from list.now start name.now }
{
    let mut at = start;
    while let Read::Pair(pair, next) = read_pair(list, at) {
        if same(&list[pair.name..pair.value], name) {
            return Some(pair);
        }
        at = next;
    }
    None
}

// The first pair with that name.
#[tactic(auto, unfolding(crate::specs::List::first_named, crate::specs::List::first_from))]
pub fn first_named(list: &[u8], name: &[u8]) -> Option<Pair>
    ensures { result ≡ first_named list.now name.now }
{
    first_from(list, 0, name)
}

// The pair of number k, counted from 0.
#[tactic(auto, using(pairs::proofs::PairLaws::pair_in_lem))]
pub fn pair_number(list: &[u8], k: usize) -> Option<Pair>
    ensures { result ≡ pair_number list.now k }
{
    let mut left = k;
    let mut at = 0;
    while let Read::Pair(pair, next) = read_pair(list, at) {
        if left == 0 {
            return Some(pair);
        }
        left -= 1;
        at = next;
    }
    None
}
