// A request's parameters: a value by its name, a pair by its number.
#![tactic(auto)]

ghost use Rattle.std.specs.Prelude.{◌≡◌, Some, None, Ok};
ghost use Rattle.connection.specs.Calls.{value, source, pair_at_number};
ghost use Rattle.connection.specs.RequestCalls.{on_found, FromStore, FromFallback};
ghost use Rattle.pairs.specs.Pair.{value_of};
ghost use Rattle.pair_list.specs.List.{first_named};
ghost use Rattle.call_list.specs.Listing.{listing};
ghost use Rattle.call_list.specs.Part.{PartOrElse, value_place};
ghost use Rattle.call_value.specs.Answer.{IsList, source_by, numbered_by};

use call_list::list_at;
use connection::answer::Refusal;
use connection::state::Conn;
use pair_list::{first_named, pair_number};
use pairs::pair::Pair;

// Where `value` finds its answer.
#[derive(Clone, Copy, Debug, PartialEq, Eq)]
pub enum Source {
    Store,
    Fallback,
}

// A request's list, as the part of the store that it is. Refusals 2, 9, 1, 3, 4.
fn list_in<'a>(c: Conn, store: &'a [u8], id: u16) -> Result<&'a [u8], Refusal>
    ensures { IsList store.entry (listing c store.now id) result }
{
    let (from, to) = list_at(c, store, id)?;
    Ok(&store[from..to])
}

// The first value of that name in a list, or the fallback.
fn value_in<'a>(list: &'a [u8], name: &[u8], fallback: &'a [u8]) -> &'a [u8]
    ensures { (result.now
        ≡ on_found (first_named list.now name.now) (value_of list.now)
        fallback.now)
        × PartOrElse list.entry fallback.entry result
        (on_found (first_named list.now name.now) (λ p. Some p.value) None) }
{
    let Some(pair) = first_named(list, name) else {
        return fallback;
    };
    &list[pair.value..pair.value + pair.value_len]
}

// The value of the first pair with that name, as a part of the store; the fallback where there is none, and where
// the call is refused (2, 9, 1, 3, 4). In a run at most one pair has that name (theorem
// `connection/Runs/OneMatch.value_one_match`).
pub fn value<'a>(c: Conn, store: &'a [u8], id: u16, name: &[u8], fallback: &'a [u8]) -> &'a [u8]
    ensures { (result.now ≡ value c store.now id name.now fallback.now)
        × PartOrElse store.entry fallback.entry result (value_place c store.now id name.now) }
{
    match list_in(c, store, id) {
        Ok(list) => value_in(list, name, fallback),
        Err(_) => fallback,
    }
}

// A pair found is the store's, also where its value is empty.
fn source_of(found: Option<Pair>) -> Source
    ensures { source_by (Ok result) ≡ on_found found (λ p. FromStore) FromFallback }
{
    match found {
        Some(_) => Source::Store,
        None => Source::Fallback,
    }
}

// Where value finds its answer, or why it is refused.
pub fn value_source(c: Conn, store: &[u8], id: u16, name: &[u8]) -> Result<Source, Refusal>
    ensures { source_by result ≡ source c store.now id name.now }
{
    let list = list_in(c, store, id)?;
    Ok(source_of(first_named(list, name)))
}

// The pair of number k, counted from 0. Refusals 2, 9, 1, 3, 4, 7.
pub fn pair_at(c: Conn, store: &[u8], id: u16, k: usize) -> Result<Pair, Refusal>
    ensures { numbered_by result ≡ pair_at_number c store.now id k }
{
    pair_number(list_in(c, store, id)?, k).ok_or(Refusal::NoPair)
}
