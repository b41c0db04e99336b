// Rules 1 to 5: what a record comes to, by its version and its id. n is the content length in the header, x the
// content, or as much as there is.
ghost use Rattle.std.specs.Prelude.{◌≡◌, List, ℕ, ◌≤◌, ◌<◌, length};
ghost use Rattle.pair_list.specs.List.{first_named, is_named};
ghost use Rattle.connection.specs.Codes.{event_of, role_number};
ghost use Rattle.plain.specs.Plain.{Request, query as query_of, on_query, on_management, opening as openingOf};
ghost use Rattle.plain.specs.Plain.{on_inactive, on_active, two};
ghost use Rattle.plain.specs.Code.{requests_of, said_by, said, refused};
ghost use Rattle.plain.specs.Promise.{opens_where, says_by, ROOM, Sound, Comes};

use crate::live::on_live;
use crate::table::{
    AREA, BEGIN, ENTRIES, GET_VALUES, Said, Table, Tells, new_entry, place_of, with_entry,
};
use connection::event::{Close, Event, Status};
use connection::request::Role;
use pair_list::{Ending, first_named, list_ending};
use wire::{copy_into, number_of_two};

// A record by its header, which is the first eight of these bytes.
pub fn says(table: Table, store: &mut [u8], header: &[u8], x: &[u8]) -> Said
    requires { (Sound table ROOM) × (length store.old ≡ 65536) × (8 ≤ length header.now)
        × (length x.now ≤ two header.now 4) }
    ensures { Comes table x.now result store.new
        (says_by (requests_of table store.old) header.now x.now) }
{
    let version = header[0];
    let kind = header[1];
    let id = number_of_two(header[2], header[3]);
    let n = number_of_two(header[4], header[5]);
    if version != 1 {
        return comes_to(table, Tells::Close(Close::Version));
    }
    if id == 0 {
        return comes_to(table, on_management(kind, n, x));
    }
    let i = place_of(table, id);
    if i < table.count {
        return on_active(table, store, i, kind, n, x);
    }
    on_inactive(table, id, kind, n, x)
}

// ---- rules 2 and 3: id 0
#[tactic(auto, unfolding(crate::specs::Plain::on_management))]
fn on_management(kind: u8, n: u16, x: &[u8]) -> Tells
    requires { length x.now ≤ n }
    ensures { (rs : List Request) → said_by result rs x.now ≡ on_management rs kind n x.now }
{
    if kind == GET_VALUES {
        return on_query(n, x);
    }
    Tells::Event(Event::Unknown { kind })
}

// A query is judged once it is whole; one that is too long closes at its header.
fn on_query(n: u16, x: &[u8]) -> Tells
    requires { length x.now ≤ n }
    ensures { (rs : List Request) → said_by result rs x.now ≡ on_query rs n x.now }
{
    if 512 < n {
        return Tells::Close(Close::QueryLength);
    }
    if x.len() < n as usize {
        return Tells::Nothing;
    }
    if let Ending::Malformed(place) = list_ending(x) {
        let at = place as u16;
        return Tells::Close(Close::QueryMalformed { at });
    }
    Tells::Event(query(x))
}

// Which variables it names.
#[tactic(auto, unfolding(crate::specs::Plain::query))]
fn query(x: &[u8]) -> Event
    ensures { event_of result ≡ query_of x.now }
{
    Event::Query {
        max_conns: has_name(x, b"FCGI_MAX_CONNS"),
        max_reqs: has_name(x, b"FCGI_MAX_REQS"),
        mpxs_conns: has_name(x, b"FCGI_MPXS_CONNS"),
    }
}

fn has_name(list: &[u8], name: &[u8]) -> bool
    ensures { result ≡ is_named (first_named list.now name.now) }
{
    first_named(list, name).is_some()
}

// ---- rule 4: an id that is not active
fn on_inactive(table: Table, id: u16, kind: u8, n: u16, x: &[u8]) -> Said
    requires { Sound table ROOM }
    ensures { (store : List ℕ) → Comes table x.now result store
        (on_inactive (requests_of table store) id kind n x.now) }
{
    if kind != BEGIN {
        return comes_to(table, Tells::Nothing);
    }
    if n != 8 {
        return comes_to(table, Tells::Close(Close::BeginLength));
    }
    if x.len() != 8 {
        return comes_to(table, Tells::Nothing);
    }
    opening(table, id, x)
}

// A BEGIN body that is whole.
fn opening(table: Table, id: u16, x: &[u8]) -> Said
    requires { (Sound table ROOM) × (length x.now ≡ 8) }
    ensures { (store : List ℕ) → Comes table x.now result store
        (openingOf (requests_of table store) id x.now) }
{
    let role = number_of_two(x[0], x[1]);
    let keep = x[2] % 2 == 1;
    match role {
        1 => opens(table, id, role, Role::Responder, keep),
        2 => opens(table, id, role, Role::Authorizer, keep),
        3 => opens(table, id, role, Role::Filter, keep),
        _ => refuses(table, id, Status::UnknownRole),
    }
}

fn refuses(table: Table, id: u16, status: Status) -> Said
    ensures { result ≡ refused table id status }
{
    comes_to(table, Tells::Event(Event::Refuse { id, status }))
}

// A role that exists, and its number.
fn opens(table: Table, id: u16, number: u16, role: Role, keep: bool) -> Said
    requires { (Sound table ROOM) × (role_number role ≡ number) }
    ensures { (store x : List ℕ) → Comes table x result store
        (opens_where (requests_of table store) id number keep) }
{
    let count = table.count;
    if count < ENTRIES {
        let after = with_entry(table, count, new_entry(id, number), count + 1);
        return comes_to(after, Tells::Event(Event::Open { id, role, keep }));
    }
    refuses(table, id, Status::Overloaded)
}

// ---- rule 5: the request of the entry in place i. Where it is not spent, rules 6 to 10 decide, and content that is
// kept goes after its list.
fn on_active(table: Table, store: &mut [u8], i: usize, kind: u8, n: u16, x: &[u8]) -> Said
    requires { (Sound table ROOM) × (length store.old ≡ 65536) × (i < table.count) × (length x.now ≤ n) }
    ensures { Comes table x.now result store.new
        (on_active (requests_of table store.old) i kind n x.now) }
{
    let e = table.entries[i];
    if e.spent {
        return comes_to(table, Tells::Nothing);
    }
    let start = i * AREA;
    let end = start + e.length as usize;
    let change = on_live(e, &store[start..end], kind, n, x);
    copy_into(store, end, &x[..change.kept]);
    comes_to(
        with_entry(table, i, change.after, table.count),
        change.tells,
    )
}

fn comes_to(table: Table, tells: Tells) -> Said
    ensures { result ≡ said table tells }
{
    Said { table, tells }
}
