// The table of the active requests. Nothing is finished here, so no entry is freed, and the requests stay in the order
// in which they were opened.
ghost use Rattle.std.specs.Prelude.{◌≡◌, List, ℕ, ◌≤◌, ◌<◌};
ghost use Rattle.plain.specs.Plain.{place_of};
ghost use Rattle.plain.specs.Code.{new_entry, empty_table, with_entry, requests_of};

use connection::event::{Close, Event, Stream};

// The record types that a rule names.
pub const BEGIN: u8 = 1;

pub const ABORT: u8 = 2;

pub const PARAMS: u8 = 4;

pub const STDIN: u8 = 5;

pub const DATA: u8 = 8;

pub const GET_VALUES: u8 = 9;

pub const ENTRIES: usize = 16;
// An entry has so many bytes of the store for its list.
pub const AREA: usize = 4096;

// An active request.
#[derive(Clone, Copy)]
pub struct Entry {
    pub id: u16,
    pub role: u16,
    // The type of the stream whose turn it is, 0 where none is left.
    pub turn: u8,
    // A fault or an abort spends it.
    pub spent: bool,
    // How many bytes its list has, the PARAMS content so far.
    pub length: u16,
    // How many bytes were shown of the stream whose turn it is.
    pub shown: usize,
}

#[derive(Clone, Copy)]
pub struct Table {
    pub entries: [Entry; ENTRIES],
    // So many of them are taken, the first ones.
    pub count: usize,
}

// What a record tells: nothing, an event, each byte of its content, or that the connection closes.
#[derive(Clone, Copy)]
pub enum Tells {
    Nothing,
    Event(Event),
    Bytes { id: u16, stream: Stream },
    Close(Close),
}

// What a record comes to: the table after it, and what it tells.
#[derive(Clone, Copy)]
pub struct Said {
    pub table: Table,
    pub tells: Tells,
}

// A request that is opened.
pub fn new_entry(id: u16, role: u16) -> Entry
    ensures { result ≡ new_entry id role }
{
    Entry {
        id,
        role,
        turn: PARAMS,
        spent: false,
        length: 0,
        shown: 0,
    }
}

// No entry is taken, so it does not matter what they hold.
pub fn empty_table() -> Table
    ensures { result ≡ empty_table }
{
    Table {
        entries: [new_entry(0, 0); ENTRIES],
        count: 0,
    }
}

// The place of the first entry with that id; past the last where none has it.
pub fn place_of(table: Table, id: u16) -> usize
    requires { table.count ≤ 16 }
    ensures { (store : List ℕ) → result ≡ place_of (requests_of table store) id }
{
    for i in 0..table.count {
        if table.entries[i].id == id {
            return i;
        }
    }
    table.count
}

// The table with that entry in place i, and so many entries taken.
pub fn with_entry(table: Table, i: usize, e: Entry, count: usize) -> Table
    requires { i < 16 }
    ensures { result ≡ with_entry table i e count }
{
    let mut after = table;
    after.entries[i] = e;
    after.count = count;
    after
}
