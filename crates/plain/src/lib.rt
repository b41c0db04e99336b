// The plain receiver: a whole connection in one lent slice, and nothing kept between calls. It goes by the text of the
// rules (docs/RULES.md): split off a record, look up its id in a table of requests, apply the rule. With the stepping
// receiver it shares the types of events and roles, the code that reads pairs, and three functions on bytes.
#![tactic(auto)]

mod live;
mod rules;
mod table;

ghost use Rattle.std.specs.Prelude.{◌≡◌, ◌<◌, length};
ghost use Rattle.plain.specs.Plain.{answer};
ghost use Rattle.plain.specs.Code.{answer_of};
ghost use Rattle.plain.specs.Promise.{ROOM, Sound, Passes, NextRecord, Reads};

use crate::rules::says;
use crate::table::{AREA, ENTRIES, Table, Tells, empty_table};
use connection::event::{Close, Event, Stream};
use wire::number_of_two;

// The last word: open between two records, cut inside one, or closed.
#[derive(Clone, Copy)]
pub enum LastWord {
    Open,
    Cut,
    Closed { cause: Close },
}

// What is asked for by number: an event or a byte of data, or past the last of them the last word. A close is a last
// word and no event.
#[derive(Clone, Copy)]
pub enum Answer {
    Event(Event),
    Byte { id: u16, stream: Stream, byte: u8 },
    Last(LastWord),
}

// After a record: the answer, or the next record, `size` bytes on, with `left` events still to pass before the one
// that is asked for.
#[derive(Clone, Copy)]
enum Next {
    Answer(Answer),
    Record { size: usize, left: usize },
}

// The requests after a record, and what comes next.
#[derive(Clone, Copy)]
struct Heard {
    table: Table,
    next: Next,
}

// The event of number k, counted from 0, of a connection on which these bytes come.
pub fn event_at(bytes: &[u8], k: usize) -> Answer
    ensures { answer_of result ≡ answer bytes.now k }
{
    let mut store = [0u8; ENTRIES * AREA];
    event_in(bytes, k, &mut store)
}

// The same with a store for the lists, an area to each entry of the table. What it holds at first does not matter.
fn event_in(bytes: &[u8], k: usize, store: &mut [u8]) -> Answer
    requires { length store.old ≡ 65536 }
    ensures { answer_of result ≡ answer bytes.now k }
{
    let mut table = empty_table();
    let mut left = k;
    let mut at: usize = 0;
    while at < bytes.len() {
        let heard = read_record(table, store, &bytes[at..], left);
        table = heard.table;
        match heard.next {
            Next::Answer(answer) => return answer,
            Next::Record { size, left: still } => {
                at += size;
                left = still;
            }
        }
    }
    Answer::Last(LastWord::Open)
}

// The first record of these bytes. Of a record that is cut, what there is counts: its header, then its content so far.
fn read_record(table: Table, store: &mut [u8], bytes: &[u8], left: usize) -> Heard
    requires { (Sound table ROOM) × (length store.old ≡ 65536) × (0 < length bytes.now) }
    ensures { Reads table store.old bytes.now left result store.new }
{
    if bytes.len() < 8 {
        return Heard {
            table,
            next: Next::Answer(Answer::Last(LastWord::Cut)),
        };
    }
    let n = number_of_two(bytes[4], bytes[5]) as usize;
    let size = 8 + n + bytes[6] as usize;
    let content = &bytes[8..8 + n.min(bytes.len() - 8)];
    let said = says(table, store, bytes, content);
    Heard {
        table: said.table,
        next: pass(said.tells, content, left, size, bytes.len()),
    }
}

// Passes the events of a record, or finds the one that is asked for among them. x is the record's content; the record
// has `size` bytes, and `all` are there.
fn pass(tells: Tells, x: &[u8], left: usize, size: usize, all: usize) -> Next
    ensures { Passes result tells x.now left size all }
{
    match tells {
        Tells::Nothing => next_record(left, size, all),
        Tells::Event(event) => {
            if left == 0 {
                return Next::Answer(Answer::Event(event));
            }
            next_record(left - 1, size, all)
        }
        Tells::Bytes { id, stream } => {
            if left < x.len() {
                return Next::Answer(Answer::Byte {
                    id,
                    stream,
                    byte: x[left],
                });
            }
            next_record(left - x.len(), size, all)
        }
        Tells::Close(cause) => Next::Answer(Answer::Last(LastWord::Closed { cause })),
    }
}

fn next_record(left: usize, size: usize, all: usize) -> Next
    ensures { NextRecord result left size all }
{
    if size <= all {
        return Next::Record { size, left };
    }
    Next::Answer(Answer::Last(LastWord::Cut))
}
