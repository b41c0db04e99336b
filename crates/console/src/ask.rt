// The questions: they change nothing.
ghost use Rattle.std.specs.Prelude.{◌≤◌, length};

use crate::command::Question;
use crate::correction::tell_correct;
use connection::answer::Refusal;
use console_queue::memory::Memory;
use console_queue::waiting::{tell_numbers, tell_waits};
use fastcgi_queue::{
    AREA, Pair, Source, active_count, pair_at, pair_from, refusal_number, value, value_source,
};
use pairs::pair::Read;
use queue_list::{list_of, list_refusal};
use script::page::Page;
use slot_table::{find_from, request_at};
use std::io;

// Where `value` finds its answer, and the value.
fn tell_value(
    page: &mut Page,
    m: &Memory,
    id: u16,
    name: &[u8],
    fallback: &[u8],
) -> io::Result<()> {
    match value_source(m.conn, &m.waits, m.lent_store(), id, name) {
        Ok(Source::Store) => page.put(b"store")?,
        Ok(Source::Fallback) => page.put(b"fallback")?,
        Err(why) => page.put_refused(refusal_number(why))?,
    }
    page.put_hex(value(m.conn, &m.waits, m.lent_store(), id, name, fallback))?;
    page.end_line()
}

// The places and lengths of a pair, with a mark between them.
fn put_pair(page: &mut Page, p: Pair, mark: &[u8]) -> io::Result<()> {
    page.put_number(b" ", p.name as u64)?;
    page.put_number(mark, p.name_len as u64)?;
    page.put_number(mark, p.value as u64)?;
    page.put_number(mark, p.value_len as u64)
}

// A pair by its number.
fn tell_pair(page: &mut Page, m: &Memory, id: u16, k: usize) -> io::Result<()> {
    match pair_at(m.conn, &m.waits, m.lent_store(), id, k) {
        Ok(p) => {
            page.put(b"pair")?;
            put_pair(page, p, b" ")?;
        }
        Err(why) => page.put_refused(refusal_number(why))?,
    }
    page.end_line()
}

// The pairs that reading on gives, and the place where it gives none. A proved loop has to end: so this one counts to a
// number of turns that no list uses up.
fn put_walk(page: &mut Page, m: &Memory, id: u16) -> io::Result<()> {
    let mut place: usize = 0;
    for _ in 0..u64::MAX {
        match pair_from(m.conn, &m.waits, m.lent_store(), id, place) {
            Ok(Read::Pair(p, after)) => {
                put_pair(page, p, b",")?;
                place = after;
            }
            Ok(Read::Malformed(broken)) => {
                return page.put_number(b" malformed at ", broken as u64);
            }
            Ok(Read::End) | Err(_) => break,
        }
    }
    page.put_number(b" end ", place as u64)
}

// The list's length and its pairs. A refused walk holds no bytes: one that did would be told as a change.
fn tell_walk(page: &mut Page, m: &Memory, id: u16) -> io::Result<()> {
    let why = list_refusal(m.conn, &m.waits, m.lent_store(), id);
    let length = list_of(m.conn, &m.waits, m.lent_store(), id).len();
    if why > 0 {
        page.put_refusal(why, length > 0)?;
    } else {
        page.put_number(b"walk ", length as u64)?;
        put_walk(page, m, id)?;
    }
    page.end_line()
}

// How many requests are active.
fn tell_active(page: &mut Page, count: Result<u32, Refusal>) -> io::Result<()> {
    match count {
        Ok(n) => page.put_number(b"active ", u64::from(n))?,
        Err(why) => page.put_refused(refusal_number(why))?,
    }
    page.end_line()
}

// What the area of a slot holds: its bytes up to the request's length, or all of them.
fn tell_area(page: &mut Page, m: &Memory, slot: usize) -> io::Result<()> {
    let length = usize::from(request_at(m.conn.table, slot).length);
    let from = slot.saturating_mul(AREA);
    let to = from.saturating_add(length.min(AREA));
    page.put(b"area")?;
    page.put_hex(m.store.get(from..to).unwrap_or(&[]))?;
    page.end_line()
}

// How much was shown of the input of a slot's request.
fn tell_counts(page: &mut Page, m: &Memory, slot: usize) -> io::Result<()> {
    let shown = request_at(m.conn.table, slot).state.shown;
    page.put_number(b"counts ", u64::from(shown.stdin))?;
    page.put_number(b" ", u64::from(shown.data))?;
    page.end_line()
}

// How many bytes are zero: a sum without a branch, so that a compiler takes many bytes at a time.
fn zero_count(bytes: &[u8]) -> usize
    ensures { result ≤ length bytes.now }
{
    let mut zeros = 0;
    for b in bytes {
        zeros += usize::from(*b == 0);
    }
    zeros
}

// How many bytes of the store are not zero, and where the first and the last of them lie.
fn tell_store(page: &mut Page, store: &[u8]) -> io::Result<()> {
    let set = store.len() - zero_count(store);
    page.put_number(b"store ", set as u64)?;
    if set == 0 {
        return page.end_line();
    }
    if let Some(first) = store.iter().position(|b| *b != 0) {
        page.put_number(b" ", first as u64)?;
    }
    if let Some(last) = store.iter().rposition(|b| *b != 0) {
        page.put_number(b" ", last as u64)?;
    }
    page.end_line()
}

// A question about the first taken slot with that id.
fn tell_of_slot(page: &mut Page, m: &Memory, question: Question, id: u16) -> io::Result<()> {
    let table = m.conn.table;
    let Some(slot) = find_from(&table.ids, table.occupied, id, 0) else {
        return page.tell(b"none");
    };
    match question {
        Question::Area(_) => tell_area(page, m, slot),
        Question::Counts(_) => tell_counts(page, m, slot),
        _ => tell_waits(page, m, slot),
    }
}

// Answers a question.
pub fn ask(page: &mut Page, m: &Memory, question: Question) -> io::Result<()> {
    match question {
        Question::Active => tell_active(page, active_count(m.conn, &m.waits)),
        Question::Store => tell_store(page, &m.store),
        Question::Numbers => tell_numbers(page, &m.waits),
        Question::Walk(id) => tell_walk(page, m, id),
        Question::Area(id) | Question::Counts(id) | Question::Waits(id) => {
            tell_of_slot(page, m, question, id)
        }
        Question::Pair(id, k) => tell_pair(page, m, id, k),
        Question::Value { id, name, fallback } => tell_value(page, m, id, name, fallback),
        Question::Correct {
            thawed,
            frozen,
            tenths,
            raw,
        } => tell_correct(page, thawed, frozen, tenths, raw),
    }
}
