// What the station says to a request: its reading, once or as often as it asks for, then its complaint, and the end.
// All of it comes to wait in the queue, part by part, as far as the request's bytes of the queue have room.
use crate::noted::{Entry, Told};
use connection::answer::Refusal;
use decimal::read_decimal;
use fastcgi_queue::{Output, ROOM};
use talk::Talk;

// The most bytes that are said in one call: a part waits as a whole or not at all.
const PART: usize = 256;

// The status of a request with a complaint.
const FAILED: u32 = 938;

// How often a request wants its reading.
pub fn told_of(talk: &Talk, id: u16) -> Told {
    let lines = talk.queued.value(&talk.store, id, b"LINES", b"");
    read_decimal(lines).map_or(Told::Once, Told::Lines)
}

// At most PART bytes of a text, from a place on.
fn part(text: &[u8], from: usize) -> &[u8] {
    let rest = &text[from.min(text.len())..];
    &rest[..rest.len().min(PART)]
}

// A part of the reading, or the newline behind it. Where a request sent no reading, that is said.
fn tell(talk: &mut Talk, e: Entry) -> Result<Entry, Refusal> {
    let queued = &mut talk.queued;
    let text = queued.value(&talk.store, e.id, b"READING", b"no reading");
    let bytes = part(text, e.place);
    if !bytes.is_empty() {
        queued.say(e.id, Output::Stdout, bytes)?;
        return Ok(e.further(bytes.len()));
    }
    let behind: &[u8] = match e.told {
        Told::Once => b"",
        Told::Lines(_) => b"\n",
    };
    queued.say(e.id, Output::Stdout, behind)?;
    Ok(e.after_line())
}

// A part of the complaint, on STDERR; behind it, the end of STDOUT and the end of the request.
fn complain(talk: &mut Talk, e: Entry) -> Result<Option<Entry>, Refusal> {
    let queued = &mut talk.queued;
    let complaint = queued.value(&talk.store, e.id, b"COMPLAINT", b"");
    let bytes = part(complaint, e.place);
    if !bytes.is_empty() {
        queued.say(e.id, Output::Stderr, bytes)?;
        return Ok(Some(e.further(bytes.len())));
    }
    let status = if complaint.is_empty() { 0 } else { FAILED };
    // Where either is refused, nothing is left to do for the request.
    let _ = queued.end(e.id, Output::Stdout);
    let _ = queued.finish(e.id, status);
    Ok(None)
}

// The next part of what is still to be said to a request, and its entry behind that; none where all is said.
fn say_part(talk: &mut Talk, e: Entry) -> Result<Option<Entry>, Refusal> {
    if e.told == Told::Lines(0) {
        return complain(talk, e);
    }
    Ok(Some(tell(talk, e)?))
}

// Says as much to the request of an entry as its part of the queue takes. That is at most a part for each byte.
pub fn say_on(talk: &mut Talk, entry: &mut Option<Entry>) {
    for _ in 0..ROOM {
        let Some(e) = *entry else {
            return;
        };
        // Where a part is refused there is no room before the pump makes some.
        let Ok(next) = say_part(talk, e) else {
            return;
        };
        *entry = next;
    }
}
