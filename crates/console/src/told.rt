// What steps tell.
use event_text::{LONGEST, write_line};
use fastcgi_queue::{Event, Stream, stream_type};
use script::feeding::{Source, last_part};
use script::page::Page;
use std::io;

// The request and the stream whose bytes an event shows, and how many.
pub fn shown_by(e: Event) -> Option<(Source, usize)> {
    match e {
        Event::Data { id, stream, count } => Some((
            Source {
                id,
                kind: stream_type(stream),
            },
            count,
        )),
        _ => None,
    }
}

// An event, without a newline; of data the bytes are the last of those used.
pub fn put_event(page: &mut Page, e: Event, used: &[u8]) -> io::Result<()> {
    if let Event::Data { id, stream, count } = e {
        page.put_number(b"data ", u64::from(id))?;
        match stream {
            Stream::Stdin => page.put(b" stdin")?,
            Stream::Data => page.put(b" data")?,
        }
        return page.put_hex(last_part(used, count));
    }
    let mut text = [0; LONGEST];
    let n = write_line(&mut text, 0, e);
    page.put(text.get(..n.saturating_sub(1)).unwrap_or(&[]))
}
