// What steps tell.
use codes::output_type;
use fastcgi_server::{Output, QUERY, ServerEvent, close_number};
use script::feeding::{Source, last_part};
use script::page::Page;
use std::io;

// The request and the stream whose bytes an event shows, and how many.
pub fn shown_by(e: ServerEvent) -> Option<(Source, usize)> {
    match e {
        ServerEvent::Output { id, stream, count } => Some((
            Source {
                id,
                kind: output_type(stream),
            },
            count,
        )),
        _ => None,
    }
}

// The name of a stream.
fn put_stream(page: &mut Page, stream: Output) -> io::Result<()> {
    match stream {
        Output::Stdout => page.put(b" stdout"),
        Output::Stderr => page.put(b" stderr"),
    }
}

// An event; of output the bytes are the last of those used, of values the first of those that are lent.
pub fn put_event(
    page: &mut Page,
    e: ServerEvent,
    used: &[u8],
    values: &[u8; QUERY],
) -> io::Result<()> {
    match e {
        ServerEvent::Nothing => Ok(()),
        ServerEvent::Output { id, stream, count } => {
            page.put_number(b"output ", u64::from(id))?;
            put_stream(page, stream)?;
            page.put_hex(last_part(used, count))
        }
        ServerEvent::Ended { id, stream } => {
            page.put_number(b"ended ", u64::from(id))?;
            put_stream(page, stream)
        }
        ServerEvent::Finished {
            id,
            app_status,
            protocol_status,
        } => {
            page.put_number(b"finished ", u64::from(id))?;
            page.put_number(b" ", u64::from(app_status))?;
            page.put_number(b" ", u64::from(protocol_status))
        }
        ServerEvent::Values { length } => {
            page.put(b"values")?;
            page.put_hex(values.get(..usize::from(length)).unwrap_or(&[]))
        }
        ServerEvent::Unknown { kind } => page.put_number(b"unknown ", u64::from(kind)),
        ServerEvent::Closed { cause } => page.put_number(
            b"closed ",
            u64::from(close_number(cause)),
        ),
    }
}
