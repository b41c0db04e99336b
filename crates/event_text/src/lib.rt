// The text of events: a line for an event, and a line for a data byte.
#![tactic(auto)]

mod draft;
mod text;

ghost use Rattle.std.specs.Prelude.{◌≡◌, ◌≤◌};
ghost use Rattle.connection.specs.Codes.{stream_type, event_of};
ghost use Rattle.event_text.specs.Line.{LONGEST, event_line, byte_line, line_placed};
ghost use Rattle.event_text.specs.Draft.{text_of};

use crate::draft::Draft;
pub use crate::draft::LONGEST;
use connection::event::{Event, Stream};
use wire::copy_into;

// Puts text into out at place `at`, if there is room for all of it, and answers the place after it.
// Where there is not, nothing is written and the answer is `at`.
pub fn put_text(out: &mut [u8], at: usize, text: &[u8]) -> usize
    ensures { record { next = result; buffer = out.new }
        ≡ line_placed out.old at text.now }
{
    if out.len() < at || out.len() - at < text.len() {
        return at;
    }
    copy_into(out, at, text);
    at + text.len()
}

fn put_draft(out: &mut [u8], at: usize, d: Draft) -> usize
    requires { d.n ≤ LONGEST }
    ensures { record { next = result; buffer = out.new } ≡ line_placed out.old at (text_of d) }
{
    put_text(out, at, &d.bytes[..d.n])
}

// Writes the line of an event into out at place `at`, and answers the place after it.
// Where there is not room for all of it, nothing is written and the answer is `at`.
pub fn write_line(out: &mut [u8], at: usize, e: Event) -> usize
    ensures { record { next = result; buffer = out.new }
        ≡ line_placed out.old at (event_line (event_of e)) }
{
    put_draft(out, at, text::event_line(e))
}

// Writes the line of a data byte in the same way.
pub fn write_byte_line(out: &mut [u8], at: usize, id: u16, stream: Stream, byte: u8) -> usize
    ensures { record { next = result; buffer = out.new }
        ≡ line_placed out.old at (byte_line id (stream_type stream) byte) }
{
    put_draft(out, at, text::byte_line(id, stream, byte))
}
