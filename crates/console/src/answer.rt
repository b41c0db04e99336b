// A line answered.
use crate::ask::ask;
use crate::command::{Command, Field, Writing};
use crate::readings::{finish_body, read_body};
use crate::told::{put_event, shown_by};
use crate::write::{Written, fill_and_write};
use connection::state::Frame;
use console_queue::calls::{call_queue, fill_and_pump, tell_pumped, tell_queued};
use console_queue::memory::{Memory, fresh};
use fastcgi::{Reader, new_reader};
use fastcgi_queue::{Conn, Event, PumpResult, QUERY, refusal_number};
use script::feeding::{End, Source, Step, Tale, feed, feed_once};
use script::page::Page;
use script::words::BYTES;
use std::io;

// What the console keeps from line to line: the memory, a copy of it from before the last call, the event of the last
// step that was not refused, the reader of a body, and the buffer from which rooms are lent. Steps go `onward` to the
// next event, or are single ones.
#[derive(Drop)]
pub struct Console {
    memory: Memory,
    kept: Memory,
    event: Event,
    onward: bool,
    reader: Reader,
    buffer: [u8; BYTES],
}

// Before the first line.
pub fn new_console() -> Console {
    let memory = fresh();
    Console {
        memory,
        kept: memory,
        event: Event::Nothing,
        onward: false,
        reader: new_reader(),
        buffer: [0; BYTES],
    }
}

impl End for Console {
    type Event = Event;

    fn step(&mut self, piece: &[u8]) -> Step<Event> {
        self.kept = self.memory;
        let stepped = if self.onward {
            self.memory.next_event(piece)
        } else {
            self.memory.step(piece)
        };
        Step {
            used: stepped.used,
            told: stepped.result.map_err(refusal_number),
        }
    }

    fn is_changed(&self) -> bool {
        self.memory != self.kept
    }

    fn nothing() -> Event {
        Event::Nothing
    }

    fn is_nothing(e: Event) -> bool {
        matches!(e, Event::Nothing)
    }

    fn is_close(e: Event) -> bool {
        matches!(e, Event::Closed { .. })
    }

    fn shown(e: Event) -> Option<(Source, usize)> {
        shown_by(e)
    }

    fn put_event(&self, page: &mut Page, e: Event, used: &[u8]) -> io::Result<()> {
        put_event(page, e, used)
    }
}

// The first n bytes of the buffer as the room of a call.
fn write_over(
    m: &mut Memory,
    e: Event,
    call: Writing,
    buffer: &mut [u8; BYTES],
    n: usize,
) -> Written {
    fill_and_write(m, e, call, &mut buffer[..n.min(BYTES)])
}

fn pump_over(m: &mut Memory, allowance: usize, buffer: &mut [u8; BYTES], n: usize) -> PumpResult {
    fill_and_pump(m, allowance, &mut buffer[..n.min(BYTES)])
}

// The first eight bytes, with zeros where there are fewer.
fn first_eight(bytes: &[u8]) -> [u8; 8] {
    let mut eight = [0; 8];
    for (to, b) in eight.iter_mut().zip(bytes) {
        *to = *b;
    }
    eight
}

// All gathered bytes, with zeros where there are fewer.
fn all_gathered(bytes: &[u8]) -> [u8; QUERY] {
    let mut gathered = [0; QUERY];
    for (to, b) in gathered.iter_mut().zip(bytes) {
        *to = *b;
    }
    gathered
}

// The record being read with a field set.
fn with_frame(c: Conn, frame: Frame) -> Conn {
    Conn { frame, ..c }
}

// Sets a field.
fn poke(memory: &mut Memory, field: Field) {
    let c = memory.conn;
    let f = c.frame;
    match field {
        Field::Open(open) => memory.conn = Conn { open, ..c },
        Field::Table(field) => {
            memory.conn = Conn {
                table: field.set(c.table),
                ..c
            }
        }
        Field::Position(field) => {
            memory.conn = with_frame(
                c,
                Frame {
                    position: field.set(f.position),
                    ..f
                },
            )
        }
        Field::Target(target) => memory.conn = with_frame(c, Frame { target, ..f }),
        Field::Gathered(gathered) => memory.conn = with_frame(c, Frame { gathered, ..f }),
        Field::Body(bytes) => {
            memory.conn = with_frame(
                c,
                Frame {
                    body: first_eight(bytes),
                    ..f
                },
            );
            memory.gathered = all_gathered(bytes);
        }
        Field::Byte(i, b) => {
            if i < memory.store.len() {
                memory.store[i] = b;
            }
        }
        Field::Waits(field) => field.set(memory),
    }
}

impl Console {
    // The event that is the last one now: as it was where the first step was refused.
    fn heard(&mut self, tale: Tale<Event>) {
        if tale.used > 0 || tale.refusal.is_none() {
            self.event = tale.event;
        }
    }

    // Starts anew over the lent part of the store.
    fn start(&mut self, page: &mut Page) -> io::Result<()> {
        let started = self.memory.start();
        self.event = Event::Nothing;
        match started {
            Ok(()) => page.tell(b"open"),
            Err(why) => page.tell_refused(refusal_number(why)),
        }
    }

    // A single step, or a single call that goes on to the next event.
    fn step_once(&mut self, page: &mut Page, onward: bool, bytes: &[u8]) -> io::Result<()> {
        self.onward = onward;
        let tale = feed_once(self, page, bytes)?;
        self.heard(tale);
        Ok(())
    }

    // Calls in pieces of that size.
    fn feed(&mut self, page: &mut Page, size: usize, bytes: &[u8]) -> io::Result<()> {
        self.onward = true;
        let tale = feed(self, page, size, bytes)?;
        self.heard(tale);
        Ok(())
    }

    // A call that writes into so much of the buffer.
    fn write(&mut self, page: &mut Page, call: Writing, n: usize) -> io::Result<()> {
        self.kept = self.memory;
        let written = write_over(&mut self.memory, self.event, call, &mut self.buffer, n);
        let changed = self.is_changed();
        page.tell_written(written, changed, &self.buffer[..n.min(BYTES)])
    }

    // A turn of the pump, into so much of the buffer.
    fn pump(&mut self, page: &mut Page, allowance: usize, n: usize) -> io::Result<()> {
        self.kept = self.memory;
        let pumped = pump_over(&mut self.memory, allowance, &mut self.buffer, n);
        let changed = self.is_changed();
        tell_pumped(page, pumped, changed, &self.buffer[..n.min(BYTES)])
    }

    // Does what a command says, and answers it.
    pub fn answer(&mut self, page: &mut Page, command: Command) -> io::Result<()> {
        match command {
            Command::Ask(question) => ask(page, &self.memory, question),
            Command::Start => self.start(page),
            Command::Lend(n) => {
                self.memory.lent = n;
                page.tell(b"ok")
            }
            Command::LendQueue(n) => {
                self.memory.lent_queue = n;
                page.tell(b"ok")
            }
            Command::Step(bytes) => self.step_once(page, false, bytes),
            Command::Next(bytes) => self.step_once(page, true, bytes),
            Command::Feed(size, bytes) => self.feed(page, size, bytes),
            Command::Read(bytes) => {
                self.reader = read_body(page, self.reader, bytes)?;
                Ok(())
            }
            Command::EndBody => {
                self.reader = finish_body(page, self.reader)?;
                Ok(())
            }
            Command::NewBody => {
                self.reader = new_reader();
                page.tell(b"ok")
            }
            Command::Write(call, room) => self.write(page, call, room),
            Command::Queue(call) => {
                self.kept = self.memory;
                let queued = call_queue(&mut self.memory, call);
                tell_queued(page, queued, self.is_changed())
            }
            Command::Pump { allowance, room } => self.pump(page, allowance, room),
            Command::Poke(field) => {
                poke(&mut self.memory, field);
                page.tell(b"ok")
            }
        }
    }
}
