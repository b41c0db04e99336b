// A line answered.
use crate::command::{Command, Writing};
use crate::memory::{Memory, fresh};
use crate::station::{Pipes, hang_up, is_there, receive, send};
use crate::told::{put_event, shown_by};
use fastcgi_server::{ServerEvent, open_count, refusal_number};
use script::feeding::{End, Source, Step, Tale, feed, feed_once, put_mark, take_step, untold};
use script::page::Page;
use script::words::BYTES;
use slot_table::find_from;
use std::io;

// How many bytes are received at once.
const INBOX: usize = 65536;

// What the bench keeps from line to line: the memory, a copy of it from before the last call, and the buffer from which
// rooms are lent.
#[derive(Drop)]
pub struct Bench {
    memory: Memory,
    kept: Memory,
    buffer: [u8; BYTES],
}

// What was received from the station and not yet read lies in the inbox between two places.
#[derive(Drop)]
pub struct Inbox {
    bytes: [u8; INBOX],
    from: usize,
    to: usize,
}

// Why the waiting ends: the request is finished, the connection is closed or a step refused, or the station's output is
// over.
#[derive(Clone, Copy)]
enum Why {
    Finished,
    Closed,
    Over,
}

// Before the first line.
pub fn new_bench() -> Bench {
    let memory = fresh();
    Bench {
        memory,
        kept: memory,
        buffer: [0; BYTES],
    }
}

// Nothing is received.
pub fn new_inbox() -> Inbox {
    Inbox {
        bytes: [0; INBOX],
        from: 0,
        to: 0,
    }
}

impl End for Bench {
    type Event = ServerEvent;

    fn step(&mut self, piece: &[u8]) -> Step<ServerEvent> {
        self.kept = self.memory;
        let stepped = self.memory.step(piece);
        Step {
            used: stepped.used,
            told: stepped.result.map_err(refusal_number),
        }
    }

    fn is_changed(&self) -> bool {
        self.memory != self.kept
    }

    fn nothing() -> ServerEvent {
        ServerEvent::Nothing
    }

    fn is_nothing(e: ServerEvent) -> bool {
        matches!(e, ServerEvent::Nothing)
    }

    fn is_close(e: ServerEvent) -> bool {
        matches!(e, ServerEvent::Closed { .. })
    }

    fn shown(e: ServerEvent) -> Option<(Source, usize)> {
        shown_by(e)
    }

    fn put_event(&self, page: &mut Page, e: ServerEvent, used: &[u8]) -> io::Result<()> {
        put_event(page, e, used, &self.memory.values)
    }
}

// The first n bytes of the buffer as the room of a call.
fn write_over(
    m: &mut Memory,
    call: Writing,
    buffer: &mut [u8; BYTES],
    n: usize,
) -> Result<usize, u8> {
    m.fill_and_write(call, &mut buffer[..n.min(BYTES)])
}

// The line of a call that writes; what it wrote goes to the station, if there is one.
fn tell_and_send(
    page: &mut Page,
    pipes: &mut Pipes,
    wrote: Result<usize, u8>,
    changed: bool,
    room: &[u8],
) -> io::Result<()> {
    match wrote {
        Ok(n) => {
            page.tell_written(Ok((n, b"")), changed, room)?;
            send(pipes, room.get(..n).unwrap_or(&[]));
            Ok(())
        }
        Err(why) => page.tell_written(Err(why), changed, room),
    }
}

impl Inbox {
    // Whether something is left to read; where nothing is, what the station writes next is received.
    fn refill(&mut self, pipes: &mut Pipes) -> bool {
        if self.from >= self.to {
            self.from = 0;
            self.to = receive(pipes, &mut self.bytes);
        }
        self.from < self.to
    }

    fn unread(&self) -> &[u8] {
        self.bytes.get(self.from..self.to).unwrap_or(&[])
    }
}

impl Bench {
    // The number of open requests.
    fn tell_count(&self, page: &mut Page) -> io::Result<()> {
        match open_count(self.memory.server) {
            Ok(n) => page.put_number(b"opened ", u64::from(n))?,
            Err(why) => page.put_refused(refusal_number(why))?,
        }
        page.end_line()
    }

    // The values without the zeros at their end.
    fn tell_values(&self, page: &mut Page) -> io::Result<()> {
        let values = &self.memory.values;
        let n = values
            .iter()
            .rposition(|b| *b != 0)
            .map_or(0, |last| last.saturating_add(1));
        page.put(b"values")?;
        page.put_hex(values.get(..n).unwrap_or(&[]))?;
        page.end_line()
    }

    // A call that writes into so much of the buffer.
    fn write(
        &mut self,
        page: &mut Page,
        pipes: &mut Pipes,
        call: Writing,
        n: usize,
    ) -> io::Result<()> {
        self.kept = self.memory;
        let wrote = write_over(&mut self.memory, call, &mut self.buffer, n);
        let changed = self.is_changed();
        tell_and_send(page, pipes, wrote, changed, &self.buffer[..n.min(BYTES)])
    }

    // Whether a request is open.
    fn is_open(&self, id: u16) -> bool {
        let table = self.memory.server.table;
        find_from(&table.ids, table.occupied, id, 0).is_some()
    }

    // Why the steps have ended the waiting, if they have. Without an id the station's output is read to its end.
    fn why_now(&self, tale: Tale<ServerEvent>, id: Option<u16>) -> Option<Why> {
        if Self::is_close(tale.event) || tale.refusal.is_some() {
            return Some(Why::Closed);
        }
        if self.is_open(id?) {
            None
        } else {
            Some(Why::Finished)
        }
    }

    // Steps over what the station writes until a request is not open any more, or to the end of the station's output. A
    // proved loop has to end, and nothing says that the station does: so this one counts to a number of turns that no
    // run uses up.
    fn wait(
        &mut self,
        page: &mut Page,
        pipes: &mut Pipes,
        inbox: &mut Inbox,
        id: Option<u16>,
    ) -> io::Result<()> {
        let mut tale = untold::<Bench>(false);
        let mut why = self.why_now(tale, id);
        for _ in 0..u64::MAX {
            if why.is_some() {
                break;
            }
            if !inbox.refill(pipes) {
                why = Some(Why::Over);
                break;
            }
            let before = tale.used;
            tale = take_step(self, page, tale, inbox.unread())?;
            inbox.from = inbox.from.saturating_add(tale.used.saturating_sub(before));
            why = self.why_now(tale, id);
        }
        put_mark::<Bench>(page, tale.event, b"; ")?;
        match (tale.refusal, why) {
            (Some(refusal), _) => page.put_refusal(refusal, self.is_changed())?,
            (None, Some(Why::Finished)) => page.put(b"finished")?,
            (None, Some(Why::Closed)) => page.put(b"closed")?,
            (None, _) => page.put(b"over")?,
        }
        page.end_line()
    }

    // Does what a command says, and answers it.
    pub fn answer(
        &mut self,
        page: &mut Page,
        pipes: &mut Pipes,
        inbox: &mut Inbox,
        command: Command,
    ) -> io::Result<()> {
        match command {
            Command::Opened => self.tell_count(page),
            Command::Values => self.tell_values(page),
            Command::Start => {
                self.memory.start();
                page.tell(b"open")
            }
            Command::Step(bytes) => {
                feed_once(self, page, bytes)?;
                Ok(())
            }
            Command::Feed(size, bytes) => {
                feed(self, page, size, bytes)?;
                Ok(())
            }
            Command::Wait(_) | Command::Hang if !is_there(pipes) => page.tell(b"what"),
            Command::Wait(id) => self.wait(page, pipes, inbox, Some(id)),
            Command::Hang => {
                hang_up(pipes);
                self.wait(page, pipes, inbox, None)
            }
            Command::Write(call, room) => self.write(page, pipes, call, room),
            Command::Poke(field) => {
                self.memory.poke(field);
                page.tell(b"ok")
            }
        }
    }
}
