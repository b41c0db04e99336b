// A station's talk with a web server: what comes in on standard input is heard, event by event, and what the station
// answers goes to standard output. When a piece of the input is read through, the station goes round: what it says to
// its requests comes to wait in the queue, and the pump writes it out, a record for each request in turn, so that a
// long answer holds no short one up. Replies that events owe are written as they come.
#![tactic(auto)]

mod queued;

ghost use Rattle.std.specs.Prelude.{◌≡◌, ◌<◌, ◌≤◌, List, ℕ, length, min};
ghost use Rattle.connection.specs.Slots.{no_requests};
ghost use Rattle.connection.specs.Step.{no_frame, open_with, started};
ghost use Rattle.conn_step.specs.Answer.{stepped_by};
ghost use Rattle.queue.specs.Answer.{pumped_by};
ghost use Rattle.queue.specs.Calls.{lent, pump};
ghost use Rattle.queue.specs.Numbers.{kept_waits, nobody_waits};
ghost use Rattle.queue_read.specs.Next.{queue_next};
ghost use Rattle.talk.specs.Memory.{memory_of_talk};

use fastcgi_queue::{
    Event, PUMPED, PumpResult, QUERY, QUEUE, SLOTS, STORE, Stepped, WAITS, next_event, owed_reply,
    pump, start,
};
use host::{large_buffer, read_some, write_out};
pub use queued::QueuedConn;
use std::io;

// The room for what a turn of the pump writes: a record for each request.
const OUT: usize = SLOTS * PUMPED;

// What a station does with its requests.
pub trait Station {
    // At an event. The bytes that a data event shows are the last of those read.
    fn hear(
        &mut self,
        rt: &HostRuntime,
        talk: &mut Talk,
        event: Event,
        read: &[u8],
    ) -> io::Result<()>;

    // In a round: what is to be said to the requests comes to wait, as far as there is room.
    fn say_all(&mut self, talk: &mut Talk);
}

// The connection, and all that its calls are lent.
#[derive(Drop)]
pub struct Talk {
    pub queued: QueuedConn,
    pub store: [u8; STORE],
    gathered: [u8; QUERY],
    out: [u8; OUT],
}

impl Talk {
    // The start of a talk: the connection is open, and has no requests.
    #[tactic(auto, unfolding(connection::specs::Step::started))]
    pub fn new() -> Talk
        ensures conn { result.queued.conn ≡ open_with no_requests no_frame }
        ensures waits { result.queued.waits ≡ nobody_waits }
    {
        let mut store = [0; STORE];
        let mut gathered = [0; QUERY];
        let mut waits = [0; WAITS];
        let started = start(&mut store, &mut gathered, &mut waits);
        Talk {
            queued: QueuedConn {
                conn: started.conn,
                waits,
                marks: [0; QUEUE],
                queue: [0; QUEUE],
            },
            store,
            gathered,
            out: [0; OUT],
        }
    }

    // Reads on to the next event.
    fn next_event(&mut self, piece: &[u8]) -> Stepped
        ensures told { (marks queue : List ℕ) → stepped_by result self.new.gathered self.new.store
            ≡ queue_next (lent self.old.queued.conn self.old.gathered self.old.store self.old.queued.waits marks queue)
            piece.now }
        ensures queued { self.new.queued ≡ record self.old.queued {
          conn = result.conn;
          waits
              = kept_waits self.old.queued.conn.«open» result.conn.«open» self.old.queued.waits;
        } }
        ensures out { self.new.out ≡ self.old.out }
    {
        let queued = &mut self.queued;
        let stepped = next_event(
            queued.conn,
            &mut self.store,
            &mut self.gathered,
            &mut queued.waits,
            piece,
        );
        queued.conn = stepped.conn;
        stepped
    }

    // One turn of the pump, into the room for it: a record for each request for which something waits.
    fn pump(&mut self) -> PumpResult
        ensures { pumped_by (record { result = result; conn = self.new.queued.conn }) self.new.gathered self.new.store
            self.new.queued.waits self.new.queued.marks self.new.queued.queue self.new.out
            ≡ pump (memory_of_talk self.old) SLOTS self.old.out }
    {
        let queued = &mut self.queued;
        let pumped = pump(
            queued.conn,
            &mut self.store,
            &mut queued.waits,
            &mut queued.marks,
            &mut queued.queue,
            SLOTS,
            &mut self.out,
        );
        queued.conn = pumped.conn;
        pumped.result
    }

    // Sends the first n bytes of what was written.
    fn send(&self, rt: &HostRuntime, n: usize) -> io::Result<()> {
        write_out(rt, &self.out[..n.min(OUT)])
    }

    // Sends the reply that an event owes, if it owes one.
    fn send_owed(&mut self, rt: &HostRuntime, event: Event) -> io::Result<()> {
        match owed_reply(event, &mut self.out) {
            Ok(n) => self.send(rt, n),
            Err(_) => Ok(()),
        }
    }

    // Sends what a turn of the pump writes, and answers whether another one may have something to write.
    pub fn turn(&mut self, rt: &HostRuntime) -> io::Result<bool> {
        match self.pump() {
            PumpResult::Open { records, bytes } => {
                self.send(rt, bytes)?;
                Ok(records > 0)
            }
            PumpResult::Closed { records: _, bytes } => {
                self.send(rt, bytes)?;
                Ok(false)
            }
            PumpResult::Refused(_) => Ok(false),
        }
    }

    // Goes through a piece from event to event, to its end or to a close.
    fn hear_piece<S: Station>(
        &mut self,
        rt: &HostRuntime,
        station: &mut S,
        piece: &[u8],
    ) -> io::Result<()> {
        let mut rest = piece;
        while !rest.is_empty() {
            let stepped = self.next_event(rest);
            let (read, left) = rest.split_at(used_of(rest, stepped.used));
            if let Ok(event) = stepped.result {
                self.send_owed(rt, event)?;
                station.hear(rt, self, event, read)?;
            }
            rest = left;
        }
        Ok(())
    }

    // Goes round until nothing is left to say and nothing waits, or the connection is closed. A proved loop has to end,
    // and how long the answers are is for the requests to say: so it counts to a number that no run comes to.
    fn go_round<S: Station>(&mut self, rt: &HostRuntime, station: &mut S) -> io::Result<()> {
        for _ in 0..u64::MAX {
            station.say_all(self);
            if !self.turn(rt)? {
                break;
            }
        }
        Ok(())
    }
}

// How much of a piece is read after a step that used so many bytes: all of it after one that was refused, which uses
// none.
fn used_of(piece: &[u8], used: usize) -> usize
    ensures refused { used ≡ 0 → result ≡ length piece.now }
    ensures read { 0 < used → result ≡ min used (length piece.now) }
    ensures within { result ≤ length piece.now }
    ensures forward { 0 < length piece.now → 0 < result }
{
    if used == 0 {
        return piece.len();
    }
    used.min(piece.len())
}

// Talks to the end of the input, or until the connection is closed. It counts as `go_round` does.
pub fn serve<S: Station>(rt: &HostRuntime, station: &mut S) -> io::Result<()> {
    let mut talk = Talk::new();
    let mut piece = large_buffer();
    for _ in 0..u64::MAX {
        let n = read_some(rt, &mut piece)?;
        if n == 0 {
            break;
        }
        talk.hear_piece(rt, station, &piece[..n])?;
        talk.go_round(rt, station)?;
        if !talk.queued.is_open() {
            break;
        }
    }
    Ok(())
}
