// A station's end of an exchange: what a web server sends comes on standard input, what the station answers goes to
// standard output. A request is noted once its parameters are there, and is answered in rounds (crate `talk`).
//
// A request is told its reading on STDOUT: once, or as many lines as its LINES says. One with a COMPLAINT has it on
// STDERR and ends with the status 938, as in the specification's example of an application that fails. A request that
// faults or is aborted is ended at once, so that its slot is free again.
#![tactic(auto)]

mod noted;
mod say;

use fastcgi_queue::Event;
use noted::Noted;
use say::{say_on, told_of};
use std::io;
use talk::{Station, Talk, serve};

impl Station for Noted {
    fn hear(
        &mut self,
        rt: &HostRuntime,
        talk: &mut Talk,
        event: Event,
        _read: &[u8],
    ) -> io::Result<()> {
        match event {
            Event::Ready { id, .. } => self.note(id, told_of(talk, id)),
            // Nothing more is to be said to the request. Between rounds nothing else waits, so one turn writes its end.
            Event::Fault { id, .. } | Event::Abort { id } => {
                self.strike(id);
                let _ = talk.queued.finish(id, 0);
                talk.turn(rt)?;
            }
            _ => {}
        }
        Ok(())
    }

    fn say_all(&mut self, talk: &mut Talk) {
        for entry in &mut self.entries {
            say_on(talk, entry);
        }
    }
}

fn main(rt: HostRuntime) -> io::Result<()> {
    serve(&rt, &mut Noted::new())
}
