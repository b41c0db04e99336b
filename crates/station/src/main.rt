// A station: a FastCGI application on standard input and output, one connection a process. Heads post readings through
// a web server, and each request is answered once all of its input is in, in rounds (crate `talk`): a line for each
// reading, corrected by the cards that the parameters have, and a last line that says how the body ended.
//
// Bodies are held in a pool of blocks until then, because a web server may stop sending while nobody reads its side.
#![tactic(auto)]

mod answer;

use answer::Held;
use fastcgi_queue::{Event, SLOTS};
use station_kept::KEPT;
use station_work::{CHAINS, POOL, free_all, hear};
use std::io;
use talk::{Station, Talk, serve};

impl Station for Held<'_> {
    fn hear(
        &mut self,
        _rt: &HostRuntime,
        _talk: &mut Talk,
        event: Event,
        read: &[u8],
    ) -> io::Result<()> {
        hear(
            &mut self.kept,
            &mut self.chains,
            self.pool,
            event,
            read,
            read.len(),
        );
        Ok(())
    }

    fn say_all(&mut self, talk: &mut Talk) {
        for i in 0..SLOTS {
            self.say_on(talk, i);
        }
    }
}

fn main(rt: HostRuntime) -> io::Result<()> {
    let mut pool = [0; POOL];
    let mut held = Held {
        kept: [0; KEPT],
        chains: [0; CHAINS],
        pool: &mut pool,
    };
    free_all(&mut held.chains);
    serve(&rt, &mut held)
}
