// What the station says to its requests. It comes to wait in the queue, part by part, as far as a request's bytes of
// the queue have room, and behind it the end of the request.
use connection::answer::Refusal;
use fastcgi_queue::{Calibration, Output, ROOM};
use station_cards::read_calibration;
use station_kept::{FAILED, HEADER, KEPT, LOGGED, PHASE, SAID, id_of, kept_of};
use station_work::{CHAINS, PART, POOL, fill, go_on, stage_of, strike, wanted_of};
use talk::Talk;

// What the station holds of its requests: what it keeps of each, in numbers, and their bodies. The pool is borrowed: it
// takes half of a usual stack, and a struct that is made with it inside needs room for it twice.
#[derive(Drop)]
pub struct Held<'a> {
    pub kept: [usize; KEPT],
    pub chains: [usize; CHAINS],
    pub pool: &'a mut [u8; POOL],
}

// A parameter of a request, or the fallback.
fn value<'a>(talk: &'a Talk, id: u16, name: &[u8], fallback: &'a [u8]) -> &'a [u8] {
    talk.queued.value(&talk.store, id, name, fallback)
}

// The cards that a request's parameters have.
fn cards_of(talk: &Talk, id: u16) -> Calibration {
    read_calibration(
        value(talk, id, b"THAWED_OFFSET", b"0"),
        value(talk, id, b"FROZEN_SLOPE", b"0"),
        value(talk, id, b"FROZEN_OFFSET", b"0"),
    )
}

// Whether a request wants the header alone.
fn is_head(talk: &Talk, id: u16) -> bool {
    matches!(value(talk, id, b"REQUEST_METHOD", b""), b"HEAD")
}

impl Held<'_> {
    // Says as much to the request of entry i as its part of the queue takes. That is at most a part for each byte.
    pub fn say_on(&mut self, talk: &mut Talk, i: usize) {
        if !self.is_answered(i) {
            return;
        }
        for _ in 0..ROOM {
            let phase = kept_of(&self.kept, PHASE, i);
            if phase >= SAID {
                let status = if phase == FAILED { 1 } else { 0 };
                self.end_request(talk, i, status);
                return;
            }
            // Where a part is refused there is no room before the pump makes some.
            if self.say_part(talk, i).is_err() {
                return;
            }
        }
    }

    // Whether there is something to say to the request of entry i.
    fn is_answered(&self, i: usize) -> bool {
        id_of(&self.kept, i) != 0 && kept_of(&self.kept, PHASE, i) >= HEADER
    }

    // Says the next part of the answer of entry i, which goes on from there if it waits.
    fn say_part(&mut self, talk: &mut Talk, i: usize) -> Result<(), Refusal> {
        let mut text = [0; PART];
        let id = id_of(&self.kept, i);
        let wanted = wanted_of(&self.kept, i, cards_of(talk, id), is_head(talk, id));
        let stage = stage_of(&self.kept, i);
        let next = fill(&mut text, self.pool, &self.chains, stage, wanted);
        let output = if stage.phase == LOGGED {
            Output::Stderr
        } else {
            Output::Stdout
        };
        talk.queued.say(id, output, &text[..next.at.min(PART)])?;
        go_on(&mut self.kept, i, next, true);
        Ok(())
    }

    // The end of the request of entry i comes to wait.
    fn end_request(&mut self, talk: &mut Talk, i: usize, status: u32) {
        let id = id_of(&self.kept, i);
        strike(&mut self.kept, &mut self.chains, i);
        let _ = talk.queued.finish(id, status);
    }
}
