// The answers of the calls that write, as numbers, and the number of an output stream.
ghost use Rattle.std.specs.Prelude.{◌≡◌, []};
ghost use Rattle.connection.specs.Codes.{refusal_number};
ghost use Rattle.pair_writer.specs.Write.{answered};
ghost use Rattle.call_output.specs.Answer.{written_by};
ghost use Rattle.call_finish.specs.Answer.{finished_by};
ghost use Rattle.call_reply.specs.Answer.{replied_by};
ghost use Rattle.queue.specs.Answer.{queued_by, pumped_by};
ghost use Rattle.flat_answer.specs.WriteAnswers.{known_output, output_of, flat_queued, unqueued};
ghost use Rattle.flat_answer.specs.WriteAnswers.{flat_pumped, unpumped};
ghost use Rattle.flat_answer.specs.WriteAnswers.{flat_written, unwritten, flat_finished, unfinished};
ghost use Rattle.flat_answer.specs.WriteAnswers.{flat_replied, flat_pair_written, wrote_nothing};

use crate::answer::{FlatFinished, FlatPumped, FlatQueued, FlatWritten, FlatWrote};
use crate::read::refusal_or_none;
use call_finish::{FinishResult, Finished};
use codes::refusal_number;
use connection::answer::{Output, Refusal, Written};
use flat_state::{FlatState, to_flat};
use pair_writer::PairRefusal;
use queue::answer::{PumpResult, Pumped, Queueing};
use record::names;

// An output stream has a number: the type of its records.
pub fn is_output(n: u8) -> bool
    ensures { result ≡ known_output n }
{
    (n == names::STDOUT) | (n == names::STDERR)
}

// The output stream of a number. It is read as it comes; `is_output` says whether it is one.
#[tactic(auto, unfolding(crate::specs::WriteAnswers::output_of))]
pub fn output_of(n: u8) -> Output
    ensures { result ≡ output_of n }
{
    if n == names::STDOUT {
        Output::Stdout
    } else {
        Output::Stderr
    }
}

pub fn unqueued(state: FlatState, why: Refusal) -> FlatQueued
    ensures { result ≡ unqueued state (refusal_number why) }
{
    FlatQueued {
        state,
        refusal: refusal_number(why),
    }
}

#[tactic(auto, unfolding(crate::specs::WriteAnswers::flat_queued))]
pub fn flat_queued(q: Queueing) -> FlatQueued
    ensures { result ≡ flat_queued (queued_by q [] [] [] [] []) }
{
    FlatQueued {
        state: to_flat(q.conn),
        refusal: refusal_or_none(q.result),
    }
}

fn pumped(state: FlatState, records: usize, written: usize, closed: u8) -> FlatPumped
    ensures { result
        ≡ record { records = records; written = written; state = state; refusal = 0; closed = closed } }
{
    FlatPumped {
        records,
        written,
        state,
        refusal: 0,
        closed,
    }
}

pub fn unpumped(state: FlatState, why: Refusal) -> FlatPumped
    ensures { result ≡ unpumped state (refusal_number why) }
{
    FlatPumped {
        records: 0,
        written: 0,
        state,
        refusal: refusal_number(why),
        closed: 0,
    }
}

#[tactic(auto, unfolding(crate::specs::WriteAnswers::flat_pumped))]
pub fn flat_pumped(p: Pumped) -> FlatPumped
    ensures { result ≡ flat_pumped (pumped_by p [] [] [] [] [] []) }
{
    let state = to_flat(p.conn);
    let result = p.result;
    match result {
        PumpResult::Open { records, bytes } => pumped(state, records, bytes, 0),
        PumpResult::Closed { records, bytes } => pumped(state, records, bytes, 1),
        PumpResult::Refused(why) => unpumped(state, why),
    }
}

pub fn unwritten(state: FlatState, why: Refusal) -> FlatWritten
    ensures { result ≡ unwritten state (refusal_number why) }
{
    FlatWritten {
        written: 0,
        state,
        refusal: refusal_number(why),
    }
}

#[tactic(auto, unfolding(crate::specs::WriteAnswers::flat_written))]
pub fn flat_written(w: Written) -> FlatWritten
    ensures { result ≡ flat_written (written_by w []) }
{
    let state = to_flat(w.conn);
    match w.wrote {
        Ok(written) => FlatWritten {
            written,
            state,
            refusal: 0,
        },
        Err(why) => unwritten(state, why),
    }
}

fn finished(state: FlatState, written: usize, closed: u8) -> FlatFinished
    ensures { result ≡ record { written = written; state = state; refusal = 0; closed = closed } }
{
    FlatFinished {
        written,
        state,
        refusal: 0,
        closed,
    }
}

pub fn unfinished(state: FlatState, why: Refusal) -> FlatFinished
    ensures { result ≡ unfinished state (refusal_number why) }
{
    FlatFinished {
        written: 0,
        state,
        refusal: refusal_number(why),
        closed: 0,
    }
}

#[tactic(auto, unfolding(crate::specs::WriteAnswers::flat_finished))]
pub fn flat_finished(f: Finished) -> FlatFinished
    ensures { result ≡ flat_finished (finished_by f [] []) }
{
    let state = to_flat(f.conn);
    let result = f.result;
    match result {
        FinishResult::Open(n) => finished(state, n, 0),
        FinishResult::Closed(n) => finished(state, n, 1),
        FinishResult::Refused(why) => unfinished(state, why),
    }
}

fn wrote_bytes(n: usize) -> FlatWrote
    ensures { result ≡ record { written = n; refusal = 0 } }
{
    FlatWrote {
        written: n,
        refusal: 0,
    }
}

pub fn wrote_nothing(why: Refusal) -> FlatWrote
    ensures { result ≡ wrote_nothing (refusal_number why) }
{
    FlatWrote {
        written: 0,
        refusal: refusal_number(why),
    }
}

#[tactic(auto, unfolding(crate::specs::WriteAnswers::flat_replied))]
pub fn flat_wrote(w: Result<usize, Refusal>) -> FlatWrote
    ensures { result ≡ flat_replied (replied_by w []) }
{
    match w {
        Ok(n) => wrote_bytes(n),
        Err(why) => wrote_nothing(why),
    }
}

#[tactic(auto, unfolding(crate::specs::WriteAnswers::flat_pair_written))]
pub fn flat_pair_wrote(w: Result<usize, PairRefusal>) -> FlatWrote
    ensures { result ≡ flat_pair_written (answered w []) }
{
    match w {
        Ok(n) => wrote_bytes(n),
        Err(PairRefusal::TooLong) => wrote_nothing(Refusal::TooLong),
        Err(PairRefusal::NoRoom) => wrote_nothing(Refusal::NoRoom),
    }
}
