// What one open request writes: a pair of its PARAMS, content of its STDIN or DATA, the end of a stream, an abort.
#![tactic(auto)]

ghost use Rattle.std.specs.Prelude.{◌≡◌, false, [], Ok, Err, Result};
ghost use Rattle.record_writer.specs.Written.{record_bytes};
ghost use Rattle.server.specs.Codes.{input_type, stream_input};
ghost use Rattle.server.specs.Calls.{Part, APair, Content, EndOf, Abort, part_bytes, state_after, too_long, turn_after};
ghost use Rattle.server_part.specs.Answer.{wrote_of, said_by, out_of_turn, part_in, late};

use codes::stream_type;
use connection::event::Stream;
use connection::request::{Life, Request, RequestState, Role, Turn};
use connection::sizes::CHUNK;
use pair_stream::write_pair_stream;
use pair_writer::PairRefusal;
use record::names;
use record_writer::{record_fits, stream_fits, write_record, write_stream};
use request_state::{after_params, after_stdin, is_spent, turn_type, with_life, with_turn};
use server::answer::ServerRefusal;
use server::state::Input;

// What was written, and the request afterwards.
#[derive(Clone, Copy)]
pub struct Said {
    pub wrote: Result<usize, ServerRefusal>,
    pub request: Request,
}

fn input_type(input: Input) -> u8
    ensures { result ≡ input_type input }
{
    match input {
        Input::Params => names::PARAMS,
        Input::Stdin => names::STDIN,
        Input::Data => names::DATA,
    }
}

fn stream_input(stream: Stream) -> Input
    ensures { result ≡ stream_input stream }
{
    match stream {
        Stream::Stdin => Input::Stdin,
        Stream::Data => Input::Data,
    }
}

// The turn after the end of a stream.
fn turn_after(role: Role, input: Input) -> Turn
    ensures { result ≡ turn_after role input }
{
    match input {
        Input::Params => after_params(role),
        Input::Stdin => after_stdin(role),
        Input::Data => Turn::Done,
    }
}

// Row 61: it is not that stream's turn, or the request is aborted.
fn out_of_turn(m: RequestState, input: Input) -> bool
    ensures { result ≡ out_of_turn m input }
{
    is_spent(m.life) || turn_type(m.turn) != input_type(input)
}

// Refused, the request stays as it is.
fn refused(r: Request, why: ServerRefusal) -> Said
    ensures { result ≡ record { wrote = Err why; request = r } }
{
    Said {
        wrote: Err(why),
        request: r,
    }
}

// A part that is one empty record of that type, in its turn: row 6, and the state that the request has afterwards.
fn mark_in(r: Request, kind: u8, after: RequestState, out: &mut [u8]) -> Said
    ensures { (part : Part) → late r part ≡ false → too_long part ≡ false → part_bytes r.id part ≡ record_bytes kind r.id []
        → after ≡ state_after r.state part
        → said_by result out.new ≡ part_in r part out.old }
{
    if !record_fits(0, 0, out.len()) {
        return refused(r, ServerRefusal::NoRoom);
    }
    Said {
        wrote: Ok(write_record(out, 0, kind, r.id, b"")),
        request: Request { state: after, ..r },
    }
}

// What writing a pair answers.
fn wrote_of(w: Result<usize, PairRefusal>) -> Result<usize, ServerRefusal>
    ensures { result ≡ wrote_of w }
{
    w.map_err(|why| match why {
        PairRefusal::TooLong => ServerRefusal::TooLong,
        PairRefusal::NoRoom => ServerRefusal::NoRoom,
    })
}

// A pair of PARAMS, in records of CHUNK content bytes. Rows 61, 8 and 6.
pub fn pair_in(r: Request, name: &[u8], value: &[u8], out: &mut [u8]) -> Said
    ensures { said_by result out.new
        ≡ part_in r (APair name.now value.now) out.old }
{
    if out_of_turn(r.state, Input::Params) {
        return refused(r, ServerRefusal::OutOfTurn);
    }
    let wrote = write_pair_stream(out, names::PARAMS, r.id, name, value, CHUNK);
    Said {
        wrote: wrote_of(wrote),
        request: r,
    }
}

// Content of STDIN or DATA, in records of CHUNK content bytes; no bytes, no record. Rows 61 and 6.
pub fn content_in(r: Request, stream: Stream, bytes: &[u8], out: &mut [u8]) -> Said
    ensures { said_by result out.new
        ≡ part_in r (Content stream bytes.now) out.old }
{
    if out_of_turn(r.state, stream_input(stream)) {
        return refused(r, ServerRefusal::OutOfTurn);
    }
    if !stream_fits(CHUNK, bytes.len(), 0, out.len()) {
        return refused(r, ServerRefusal::NoRoom);
    }
    let kind = stream_type(stream);
    let written = write_stream(out, 0, kind, r.id, bytes, CHUNK);
    Said {
        wrote: Ok(written),
        request: r,
    }
}

// The end of a stream: one empty record. Rows 61 and 6.
pub fn end_in(r: Request, input: Input, out: &mut [u8]) -> Said
    ensures { said_by result out.new ≡ part_in r (EndOf input) out.old }
{
    if out_of_turn(r.state, input) {
        return refused(r, ServerRefusal::OutOfTurn);
    }
    let after = with_turn(r.state, turn_after(r.state.role, input));
    mark_in(r, input_type(input), after, out)
}

// An abort: one empty record, at any time before another abort. Rows 61 and 6.
pub fn abort_in(r: Request, out: &mut [u8]) -> Said
    ensures { said_by result out.new ≡ part_in r Abort out.old }
{
    if is_spent(r.state.life) {
        return refused(r, ServerRefusal::OutOfTurn);
    }
    mark_in(
        r,
        names::ABORT_REQUEST,
        with_life(r.state, Life::Aborted),
        out,
    )
}
