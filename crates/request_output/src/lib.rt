// Output of one request.
#![tactic(auto)]

ghost use Rattle.std.specs.Prelude.{◌≡◌, List, [], not, ℕ, length, ltb};
ghost use Rattle.connection.specs.RequestCalls.{no_output, is_ended, uses_err, output_refusal, said_on, ended_on, say_in};
ghost use Rattle.connection.specs.RequestCalls.{end_in};
ghost use Rattle.request_output.specs.Answer.{said_by, check_number};

use codes::output_type;
use connection::answer::{Output, Refusal};
use connection::request::{Request, RequestState};
use connection::sizes::CHUNK;
use record_writer::{record_fits, stream_fits, write_record, write_stream};
use request_state::{in_params, is_spent};

// What was written, and the request afterwards.
#[derive(Clone, Copy)]
pub struct Said {
    pub wrote: Result<usize, Refusal>,
    pub request: Request,
}

// Row 4: PARAMS has not ended and the request is not spent.
pub fn no_output(r: Request) -> bool
    ensures { result ≡ no_output r }
{
    in_params(r.state.turn) && !is_spent(r.state.life)
}

// Row 5: that stream is ended.
pub fn is_ended(output: Output, state: RequestState) -> bool
    ensures { result ≡ is_ended output state }
{
    match output {
        Output::Stdout => state.out_ended,
        Output::Stderr => state.err_ended,
    }
}

// Rows 4, 5 and 6 of an output that fits into the buffer or not.
pub fn output_check(r: Request, output: Output, fits: bool) -> Result<(), Refusal>
    ensures { (bytes buffer : List ℕ) → fits ≡ not (ltb (length buffer) (length bytes)) → check_number result
        ≡ output_refusal r output bytes buffer }
{
    if no_output(r) {
        return Err(Refusal::NotReady);
    }
    if is_ended(output, r.state) {
        return Err(Refusal::Ended);
    }
    if !fits {
        return Err(Refusal::NoRoom);
    }
    Ok(())
}

// STDERR is used once data was said on it.
#[tactic(auto, using(crate::proofs::Laws::uses_none, crate::proofs::Laws::uses_some))]
fn uses_err(output: Output, n: usize, used: bool) -> bool
    ensures { (bytes : List ℕ) → length bytes ≡ n → result ≡ uses_err output bytes used }
{
    match output {
        Output::Stdout => used,
        Output::Stderr => used || n != 0,
    }
}

#[tactic(auto, unfolding(connection::specs::RequestCalls::said_on))]
pub fn said_on(r: Request, output: Output, n: usize) -> Request
    ensures { (bytes : List ℕ) → length bytes ≡ n → result ≡ said_on r output bytes }
{
    let err_used = uses_err(output, n, r.state.err_used);
    Request {
        state: RequestState {
            err_used,
            ..r.state
        },
        ..r
    }
}

#[tactic(auto, unfolding(connection::specs::RequestCalls::ended_on))]
pub fn ended_on(r: Request, output: Output) -> Request
    ensures { result ≡ ended_on r output }
{
    let state = match output {
        Output::Stdout => RequestState {
            out_ended: true,
            ..r.state
        },
        Output::Stderr => RequestState {
            err_ended: true,
            ..r.state
        },
    };
    Request { state, ..r }
}

// Say: data in records of CHUNK content bytes, the last one shorter; no data, no record.
pub fn say_in(r: Request, output: Output, bytes: &[u8], out: &mut [u8]) -> Said
    ensures { said_by result out.new ≡ say_in r output bytes.now out.old }
{
    let fits = stream_fits(CHUNK, bytes.len(), 0, out.len());
    if let Err(why) = output_check(r, output, fits) {
        return Said {
            wrote: Err(why),
            request: r,
        };
    }
    Said {
        wrote: Ok(write_stream(out, 0, output_type(output), r.id, bytes, CHUNK)),
        request: said_on(r, output, bytes.len()),
    }
}

// The end of a stream: one empty record.
pub fn end_in(r: Request, output: Output, out: &mut [u8]) -> Said
    ensures { said_by result out.new ≡ end_in r output out.old }
{
    let fits = record_fits(0, 0, out.len());
    if let Err(why) = output_check(r, output, fits) {
        return Said {
            wrote: Err(why),
            request: r,
        };
    }
    Said {
        wrote: Ok(write_record(out, 0, output_type(output), r.id, b"")),
        request: ended_on(r, output),
    }
}
