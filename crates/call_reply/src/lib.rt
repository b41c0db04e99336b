// The reply that an event owes to the web server.
#![tactic(auto)]

ghost use Rattle.std.specs.Prelude.{◌≡◌, [], ◌+◌, ◌≤◌, length};
ghost use Rattle.wire.specs.Buffer.{put_at};
ghost use Rattle.connection.specs.Codes.{event_of};
ghost use Rattle.connection.specs.Calls.{values_of, replied};
ghost use Rattle.pairs.specs.Pair.{pair_bytes};
ghost use Rattle.pair_writer.specs.Write.{answered};
ghost use Rattle.record_writer.specs.Written.{record_bytes};
ghost use Rattle.call_reply.specs.Answer.{replied_by, filled_by, named_pair};

use codes::status_number;
use connection::answer::Refusal;
use connection::event::Event;
use pair_writer::{PairRefusal, write_pair};
use record::body::{end_body, unknown_type_body};
use record::names;
use record_writer::{record_fits, write_record};

// One record at the start of out, if it fits.
fn one_record(out: &mut [u8], kind: u8, id: u16, content: &[u8]) -> Result<usize, Refusal>
    requires { length content.now ≤ 65535 }
    ensures { replied_by result out.new
        ≡ filled_by (record_bytes kind id content.now) out.old }
{
    if !record_fits(content.len(), 0, out.len()) {
        return Err(Refusal::NoRoom);
    }
    Ok(write_record(out, 0, kind, id, content))
}

// The bytes that a pair took.
fn count_of(wrote: Result<usize, PairRefusal>) -> usize
    ensures { result ≡ (answered wrote []).bytes }
{
    wrote.unwrap_or(0)
}

// A pair at a place, if it is asked for; answers the place after it.
fn put_named(list: &mut [u8], at: usize, asked: bool, name: &[u8], value: &[u8]) -> usize
    requires { (length name.now ≤ 65535) × (length value.now ≤ 65535)
        × (at + length (pair_bytes name.now value.now) ≤ length list.old) }
    ensures { (result ≡ at + length (named_pair asked name.now value.now))
        × (list.new
        ≡ put_at list.old at (named_pair asked name.now value.now)) }
{
    if asked {
        at + count_of(write_pair(&mut list[at..], name, value))
    } else {
        at
    }
}

// The values that a query asks for, in their order: FCGI_MAX_CONNS is 1, FCGI_MAX_REQS is 16, FCGI_MPXS_CONNS is 1.
fn put_values(list: &mut [u8], conns: bool, reqs: bool, mpxs: bool) -> usize
    requires { 52 ≤ length list.old }
    ensures { (result ≡ length (values_of conns reqs mpxs))
        × (list.new ≡ put_at list.old 0 (values_of conns reqs mpxs)) }
{
    let a = put_named(list, 0, conns, b"FCGI_MAX_CONNS", b"1");
    let b = put_named(list, a, reqs, b"FCGI_MAX_REQS", b"16");
    put_named(list, b, mpxs, b"FCGI_MPXS_CONNS", b"1")
}

// The reply that an event owes, at the start of out: an END_REQUEST to a refused opening, the values of a query,
// an UNKNOWN_TYPE to a type that is not known; nothing to any other. Refused by 6 alone.
pub fn owed_reply(e: Event, out: &mut [u8]) -> Result<usize, Refusal>
    ensures { replied_by result out.new ≡ replied (event_of e) out.old }
{
    match e {
        Event::Refuse { id, status } => {
            let body = end_body(0, status_number(status));
            one_record(out, names::END_REQUEST, id, &body)
        }
        Event::Query {
            max_conns,
            max_reqs,
            mpxs_conns,
        } => {
            let mut list = [0u8; 52];
            let n = put_values(&mut list, max_conns, max_reqs, mpxs_conns);
            one_record(out, names::GET_VALUES_RESULT, 0, &list[..n])
        }
        Event::Unknown { kind } => {
            let body = unknown_type_body(kind);
            one_record(out, names::UNKNOWN_TYPE, 0, &body)
        }
        _ => Ok(0),
    }
}
