// Output of a request: the request that a call names writes, and is put back.
#![tactic(auto)]

ghost use Rattle.std.specs.Prelude.{◌≡◌, Ok, Err};
ghost use Rattle.connection.specs.Calls.{puts_request, say, end_stream};
ghost use Rattle.call_output.specs.Answer.{written_by};

use call_admit::admit;
use connection::answer::{Output, Refusal, Written};
use connection::state::Conn;
use request_output::{Said, end_in, say_in};
use slot_table::{put_request, request_at};

// A refused call: nothing is written, nothing changes.
fn refused(c: Conn, why: Refusal) -> Written
    ensures { result ≡ record { wrote = Err why; conn = c } }
{
    Written {
        wrote: Err(why),
        conn: c,
    }
}

// The connection with the request of slot i as its output left it.
fn put_back(c: Conn, i: usize, said: Said) -> Written
    ensures { result ≡ record { wrote = said.wrote; conn = puts_request c i said.request } }
{
    Written {
        wrote: said.wrote,
        conn: Conn {
            table: put_request(c.table, i, said.request),
            ..c
        },
    }
}

// Data written to a request's STDOUT or STDERR, from the start of out on (say). Refusals 9, 1, 3, 4, 5, 6.
pub fn write_output(c: Conn, id: u16, output: Output, bytes: &[u8], out: &mut [u8]) -> Written
    ensures { written_by result out.new ≡ say c id output bytes.now out.old }
{
    match admit(c, id) {
        Err(why) => refused(c, why),
        Ok(slot) => {
            let said = say_in(request_at(c.table, slot), output, bytes, out);
            put_back(c, slot, said)
        }
    }
}

// The end of a request's STDOUT or STDERR, one empty record at the start of out. Refusals 9, 1, 3, 4, 5, 6.
pub fn end_output(c: Conn, id: u16, output: Output, out: &mut [u8]) -> Written
    ensures { written_by result out.new ≡ end_stream c id output out.old }
{
    match admit(c, id) {
        Err(why) => refused(c, why),
        Ok(slot) => {
            let said = end_in(request_at(c.table, slot), output, out);
            put_back(c, slot, said)
        }
    }
}
