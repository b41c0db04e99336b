// The calls of the web server's end for a request that is open: the request that a call names writes its part, and is
// put back.
#![tactic(auto)]

ghost use Rattle.std.specs.Prelude.{◌≡◌, Ok, Err};
ghost use Rattle.server.specs.Calls.{APair, Content, EndOf, Abort, with_request, write_part};
ghost use Rattle.server.specs.Answer.{written_by};

use connection::event::Stream;
use server::answer::{ServerRefusal, ServerWritten};
use server::state::{Input, Server};
use server_admit::admit;
use server_part::{Said, abort_in, content_in, end_in, pair_in};
use slot_table::{put_request, request_at};

// A refused call: nothing is written, nothing changes.
fn refused(c: Server, why: ServerRefusal) -> ServerWritten
    ensures { result ≡ record { wrote = Err why; server = c } }
{
    ServerWritten {
        wrote: Err(why),
        server: c,
    }
}

// The state with the request of slot i as its part left it.
fn put_back(c: Server, i: usize, said: Said) -> ServerWritten
    ensures { result ≡ record { wrote = said.wrote; server = with_request c i said.request } }
{
    ServerWritten {
        wrote: said.wrote,
        server: Server {
            table: put_request(c.table, i, said.request),
            ..c
        },
    }
}

// A pair of a request's PARAMS, in records at the start of out. Refusals 9, 1, 3, 61, 8, 6.
pub fn add_pair(c: Server, id: u16, name: &[u8], value: &[u8], out: &mut [u8]) -> ServerWritten
    ensures { written_by result out.new
        ≡ write_part c id (APair name.now value.now) out.old }
{
    match admit(c, id) {
        Err(why) => refused(c, why),
        Ok(i) => put_back(c, i, pair_in(request_at(c.table, i), name, value, out)),
    }
}

// Content of a request's STDIN or DATA, in records at the start of out. Refusals 9, 1, 3, 61, 6.
pub fn write_input(
    c: Server,
    id: u16,
    stream: Stream,
    bytes: &[u8],
    out: &mut [u8],
) -> ServerWritten
    ensures { written_by result out.new
        ≡ write_part c id (Content stream bytes.now) out.old }
{
    match admit(c, id) {
        Err(why) => refused(c, why),
        Ok(i) => put_back(c, i, content_in(request_at(c.table, i), stream, bytes, out)),
    }
}

// The end of a request's PARAMS, STDIN or DATA, one empty record at the start of out. Refusals 9, 1, 3, 61, 6.
pub fn end_input(c: Server, id: u16, input: Input, out: &mut [u8]) -> ServerWritten
    ensures { written_by result out.new ≡ write_part c id (EndOf input) out.old }
{
    match admit(c, id) {
        Err(why) => refused(c, why),
        Ok(i) => put_back(c, i, end_in(request_at(c.table, i), input, out)),
    }
}

// An abort of a request, one empty record at the start of out. Refusals 9, 1, 3, 61, 6.
pub fn abort_request(c: Server, id: u16, out: &mut [u8]) -> ServerWritten
    ensures { written_by result out.new ≡ write_part c id Abort out.old }
{
    match admit(c, id) {
        Err(why) => refused(c, why),
        Ok(i) => put_back(c, i, abort_in(request_at(c.table, i), out)),
    }
}
