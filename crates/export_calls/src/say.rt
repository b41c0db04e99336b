// The calls that write straight out, and those that take no connection.
ghost use Rattle.std.specs.Prelude.{◌≡◌};
ghost use Rattle.export_calls.specs.Say.{exported_output, exported_end, exported_finish, exported_reply, exported_pair};

use crate::wait::are_known;
use fastcgi_queue::{Refusal, WAITS, end_output, finish, owed_reply, write_output, write_pair};
use flat_answer::answer::{FlatFinished, FlatWritten, FlatWrote};
use flat_answer::write::{
    flat_finished, flat_pair_wrote, flat_written, flat_wrote, output_of, unfinished, unwritten,
    wrote_nothing,
};
use flat_event::{FlatEvent, from_flat_event, is_known_event};
use flat_state::{FlatState, from_flat, is_known};

// Bytes of a request's output, straight out. Refusals 9 of an unknown code, 9, 1, 3, 4, 5, 6, 10.
#[unsafe(no_mangle)]
pub extern "C" fn yot_write_output(
    state: FlatState,
    waits: &[u16; WAITS],
    id: u16,
    stream: u8,
    bytes: &[u8],
    out: &mut [u8],
) -> FlatWritten
    ensures { record { answer = result; out = out.new }
        ≡ exported_output state waits.now id stream bytes.now out.old }
{
    if !are_known(state, stream) {
        return unwritten(state, Refusal::OutOfShape);
    }
    let c = from_flat(state);
    flat_written(write_output(c, waits, id, output_of(stream), bytes, out))
}

// The end of an output stream, straight out. The same refusals.
#[unsafe(no_mangle)]
pub extern "C" fn yot_end_output(
    state: FlatState,
    waits: &[u16; WAITS],
    id: u16,
    stream: u8,
    out: &mut [u8],
) -> FlatWritten
    ensures { record { answer = result; out = out.new }
        ≡ exported_end state waits.now id stream out.old }
{
    if !are_known(state, stream) {
        return unwritten(state, Refusal::OutOfShape);
    }
    let c = from_flat(state);
    flat_written(end_output(c, waits, id, output_of(stream), out))
}

// The end of a request, straight out. Refusals 9 of an unknown code, 2, 9, 1, 3, 5, 6, 10.
#[unsafe(no_mangle)]
pub extern "C" fn yot_finish(
    state: FlatState,
    waits: &mut [u16; WAITS],
    store: &mut [u8],
    id: u16,
    status: u32,
    out: &mut [u8],
) -> FlatFinished
    ensures { record { answer = result; waits = waits.new; store = store.new; out = out.new }
        ≡ exported_finish state waits.old store.old id status out.old }
{
    if !is_known(state) {
        return unfinished(state, Refusal::OutOfShape);
    }
    let c = from_flat(state);
    flat_finished(finish(c, waits, store, id, status, out))
}

// The reply that an event owes. Refusals 9 of an unknown code, 6.
#[unsafe(no_mangle)]
pub extern "C" fn yot_owed_reply(event: FlatEvent, out: &mut [u8]) -> FlatWrote
    ensures { record { answer = result; out = out.new } ≡ exported_reply event out.old }
{
    if !is_known_event(event) {
        return wrote_nothing(Refusal::OutOfShape);
    }
    flat_wrote(owed_reply(from_flat_event(event), out))
}

// A name-value pair. Refusals 8, 6.
#[unsafe(no_mangle)]
pub extern "C" fn yot_write_pair(out: &mut [u8], name: &[u8], value: &[u8]) -> FlatWrote
    ensures { record { answer = result; out = out.new }
        ≡ exported_pair out.old name.now value.now }
{
    flat_pair_wrote(write_pair(out, name, value))
}
