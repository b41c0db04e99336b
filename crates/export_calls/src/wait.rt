// The calls by which output comes to wait, and the pump, which writes it.
ghost use Rattle.std.specs.Prelude.{◌≡◌};
ghost use Rattle.export_calls.specs.Wait.{both_known, exported_queue_output, exported_queue_end};
ghost use Rattle.export_calls.specs.Wait.{exported_queue_finish, exported_pump};

use fastcgi_queue::{QUEUE, Refusal, WAITS, pump, queue_end, queue_finish, queue_output};
use flat_answer::answer::{FlatPumped, FlatQueued};
use flat_answer::write::{flat_pumped, flat_queued, is_output, output_of, unpumped, unqueued};
use flat_state::{FlatState, from_flat, is_known};

// The state and the number of an output stream are known.
pub fn are_known(state: FlatState, stream: u8) -> bool
    ensures { result ≡ both_known state stream }
{
    is_known(state) & is_output(stream)
}

// Bytes of a request's output come to wait. Refusals 9 of an unknown code, 2, 9, 1, 3, 4, 5, 10.
#[unsafe(no_mangle)]
pub extern "C" fn yot_queue_output(
    state: FlatState,
    waits: &mut [u16; WAITS],
    marks: &mut [u8; QUEUE],
    queue: &mut [u8],
    id: u16,
    stream: u8,
    bytes: &[u8],
) -> FlatQueued
    ensures { record {
      answer = result;
      waits = waits.new;
      marks = marks.new;
      queue = queue.new;
    }
        ≡ exported_queue_output state waits.old marks.old queue.old id stream
        bytes.now }
{
    if !are_known(state, stream) {
        return unqueued(state, Refusal::OutOfShape);
    }
    let c = from_flat(state);
    flat_queued(queue_output(c, waits, marks, queue, id, output_of(stream), bytes))
}

// The end of an output stream comes to wait. Refusals 9 of an unknown code, 9, 1, 3, 4, 5.
#[unsafe(no_mangle)]
pub extern "C" fn yot_queue_end(
    state: FlatState,
    waits: &mut [u16; WAITS],
    marks: &mut [u8; QUEUE],
    id: u16,
    stream: u8,
) -> FlatQueued
    ensures { record { answer = result; waits = waits.new; marks = marks.new }
        ≡ exported_queue_end state waits.old marks.old id stream }
{
    if !are_known(state, stream) {
        return unqueued(state, Refusal::OutOfShape);
    }
    let c = from_flat(state);
    flat_queued(queue_end(c, waits, marks, id, output_of(stream)))
}

// The end of a request comes to wait. Refusals 9 of an unknown code, 9, 1, 3, 5.
#[unsafe(no_mangle)]
pub extern "C" fn yot_queue_finish(
    state: FlatState,
    waits: &mut [u16; WAITS],
    marks: &mut [u8; QUEUE],
    id: u16,
    status: u32,
) -> FlatQueued
    ensures { record { answer = result; waits = waits.new; marks = marks.new }
        ≡ exported_queue_finish state waits.old marks.old id status }
{
    if !is_known(state) {
        return unqueued(state, Refusal::OutOfShape);
    }
    let c = from_flat(state);
    flat_queued(queue_finish(c, waits, marks, id, status))
}

// A turn of the pump. Refusals 9 of an unknown code, 2, 9, 1, 6.
#[unsafe(no_mangle)]
pub extern "C" fn yot_pump(
    state: FlatState,
    store: &mut [u8],
    waits: &mut [u16; WAITS],
    marks: &mut [u8; QUEUE],
    queue: &mut [u8],
    allowance: usize,
    out: &mut [u8],
) -> FlatPumped
    ensures { record {
      answer = result;
      store = store.new;
      waits = waits.new;
      marks = marks.new;
      queue = queue.new;
      out = out.new;
    }
        ≡ exported_pump state store.old waits.old marks.old queue.old
        allowance out.old }
{
    if !is_known(state) {
        return unpumped(state, Refusal::OutOfShape);
    }
    let c = from_flat(state);
    flat_pumped(pump(c, store, waits, marks, queue, allowance, out))
}
