// The calls that read the connection.
ghost use Rattle.std.specs.Prelude.{◌≡◌};
ghost use Rattle.export_calls.specs.Feed.{exported_start, exported_step, exported_next};

use fastcgi_queue::{QUERY, Refusal, WAITS, next_event, start, step};
use flat_answer::answer::{FlatStarted, FlatStepped};
use flat_answer::read::{flat_started, flat_stepped, no_step};
use flat_state::{FlatState, from_flat, is_known};

// An open connection with no requests. Refusal 2.
#[unsafe(no_mangle)]
pub extern "C" fn yot_start(
    store: &mut [u8],
    gathered: &mut [u8; QUERY],
    waits: &mut [u16; WAITS],
) -> FlatStarted
    ensures { record {
      answer = result;
      store = store.new;
      gathered = gathered.new;
      waits = waits.new;
    }
        ≡ exported_start store.old gathered.old waits.old }
{
    flat_started(start(store, gathered, waits))
}

// One step over a piece. Refusals 9 of an unknown code, 2, 9, 1.
#[unsafe(no_mangle)]
pub extern "C" fn yot_step(
    state: FlatState,
    store: &mut [u8],
    gathered: &mut [u8; QUERY],
    waits: &mut [u16; WAITS],
    piece: &[u8],
) -> FlatStepped
    ensures { record {
      answer = result;
      store = store.new;
      gathered = gathered.new;
      waits = waits.new;
    }
        ≡ exported_step state store.old gathered.old waits.old
        piece.now }
{
    if !is_known(state) {
        return no_step(state, Refusal::OutOfShape);
    }
    let c = from_flat(state);
    flat_stepped(step(c, store, gathered, waits, piece))
}

// As many steps as it takes to come to an event or to the end of the piece. The same refusals.
#[unsafe(no_mangle)]
pub extern "C" fn yot_next_event(
    state: FlatState,
    store: &mut [u8],
    gathered: &mut [u8; QUERY],
    waits: &mut [u16; WAITS],
    piece: &[u8],
) -> FlatStepped
    ensures { record {
      answer = result;
      store = store.new;
      gathered = gathered.new;
      waits = waits.new;
    }
        ≡ exported_next state store.old gathered.old waits.old
        piece.now }
{
    if !is_known(state) {
        return no_step(state, Refusal::OutOfShape);
    }
    let c = from_flat(state);
    flat_stepped(next_event(c, store, gathered, waits, piece))
}
