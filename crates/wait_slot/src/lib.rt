// What waits in one slot of the queue: data, ends and END come to wait there, and what the pump writes is taken out.
#![tactic(auto)]

ghost use Rattle.std.specs.Prelude.{◌≡◌, true, List, [], ℕ, ◌*◌, ◌≤◌, ◌<◌, length, take, drop, replicate};
ghost use Rattle.wire.specs.Buffer.{put_at, copied, byte_at};
ghost use Rattle.connection.specs.Sizes.{SLOTS};
ghost use Rattle.connection.specs.Run.{Memory};
ghost use Rattle.connection.specs.declared.request.RequestState.{RequestState};
ghost use Rattle.connection.specs.RequestCalls.{owes_out as is_out_owed, owes_err as is_err_owed};
ghost use Rattle.queue_slot.specs.Atoms.{RUN};
ghost use Rattle.queue_slot.specs.Wait.{ROOM, nothing_in, has_room_for, wait_data, wait_end, wait_finish, run_length};
ghost use Rattle.queue_slot.specs.Wait.{mark_stream, with_front, without_first};
ghost use Rattle.queue.specs.Numbers.{count_at, numbers_at};
ghost use Rattle.queue.specs.Calls.{QUEUE, beside, room_at, put_room, wait_at, put_wait};
ghost use Rattle.wait_area.specs.Behind.{end_behind};
ghost use Rattle.wait_slot.specs.After.{EndAfter, EndIf};

use connection::answer::Output;
use connection::sizes::SLOTS;
use queue::sizes::{QUEUE, ROOM, WAITS};
use queue_slot::{Ends, Numbers};
use wait_area::{end_behind, fill, move_down};
use wait_mark::{mark_ends, mark_of, mark_stream, run_length, with_end};
use wait_numbers::{numbers_at, put_numbers};
use wire::copy_into;

// Bytes into the part of slot i, from a place on.
fn copy_room(area: &mut [u8], i: usize, at: usize, content: &[u8])
    requires { (length area.old ≡ QUEUE) × (i < SLOTS) }
    ensures { area.new
        ≡ put_room area.old i (copied (room_at area.old i) at content.now) }
{
    let a = i * ROOM;
    let e = a + ROOM;
    copy_into(&mut area[a..e], at, content);
}

// The same byte n times into the part of slot i.
fn fill_room(area: &mut [u8], i: usize, at: usize, n: usize, x: u8)
    requires { (length area.old ≡ QUEUE) × (i < SLOTS) }
    ensures { area.new
        ≡ put_room area.old i (copied (room_at area.old i) at (replicate n x)) }
{
    let a = i * ROOM;
    let e = a + ROOM;
    fill(&mut area[a..e], at, n, x);
}

// The end of a stream behind the last of the bytes of slot i.
fn end_room(marks: &mut [u8], i: usize, count: usize, output: Output)
    requires { (length marks.old ≡ QUEUE) × (i < SLOTS) }
    ensures { marks.new
        ≡ put_room marks.old i (end_behind (room_at marks.old i) count output) }
{
    let a = i * ROOM;
    let e = a + ROOM;
    end_behind(&mut marks[a..e], count, output);
}

// Of the bytes of slot i, k are taken out at the front, and the others move down.
fn lower_room(area: &mut [u8], i: usize, k: usize, count: usize)
    requires { (length area.old ≡ QUEUE) × (i < SLOTS) }
    ensures { area.new
        ≡ put_room area.old i
        (put_at (room_at area.old i) 0 (drop k (take count (room_at area.old i)))) }
{
    let a = i * ROOM;
    let e = a + ROOM;
    move_down(&mut area[a..e], k, count);
}

// Data comes to wait in slot i, where there is room for it.
pub fn wait_data(
    waits: &mut [u16; WAITS],
    marks: &mut [u8; QUEUE],
    queue: &mut [u8],
    i: usize,
    output: Output,
    content: &[u8],
)
    ensures { (memory : Memory) → i < SLOTS → length queue.old ≡ QUEUE
        → has_room_for (wait_at (beside memory waits.old marks.old queue.old) i)
        content.now ≡ true
        → beside memory waits.new marks.new queue.new
        ≡ put_wait (beside memory waits.old marks.old queue.old) i
        (wait_data (wait_at (beside memory waits.old marks.old queue.old) i) output
        content.now) }
{
    if SLOTS <= i {
        return;
    }
    if queue.len() != QUEUE {
        return;
    }
    let n = numbers_at(waits, i);
    let count = n.count;
    let front = n.front;
    if ROOM < content.len() {
        return;
    }
    if ROOM - content.len() < count {
        return;
    }
    copy_room(queue, i, count, content);
    fill_room(marks, i, count, content.len(), mark_of(output, Ends::None));
    put_numbers(
        waits,
        i,
        Numbers {
            count: count + content.len(),
            front: front,
            last: n.last,
            status: n.status,
        },
    );
}

// The end of a stream behind what waits by these numbers: into the mark of the last byte, or before all data where
// none waits. The numbers afterwards.
fn end_after(marks: &mut [u8], i: usize, n: Numbers, output: Output) -> Numbers
    requires { (length marks.old ≡ QUEUE) × (i < SLOTS) }
    ensures { EndAfter marks.old i n output result marks.new }
{
    let count = n.count;
    let front = n.front;
    if count == 0 {
        return Numbers {
            count: count,
            front: with_end(front, output),
            last: n.last,
            status: n.status,
        };
    }
    end_room(marks, i, count, output);
    n
}

// The end of a stream comes to wait in slot i.
pub fn wait_end(waits: &mut [u16; WAITS], marks: &mut [u8; QUEUE], i: usize, output: Output)
    ensures { (memory : Memory) (queue : List ℕ) → i < SLOTS
        → beside memory waits.new marks.new queue
        ≡ put_wait (beside memory waits.old marks.old queue) i
        (wait_end (wait_at (beside memory waits.old marks.old queue) i) output) }
{
    if SLOTS <= i {
        return;
    }
    let n = numbers_at(waits, i);
    let after = end_after(marks, i, n, output);
    put_numbers(waits, i, after);
}

// The end of a stream, where it is owed.
fn end_if(marks: &mut [u8], i: usize, n: Numbers, owed: bool, output: Output) -> Numbers
    requires { (length marks.old ≡ QUEUE) × (i < SLOTS) }
    ensures { EndIf owed marks.old i n output result marks.new }
{
    if owed {
        return end_after(marks, i, n, output);
    }
    n
}

// The ends that a finish owes, then END, come to wait in slot i.
pub fn wait_finish(
    waits: &mut [u16; WAITS],
    marks: &mut [u8; QUEUE],
    i: usize,
    owes_out: bool,
    owes_err: bool,
    status: u32,
)
    ensures { (memory : Memory) (queue : List ℕ) (state : RequestState) → i < SLOTS
        → is_out_owed state ≡ owes_out → is_err_owed state ≡ owes_err
        → beside memory waits.new marks.new queue
        ≡ put_wait (beside memory waits.old marks.old queue) i
        (wait_finish (wait_at (beside memory waits.old marks.old queue) i) state status) }
{
    if SLOTS <= i {
        return;
    }
    let n = numbers_at(waits, i);
    let a = end_if(marks, i, n, owes_out, Output::Stdout);
    let b = end_if(marks, i, a, owes_err, Output::Stderr);
    let count = b.count;
    let front = b.front;
    put_numbers(
        waits,
        i,
        Numbers {
            count: count,
            front: front,
            last: true,
            status: status,
        },
    );
}

// Nothing waits in slot i.
pub fn forget_slot(waits: &mut [u16; WAITS], i: usize)
    ensures { i < SLOTS → waits.new ≡ numbers_at waits.old i (nothing_in [] []) }
{
    put_numbers(
        waits,
        i,
        Numbers {
            count: 0,
            front: Ends::None,
            last: false,
            status: 0,
        },
    );
}

// The ends before all data of slot i are now these.
pub fn put_front(waits: &mut [u16; WAITS], i: usize, e: Ends)
    ensures { (memory : Memory) (marks queue : List ℕ) → i < SLOTS
        → beside memory waits.new marks queue
        ≡ put_wait (beside memory waits.old marks queue) i
        (with_front (wait_at (beside memory waits.old marks queue) i) e) }
{
    let n = numbers_at(waits, i);
    put_numbers(
        waits,
        i,
        Numbers {
            count: n.count,
            front: e,
            last: n.last,
            status: n.status,
        },
    );
}

// How many of the bytes of slot i go into the next record.
pub fn run_at(marks: &[u8], i: usize, count: usize) -> usize
    ensures { length marks.now ≡ QUEUE → i < SLOTS → count ≤ ROOM
        → result ≡ run_length RUN (take count (room_at marks.now i)) }
{
    if marks.len() != QUEUE {
        return 0;
    }
    if SLOTS <= i {
        return 0;
    }
    if ROOM < count {
        return 0;
    }
    let a = i * ROOM;
    let e = a + count;
    run_length(&marks[a..e])
}

// The stream of the first byte of slot i.
pub fn stream_at(marks: &[u8], i: usize) -> Output
    ensures { length marks.now ≡ QUEUE → i < SLOTS
        → result ≡ mark_stream (byte_at (room_at marks.now i) 0) }
{
    if marks.len() != QUEUE {
        return Output::Stdout;
    }
    if SLOTS <= i {
        return Output::Stdout;
    }
    mark_stream(marks[i * ROOM])
}

// The first k bytes of slot i are taken out; the ends behind them come to the front.
pub fn take_run(
    waits: &mut [u16; WAITS],
    marks: &mut [u8; QUEUE],
    queue: &mut [u8],
    i: usize,
    k: usize,
)
    ensures { (memory : Memory) → i < SLOTS → length queue.old ≡ QUEUE → 0 < k
        → k ≤ count_at waits.old i → count_at waits.old i ≤ ROOM
        → beside memory waits.new marks.new queue.new
        ≡ put_wait (beside memory waits.old marks.old queue.old) i
        (without_first (wait_at (beside memory waits.old marks.old queue.old) i) k) }
{
    if SLOTS <= i {
        return;
    }
    if queue.len() != QUEUE {
        return;
    }
    let n = numbers_at(waits, i);
    let count = n.count;
    if ROOM < count {
        return;
    }
    if k == 0 {
        return;
    }
    if count < k {
        return;
    }
    let last = marks[i * ROOM + (k - 1)];
    let front = mark_ends(last);
    lower_room(queue, i, k, count);
    lower_room(marks, i, k, count);
    put_numbers(
        waits,
        i,
        Numbers {
            count: count - k,
            front: front,
            last: n.last,
            status: n.status,
        },
    );
}
