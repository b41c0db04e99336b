// The numbers of what waits, lent beside the state: read and put slot by slot, and whether they are in shape.
#![tactic(auto)]

ghost use Rattle.std.specs.Prelude.{◌≡◌, List, ℕ, ◌+◌, ◌*◌, ◌<◌, ◌≤◌, get_or, set};
ghost use Rattle.connection.specs.Sizes.{SLOTS};
ghost use Rattle.queue.specs.Numbers.{NEXT, nobody_waits, kept_waits, count_at, ends_by, front_at, last_at, status_at};
ghost use Rattle.queue.specs.Numbers.{put_bit, has_out, has_err, err_first, put_count, put_front, put_last};
ghost use Rattle.queue.specs.Calls.{waits_fit, first_slot};
ghost use Rattle.machine_queue.specs.Pump.{slot_after};
ghost use Rattle.slot_check.specs.Quick.{any_of};
ghost use Rattle.wait_numbers.specs.Slot.{numbers_in, put_numbers, waits_in, slot_of, next_from};
ghost use Rattle.wait_numbers.specs.Slot.{some_word, is_long, is_over};

use connection::sizes::SLOTS;
use queue::sizes::{ROOM, WAITS};
use queue_slot::{Ends, Numbers};
use slot_check::reach;
use slot_word::{is_taken, mark_slot};
use wire::widen;

// Places, as `queue/specs/Numbers` has them.
const HIGH: usize = 16;

const LOW: usize = 32;

const HOLDING: usize = 48;

const OUT_ENDS: usize = 49;

const ERR_ENDS: usize = 50;

const ERR_FIRST: usize = 51;

const LEAVING: usize = 52;

const NEXT: usize = 53;

// One more than a number of two bytes. (That it is of two bytes is known of a parameter, not of an array's element.)
fn one_more(n: u16) -> usize
    ensures { (result ≡ n + 1) × (result ≤ 65536) }
{
    n as usize + 1
}

// Two halves as one number.
fn joined(high: u16, low: u16) -> u32
    ensures { result ≡ high * 65536 + low }
{
    high as u32 * 65536 + low as u32
}

// How many data bytes wait in slot i.
fn count_at(waits: &[u16; WAITS], i: usize) -> usize
    ensures { (i < SLOTS → result ≡ count_at waits.now i) × (result ≤ 65536) }
{
    if SLOTS <= i {
        return 0;
    }
    if is_taken(waits[HOLDING], i) {
        return one_more(waits[i]);
    }
    0
}

// Ends, by whether STDOUT's and STDERR's are among them, and whether STDERR's is first where both are.
fn ends_by(out: bool, err: bool, err_first: bool) -> Ends
    ensures { result ≡ ends_by out err err_first }
{
    if out {
        if err {
            if err_first {
                return Ends::ErrOut;
            }
            return Ends::OutErr;
        }
        return Ends::Out;
    }
    if err {
        return Ends::Err;
    }
    Ends::None
}

// The ends that wait before all data of slot i.
fn front_at(waits: &[u16; WAITS], i: usize) -> Ends
    ensures { result ≡ front_at waits.now i }
{
    let out = is_taken(waits[OUT_ENDS], i);
    let err = is_taken(waits[ERR_ENDS], i);
    let err_first = is_taken(waits[ERR_FIRST], i);
    ends_by(out, err, err_first)
}

// Whether END waits in slot i: its request is between finish and END.
pub fn is_leaving(waits: &[u16; WAITS], i: usize) -> bool
    ensures { result ≡ last_at waits.now i }
{
    is_taken(waits[LEAVING], i)
}

// The slots where anything waits: a bit for each.
fn some_waits(waits: &[u16; WAITS]) -> u16
    ensures { result ≡ some_word waits.now }
{
    waits[HOLDING] | waits[OUT_ENDS] | waits[ERR_ENDS] | waits[LEAVING]
}

// Whether anything waits in slot i.
pub fn is_waiting(waits: &[u16; WAITS], i: usize) -> bool
    ensures { result ≡ waits_in waits.now i }
{
    is_taken(some_waits(waits), i)
}

// The application status that waits with END in slot i.
fn status_at(waits: &[u16; WAITS], i: usize) -> u32
    ensures { i < SLOTS → result ≡ status_at waits.now i }
{
    if SLOTS <= i {
        return 0;
    }
    joined(waits[HIGH + i], waits[LOW + i])
}

// The numbers of slot i.
pub fn numbers_at(waits: &[u16; WAITS], i: usize) -> Numbers
    ensures { (i < SLOTS → result ≡ numbers_in waits.now i) × (result.count ≤ 65536) }
{
    let count = count_at(waits, i);
    let front = front_at(waits, i);
    let last = is_leaving(waits, i);
    let status = status_at(waits, i);
    Numbers {
        count: count,
        front: front,
        last: last,
        status: status,
    }
}

// The word at a place with the bit of slot i set or cleared.
fn put_bit(waits: &mut [u16; WAITS], place: usize, i: usize, on: bool)
    requires { place < 54 }
    ensures { waits.new ≡ put_bit waits.old place i on }
{
    let word = waits[place];
    waits[place] = mark_slot(word, i, on);
}

// So many data bytes wait in slot i.
fn put_count(waits: &mut [u16; WAITS], i: usize, n: usize)
    requires { (i < SLOTS) × (n ≤ 65536) }
    ensures { waits.new ≡ put_count waits.old i n }
{
    if n == 0 {
        waits[i] = 0;
        put_bit(waits, HOLDING, i, false);
        return;
    }
    waits[i] = (n - 1) as u16;
    put_bit(waits, HOLDING, i, true);
}

fn has_out(e: Ends) -> bool
    ensures { result ≡ has_out e }
{
    match e {
        Ends::None => false,
        Ends::Out => true,
        Ends::Err => false,
        Ends::OutErr => true,
        Ends::ErrOut => true,
    }
}

fn has_err(e: Ends) -> bool
    ensures { result ≡ has_err e }
{
    match e {
        Ends::None => false,
        Ends::Out => false,
        Ends::Err => true,
        Ends::OutErr => true,
        Ends::ErrOut => true,
    }
}

fn err_first(e: Ends) -> bool
    ensures { result ≡ err_first e }
{
    match e {
        Ends::None => false,
        Ends::Out => false,
        Ends::Err => false,
        Ends::OutErr => false,
        Ends::ErrOut => true,
    }
}

// These ends wait before all data of slot i.
fn put_front(waits: &mut [u16; WAITS], i: usize, e: Ends)
    ensures { waits.new ≡ put_front waits.old i e }
{
    put_bit(waits, OUT_ENDS, i, has_out(e));
    put_bit(waits, ERR_ENDS, i, has_err(e));
    put_bit(waits, ERR_FIRST, i, err_first(e));
}

// END waits in slot i, or not, with that application status.
fn put_last(waits: &mut [u16; WAITS], i: usize, last: bool, status: u32)
    requires { i < SLOTS }
    ensures { waits.new ≡ put_last waits.old i last status }
{
    waits[HIGH + i] = (status / 65536) as u16;
    waits[LOW + i] = (status % 65536) as u16;
    put_bit(waits, LEAVING, i, last);
}

// The numbers of slot i are now these.
pub fn put_numbers(waits: &mut [u16; WAITS], i: usize, n: Numbers)
    ensures { i < SLOTS → n.count ≤ 65536 → waits.new ≡ put_numbers waits.old i n }
{
    if SLOTS <= i {
        return;
    }
    let count = n.count;
    if 65536 < count {
        return;
    }
    let front = n.front;
    put_count(waits, i, count);
    put_front(waits, i, front);
    put_last(waits, i, n.last, n.status);
}

// The slot that the pump looks at first; every number names one.
pub fn first_slot(waits: &[u16; WAITS]) -> usize
    ensures { result ≡ first_slot (get_or waits.now NEXT 0) }
{
    let next = widen(waits[NEXT]);
    if next < SLOTS {
        return next;
    }
    0
}

// The pump looks at that slot first.
pub fn put_next(waits: &mut [u16; WAITS], next: u16)
    ensures { waits.new ≡ set waits.old NEXT next }
{
    waits[NEXT] = next;
}

// Nothing waits anywhere, and the pump begins with slot 0.
pub fn forget_all(waits: &mut [u16; WAITS])
    ensures { waits.new ≡ nobody_waits }
{
    *waits = [0u16; WAITS];
}

// A close drops what waits: the connection was open before a call, or not, and is open after it, or not.
pub fn keep_waits(waits: &mut [u16; WAITS], before: bool, after: bool)
    ensures { waits.new ≡ kept_waits before after waits.old }
{
    if before {
        if !after {
            forget_all(waits);
        }
    }
}

// One of the first n slots has a number over ROOM - 1, whether data waits there or not.
fn any_long(waits: &[u16; WAITS], n: usize) -> bool
    requires { n ≤ SLOTS }
    ensures { result ≡ any_of n (is_long waits.now) 0 }
{
    let mut any = false;
    let mut i: usize = 0;
    while i < n {
        any = any | (ROOM <= widen(waits[i]));
        i += 1;
    }
    any
}

// In some slot more than ROOM data bytes wait.
fn any_over(waits: &[u16; WAITS]) -> bool
    ensures { result ≡ any_of SLOTS (is_over waits.now) 0 }
{
    let mut any = false;
    let mut i: usize = 0;
    while i < SLOTS {
        any = any | (ROOM < count_at(waits, i));
        i += 1;
    }
    any
}

// Row 9's part on what waits: over ROOM data bytes in no slot, and nothing in a free slot. It is asked before every
// step. The words alone say whether anything waits in a free slot; where no number is over ROOM - 1, nothing more is to
// be looked at. How many numbers are looked at is computed, as it is for the ids (`slot_check::reach`).
pub fn waits_fit(waits: &[u16; WAITS], occupied: u16) -> bool
    ensures { result ≡ waits_fit SLOTS waits.now occupied 0 }
{
    if some_waits(waits) & !occupied != 0 {
        return false;
    }
    if waits[HOLDING] == 0 {
        return true;
    }
    let n = reach(waits[HOLDING]);
    if any_long(waits, n) {
        return !any_over(waits);
    }
    true
}

// The first slot that waits, going round from a slot on.
pub fn next_waiting(waits: &[u16; WAITS], first: usize) -> Option<usize>
    ensures { first < SLOTS → slot_of result ≡ next_from waits.now first }
{
    let some = some_waits(waits);
    let mut i = first;
    let mut left = SLOTS;
    while 0 < left {
        if is_taken(some, i) {
            return Some(i);
        }
        i = slot_after(i);
        left -= 1;
    }
    None
}

// The slot after slot i, going round.
pub fn slot_after(i: usize) -> usize
    ensures { i < SLOTS → result ≡ slot_after SLOTS i }
{
    if i < SLOTS - 1 {
        return i + 1;
    }
    0
}
