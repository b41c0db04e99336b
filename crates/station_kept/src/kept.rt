// What the station keeps of its requests: an entry for each one that is open and not answered to its end.
ghost use Rattle.std.specs.Prelude.{◌≡◌};
ghost use Rattle.station_kept.specs.Kept.{number_of, with_number, id_of, entry_of, noted};
ghost use Rattle.station_kept.specs.Kept.{measure_number, measure_by, place_number, fault_by, with_fault};

use codes::fault_number;
use connection::event::{Fault, Measure};
use connection::sizes::SLOTS;

// The numbers of the entries: first all ids, then all roles, and so on.
pub const KEPT: usize = FIELDS * SLOTS;

const FIELDS: usize = 10;

// The id of a request. No request has the id 0, so an entry with it is free.
pub const ID: usize = 0;

// Its role, by number.
pub const ROLE: usize = 1;

// What the station does with it (below).
pub const PHASE: usize = 2;

// The chain that holds its body: the first block, the last one, and how many bytes came.
pub const FIRST: usize = 3;

pub const LAST: usize = 4;

pub const LENGTH: usize = 5;

// What the end of its STDIN said.
pub const MEASURE: usize = 6;

// How far it is answered: so many bytes of the body, and the block of the byte that comes next.
pub const PLACE: usize = 7;

pub const BLOCK_AT: usize = 8;

// The number of its fault. Where the fault has a place, that is kept as PLACE.
pub const FAULT: usize = 9;

// The phases. Its input is still coming; so it is, but its body was too long, and what comes of it is dropped.
pub const COMING: usize = 0;

pub const DROPPED: usize = 1;

// From here on there is something to say to it. All of its input is in: the header of its answer comes next; the lines
// come next; it is to be told that its body was too long.
pub const HEADER: usize = 2;

pub const LINES: usize = 3;

pub const TOO_LONG: usize = 4;

// It broke a rule: it is to be told so on STDOUT, and then on STDERR.
pub const FAULTY: usize = 5;

pub const LOGGED: usize = 6;

// All is said, and it ends well; it ends with the status 1.
pub const SAID: usize = 7;

pub const FAILED: usize = 8;

// A number of entry i.
#[tactic(auto, unfolding(crate::specs::Kept::number_of))]
pub fn kept_of(kept: &[usize; KEPT], field: usize, i: usize) -> usize
    ensures { result ≡ number_of kept.now field i }
{
    if i < SLOTS && field < FIELDS {
        kept[field * SLOTS + i]
    } else {
        0
    }
}

#[tactic(auto, unfolding(crate::specs::Kept::with_number))]
pub fn keep(kept: &mut [usize; KEPT], field: usize, i: usize, n: usize)
    ensures { kept.new ≡ with_number kept.old field i n }
{
    if i < SLOTS && field < FIELDS {
        kept[field * SLOTS + i] = n;
    }
}

// The id of entry i.
pub fn id_of(kept: &[usize; KEPT], i: usize) -> u16
    ensures { result ≡ id_of kept.now i }
{
    (kept_of(kept, ID, i) % 65536) as u16
}

// The number of the entry with that id; SLOTS if there is none.
pub fn find(kept: &[usize; KEPT], id: u16) -> usize
    ensures { result ≡ entry_of kept.now id }
{
    for i in 0..SLOTS {
        if id_of(kept, i) == id {
            return i;
        }
    }
    SLOTS
}

// A request is open. There are as many entries as there can be requests, so one is free.
pub fn note(kept: &mut [usize; KEPT], id: u16, role: usize, none: usize)
    ensures { kept.new
        ≡ noted kept.old (entry_of kept.old 0) id role none }
{
    let i = find(kept, 0);
    keep(kept, ID, i, usize::from(id));
    keep(kept, ROLE, i, role);
    keep(kept, PHASE, i, COMING);
    keep(kept, FIRST, i, none);
    keep(kept, LAST, i, none);
    keep(kept, LENGTH, i, 0);
    keep(kept, MEASURE, i, 0);
    keep(kept, PLACE, i, 0);
}

// Measures by numbers.
fn measure_number(measure: Measure) -> usize
    ensures { result ≡ measure_number measure }
{
    match measure {
        Measure::Unstated => 0,
        Measure::Exact => 1,
        Measure::Short => 2,
        Measure::Over => 3,
    }
}

#[tactic(auto, unfolding(crate::specs::Kept::measure_by))]
fn measure_by(number: usize) -> Measure
    ensures { result ≡ measure_by number }
{
    match number {
        1 => Measure::Exact,
        2 => Measure::Short,
        3 => Measure::Over,
        _ => Measure::Unstated,
    }
}

pub fn note_measure(kept: &mut [usize; KEPT], i: usize, measure: Measure)
    ensures { kept.new ≡ with_number kept.old 6 i (measure_number measure) }
{
    keep(kept, MEASURE, i, measure_number(measure));
}

pub fn measure_of(kept: &[usize; KEPT], i: usize) -> Measure
    ensures { result ≡ measure_by (number_of kept.now 6 i) }
{
    measure_by(kept_of(kept, MEASURE, i))
}

// The place of a fault; 0 where it has none.
fn place_number(fault: Fault) -> usize
    ensures { result ≡ place_number fault }
{
    match fault {
        Fault::Malformed { at } => usize::from(at),
        _ => 0,
    }
}

#[tactic(auto, unfolding(crate::specs::Kept::fault_by))]
fn fault_by(number: usize, place: usize) -> Fault
    ensures { result ≡ fault_by number place }
{
    match number {
        21 => Fault::BeginAgain,
        22 => Fault::OutOfTurn,
        23 => Fault::WrongType,
        24 => Fault::TooLong,
        25 => Fault::Malformed {
            at: (place % 65536) as u16,
        },
        _ => Fault::Repeated,
    }
}

pub fn note_fault(kept: &mut [usize; KEPT], i: usize, fault: Fault)
    ensures { kept.new ≡ with_fault kept.old i fault }
{
    keep(kept, FAULT, i, usize::from(fault_number(fault)));
    keep(kept, PLACE, i, place_number(fault));
}

pub fn fault_of(kept: &[usize; KEPT], i: usize) -> Fault
    ensures { result
        ≡ fault_by (number_of kept.now 9 i) (number_of kept.now 7 i) }
{
    fault_by(kept_of(kept, FAULT, i), kept_of(kept, PLACE, i))
}
