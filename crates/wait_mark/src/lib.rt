// Ends of streams that wait in one place, and the mark of a waiting byte: its stream, and the ends right behind it.
#![tactic(auto)]

ghost use Rattle.std.specs.Prelude.{◌≡◌, ◌≤◌, ◌<◌, length};
ghost use Rattle.slot_check.specs.Quick.{any_of};
ghost use Rattle.queue_slot.specs.Atoms.{RUN};
ghost use Rattle.queue_slot.specs.Wait.{with_end, no_ends, stream_number, ends_of};
ghost use Rattle.queue_slot.specs.Wait.{mark_of, mark_stream, mark_ends, mark_ended, run_length};
ghost use Rattle.queue_slot.specs.declared.Ends.{Ends};
ghost use Rattle.wait_mark.specs.Joins.{doubled, joins, is_other, run_from};

use connection::answer::Output;
use queue::sizes::RUN;
use queue_slot::Ends;

// One more end behind these. A stream ends once.
pub fn with_end(e: Ends, output: Output) -> Ends
    ensures { result ≡ with_end e output }
{
    match (e, output) {
        (Ends::None, Output::Stdout) => Ends::Out,
        (Ends::None, Output::Stderr) => Ends::Err,
        (Ends::Out, Output::Stderr) => Ends::OutErr,
        (Ends::Err, Output::Stdout) => Ends::ErrOut,
        (Ends::Out, Output::Stdout)
        | (Ends::Err, Output::Stderr)
        | (Ends::OutErr | Ends::ErrOut, _) => e,
    }
}

// Whether there are none.
pub fn no_ends(e: Ends) -> bool
    ensures { result ≡ no_ends e }
{
    matches!(e, Ends::None)
}

fn stream_number(output: Output) -> u8
    ensures { result ≡ stream_number output }
{
    match output {
        Output::Stdout => 0,
        Output::Stderr => 1,
    }
}

// The part of a mark that is of ends.
fn doubled(e: Ends) -> u8
    ensures { result ≡ doubled e }
{
    match e {
        Ends::None => 0,
        Ends::Out => 2,
        Ends::Err => 4,
        Ends::OutErr => 6,
        Ends::ErrOut => 8,
    }
}

// The ends of a number. Over 4 there are none.
#[tactic(auto, unfolding(queue_slot::specs::Wait::ends_of))]
fn ends_of(n: u8) -> Ends
    ensures { result ≡ ends_of n }
{
    match n {
        1 => Ends::Out,
        2 => Ends::Err,
        3 => Ends::OutErr,
        4 => Ends::ErrOut,
        _ => Ends::None,
    }
}

// The mark of a byte.
pub fn mark_of(output: Output, e: Ends) -> u8
    ensures { result ≡ mark_of output e }
{
    doubled(e) + stream_number(output)
}

// The stream of a marked byte.
#[tactic(auto, unfolding(queue_slot::specs::Wait::mark_stream))]
pub fn mark_stream(mark: u8) -> Output
    ensures { result ≡ mark_stream mark }
{
    if mark % 2 == 0 {
        Output::Stdout
    } else {
        Output::Stderr
    }
}

// The ends behind it.
pub fn mark_ends(mark: u8) -> Ends
    ensures { result ≡ mark_ends mark }
{
    ends_of(mark / 2)
}

// The mark with one more end behind its byte.
#[tactic(auto, unfolding(queue_slot::specs::Wait::mark_ended))]
pub fn mark_ended(mark: u8, output: Output) -> u8
    ensures { result ≡ mark_ended mark output }
{
    let ends = with_end(mark_ends(mark), output);
    mark_of(mark_stream(mark), ends)
}

// Two bytes, one after the other, go into one record: no end is between them, and they are of one stream.
fn joins(mark: u8, next: u8) -> bool
    ensures { result ≡ joins mark next }
{
    no_ends(mark_ends(mark)) && mark % 2 == next % 2
}

// One of the first n marks is not this one. The loop has no early end, so that it takes many marks at a time.
fn any_other(marks: &[u8], mark: u8, n: usize) -> bool
    requires { n ≤ length marks.now }
    ensures { result ≡ any_of n (is_other marks.now mark) 0 }
{
    let mut any = false;
    let mut i: usize = 0;
    while i < n {
        any = any | (marks[i] != mark);
        i += 1;
    }
    any
}

// So many of the first n bytes are known to go into the next record: all but the last where these have one mark and no
// end, which is quick to see; else one.
fn run_known(marks: &[u8], n: usize) -> usize
    requires { (1 < n) × (n ≤ RUN) × (n ≤ length marks.now) }
    ensures { (0 < result) × (result ≤ n) × (run_length RUN marks.now ≡ run_from marks.now result) }
{
    let first = marks[0];
    if 1 < first || any_other(marks, first, n - 1) {
        return 1;
    }
    n - 1
}

// How many of these bytes go into the next record: those of one stream from the first on, short of any end, up to 512.
pub fn run_length(marks: &[u8]) -> usize
    ensures { result ≡ run_length RUN marks.now }
{
    let n = RUN.min(marks.len());
    if n < 2 {
        return n;
    }
    for k in run_known(marks, n)..n {
        if !joins(marks[k - 1], marks[k]) {
            return k;
        }
    }
    n
}
