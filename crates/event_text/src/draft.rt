// A line in the making, and what is added to it.
ghost use Rattle.std.specs.Prelude.{◌≡◌, [], ◌∷◌, ◌+◌, ◌≤◌, ◌<◌, length};
ghost use Rattle.connection.specs.Codes.{role_number, stream_type};
ghost use Rattle.codes.specs.Place.{cause_of};
ghost use Rattle.event_text.specs.Line.{LONGEST, decimal, cause_text, hex_digit, hex, role_word, stream_word, kept_word};
ghost use Rattle.event_text.specs.Line.{measure_word};
ghost use Rattle.event_text.specs.Draft.{Says, Adds};

use connection::event::{Measure, Stream};
use connection::request::Role;
use wire::copy_into;

// The most bytes of a line.
pub const LONGEST: usize = 27;

// The first n bytes are written.
#[derive(Clone, Copy)]
pub struct Draft {
    pub bytes: [u8; LONGEST],
    pub n: usize,
}

pub fn blank() -> Draft
    ensures { Says result [] 0 }
{
    Draft {
        bytes: [0u8; LONGEST],
        n: 0,
    }
}

// Adds bytes.
pub fn add(d: Draft, text: &[u8]) -> Draft
    requires { d.n + length text.now ≤ LONGEST }
    ensures { Adds d result text.now (length text.now) }
{
    let mut bytes = d.bytes;
    copy_into(&mut bytes, d.n, text);
    Draft {
        bytes,
        n: d.n + text.len(),
    }
}

// A line's first word.
pub fn begin(word: &[u8]) -> Draft
    requires { length word.now ≤ LONGEST }
    ensures { Says result word.now (length word.now) }
{
    add(blank(), word)
}

pub fn finish(d: Draft) -> Draft
    requires { d.n + 1 ≤ LONGEST }
    ensures { Adds d result (10 ∷ []) 1 }
{
    add(d, b"\n")
}

fn add_digit(d: Draft, digit: u8) -> Draft
    requires { (digit < 10) × (d.n + 1 ≤ LONGEST) }
    ensures { Adds d result ((48 + digit) ∷ []) 1 }
{
    add(d, &[b'0' + digit])
}

// Adds a number in decimal.
fn add_decimal(d: Draft, n: u16) -> Draft
    requires { d.n + length (decimal n) ≤ LONGEST }
    ensures { Adds d result (decimal n) (length (decimal n)) }
{
    if n < 10 {
        return add_digit(d, n as u8);
    }
    let tenth = add_decimal(d, n / 10);
    add_digit(tenth, (n % 10) as u8)
}

// Adds a space and a number.
pub fn add_number(d: Draft, n: u16) -> Draft
    requires { d.n + 6 ≤ LONGEST }
    ensures { Adds d result (32 ∷ decimal n) 6 }
{
    add_decimal(add(d, b" "), n)
}

// Adds a space and a cause: its number and, where it has one, its place.
pub fn add_cause(d: Draft, n: u16, place: Option<u16>) -> Draft
    requires { d.n + 15 ≤ LONGEST }
    ensures { Adds d result (32 ∷ cause_text (cause_of n place)) 15 }
{
    let numbered = add_number(d, n);
    match place {
        None => numbered,
        Some(at) => add_number(add(numbered, b" at"), at),
    }
}

#[tactic(auto, unfolding(crate::specs::Line::hex_digit))]
fn hex_digit(d: u8) -> u8
    requires { d < 16 }
    ensures { result ≡ hex_digit d }
{
    if d < 10 { b'0' + d } else { b'a' + (d - 10) }
}

pub fn add_hex(d: Draft, byte: u8) -> Draft
    requires { d.n + 3 ≤ LONGEST }
    ensures { Adds d result (32 ∷ hex byte) 3 }
{
    add(d, &[b' ', hex_digit(byte / 16), hex_digit(byte % 16)])
}

pub fn add_role(d: Draft, role: Role) -> Draft
    requires { d.n + 11 ≤ LONGEST }
    ensures { Adds d result (32 ∷ role_word (role_number role)) 11 }
{
    match role {
        Role::Responder => add(d, b" responder"),
        Role::Authorizer => add(d, b" authorizer"),
        Role::Filter => add(d, b" filter"),
    }
}

pub fn add_stream(d: Draft, stream: Stream) -> Draft
    requires { d.n + 6 ≤ LONGEST }
    ensures { Adds d result (32 ∷ stream_word (stream_type stream)) 6 }
{
    match stream {
        Stream::Stdin => add(d, b" stdin"),
        Stream::Data => add(d, b" data"),
    }
}

pub fn add_kept(d: Draft, keep: bool) -> Draft
    requires { d.n + 5 ≤ LONGEST }
    ensures { Adds d result (32 ∷ kept_word keep) 5 }
{
    if keep {
        add(d, b" keep")
    } else {
        add(d, b" drop")
    }
}

pub fn add_measure(d: Draft, measure: Measure) -> Draft
    requires { d.n + 9 ≤ LONGEST }
    ensures { Adds d result (32 ∷ measure_word measure) 9 }
{
    match measure {
        Measure::Short => add(d, b" short"),
        Measure::Exact => add(d, b" exact"),
        Measure::Over => add(d, b" over"),
        Measure::Unstated => add(d, b" unstated"),
    }
}
