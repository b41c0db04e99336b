// What each case of an answer is in the rules' numbers.
#![tactic(auto)]

ghost use Rattle.std.specs.Prelude.{◌≡◌};
ghost use Rattle.connection.specs.Codes.{role_number, stream_type, output_type, status_number, fault_number, close_number};
ghost use Rattle.connection.specs.Codes.{fault_cause, close_cause, refusal_number};
ghost use Rattle.codes.specs.Place.{cause_of};

use connection::answer::{Output, Refusal};
use connection::event::{Close, Fault, Status, Stream};
use connection::request::Role;
use record::names;

pub fn role_number(role: Role) -> u8
    ensures { result ≡ role_number role }
{
    match role {
        Role::Responder => 1,
        Role::Authorizer => 2,
        Role::Filter => 3,
    }
}

pub fn stream_type(stream: Stream) -> u8
    ensures { result ≡ stream_type stream }
{
    match stream {
        Stream::Stdin => names::STDIN,
        Stream::Data => names::DATA,
    }
}

pub fn output_type(output: Output) -> u8
    ensures { result ≡ output_type output }
{
    match output {
        Output::Stdout => names::STDOUT,
        Output::Stderr => names::STDERR,
    }
}

// Why an opening is refused: the status of its END_REQUEST.
pub fn status_number(status: Status) -> u8
    ensures { result ≡ status_number status }
{
    match status {
        Status::Overloaded => names::OVERLOADED,
        Status::UnknownRole => names::UNKNOWN_ROLE,
    }
}

pub fn fault_number(fault: Fault) -> u8
    ensures { result ≡ fault_number fault }
{
    match fault {
        Fault::BeginAgain => 21,
        Fault::OutOfTurn => 22,
        Fault::WrongType => 23,
        Fault::TooLong => 24,
        Fault::Malformed { .. } => 25,
        Fault::Repeated => 26,
    }
}

pub fn close_number(close: Close) -> u8
    ensures { result ≡ close_number close }
{
    match close {
        Close::Version => 11,
        Close::BeginLength => 12,
        Close::QueryLength => 13,
        Close::QueryMalformed { .. } => 14,
    }
}

pub fn fault_place(fault: Fault) -> Option<u16>
    ensures { cause_of (fault_number fault) result ≡ fault_cause fault }
{
    match fault {
        Fault::Malformed { at } => Some(at),
        _ => None,
    }
}

pub fn close_place(close: Close) -> Option<u16>
    ensures { cause_of (close_number close) result ≡ close_cause close }
{
    match close {
        Close::QueryMalformed { at } => Some(at),
        _ => None,
    }
}

pub fn refusal_number(refusal: Refusal) -> u8
    ensures { result ≡ refusal_number refusal }
{
    match refusal {
        Refusal::Closed => 1,
        Refusal::StoreSize => 2,
        Refusal::NotActive => 3,
        Refusal::NotReady => 4,
        Refusal::Ended => 5,
        Refusal::NoRoom => 6,
        Refusal::NoPair => 7,
        Refusal::TooLong => 8,
        Refusal::OutOfShape => 9,
        Refusal::Waiting => 10,
    }
}
