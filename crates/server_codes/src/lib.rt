// What the refusals and closes of the web server's end are in the rules' numbers.
#![tactic(auto)]

ghost use Rattle.std.specs.Prelude.{◌≡◌};
ghost use Rattle.server.specs.Codes.{close_number, refusal_number};

use server::answer::ServerRefusal;
use server::event::ServerClose;

pub fn refusal_number(refusal: ServerRefusal) -> u8
    ensures { result ≡ refusal_number refusal }
{
    match refusal {
        ServerRefusal::OutOfShape => 9,
        ServerRefusal::Closed => 1,
        ServerRefusal::NotOpen => 3,
        ServerRefusal::IdZero => 57,
        ServerRefusal::IdOpen => 58,
        ServerRefusal::NoSlot => 59,
        ServerRefusal::UnknownRole => 60,
        ServerRefusal::OutOfTurn => 61,
        ServerRefusal::BadQuery => 62,
        ServerRefusal::TooLong => 8,
        ServerRefusal::NoRoom => 6,
    }
}

pub fn close_number(close: ServerClose) -> u8
    ensures { result ≡ close_number close }
{
    match close {
        ServerClose::Version => 51,
        ServerClose::NoReply => 52,
        ServerClose::NotOpen => 53,
        ServerClose::BodyLength => 54,
        ServerClose::Values => 55,
        ServerClose::StreamEnded => 56,
    }
}
