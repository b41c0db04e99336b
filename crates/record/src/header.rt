// The header of a record.
ghost use Rattle.std.specs.Prelude.{◌≡◌};
ghost use Rattle.record.specs.Header.{header_of, header_bytes};

use crate::names;
use wire::number_of_two;

// What a header says. (`kind` is the record's type; the reserved byte says nothing.)
#[derive(Clone, Copy, Debug, PartialEq, Eq)]
pub struct Header {
    pub version: u8,
    pub kind: u8,
    pub id: u16,
    pub content: u16,
    pub padding: u8,
}

#[tactic(auto, unfolding(crate::specs::Header::header_of))]
pub fn read_header(bytes: [u8; 8]) -> Header
    ensures { result ≡ header_of bytes }
{
    Header {
        version: bytes[0],
        kind: bytes[1],
        id: number_of_two(bytes[2], bytes[3]),
        content: number_of_two(bytes[4], bytes[5]),
        padding: bytes[6],
    }
}

#[tactic(auto, unfolding(crate::specs::Header::header_bytes))]
pub fn header_bytes(kind: u8, id: u16, content: u16, padding: u8) -> [u8; 8]
    ensures { result ≡ header_bytes kind id content padding }
{
    let [id_high, id_low] = id.to_be_bytes();
    let [content_high, content_low] = content.to_be_bytes();
    [
        names::VERSION,
        kind,
        id_high,
        id_low,
        content_high,
        content_low,
        padding,
        0,
    ]
}
