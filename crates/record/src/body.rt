// The bodies of eight bytes.
ghost use Rattle.std.specs.Prelude.{◌≡◌, if◌then◌else◌};
ghost use Rattle.record.specs.Names.{KEEP_CONN};
ghost use Rattle.record.specs.Body.{begin_body_of, end_body_of, unknown_type_of};
ghost use Rattle.record.specs.Body.{begin_body_bytes, end_body_bytes, unknown_type_bytes};

use crate::names;
use wire::{number_of_four, number_of_two};

// What a BEGIN_REQUEST body says: the role, and whether the connection is kept.
#[derive(Clone, Copy, Debug, PartialEq, Eq)]
pub struct BeginBody {
    pub role: u16,
    pub keep: bool,
}

#[tactic(auto, unfolding(crate::specs::Body::begin_body_of))]
pub fn read_begin_body(bytes: [u8; 8]) -> BeginBody
    ensures { result ≡ begin_body_of bytes }
{
    BeginBody {
        role: number_of_two(bytes[0], bytes[1]),
        keep: bytes[2] % 2 == names::KEEP_CONN,
    }
}

// What an END_REQUEST body says: the application's status and the protocol's.
#[derive(Clone, Copy, Debug, PartialEq, Eq)]
pub struct EndBody {
    pub app_status: u32,
    pub protocol_status: u8,
}

#[tactic(auto, unfolding(crate::specs::Body::end_body_of))]
pub fn read_end_body(bytes: [u8; 8]) -> EndBody
    ensures { result ≡ end_body_of bytes }
{
    EndBody {
        app_status: number_of_four(bytes[0], bytes[1], bytes[2], bytes[3]),
        protocol_status: bytes[4],
    }
}

// The type that an UNKNOWN_TYPE body names.
#[tactic(auto, unfolding(crate::specs::Body::unknown_type_of))]
pub fn read_unknown_type(bytes: [u8; 8]) -> u8
    ensures { result ≡ unknown_type_of bytes }
{
    bytes[0]
}

fn flags_of(keep: bool) -> u8
    ensures { result ≡ (if keep then KEEP_CONN else 0) }
{
    if keep { names::KEEP_CONN } else { 0 }
}

#[tactic(auto, unfolding(crate::specs::Body::begin_body_bytes))]
pub fn begin_body(role: u16, keep: bool) -> [u8; 8]
    ensures { result ≡ begin_body_bytes role keep }
{
    let [high, low] = role.to_be_bytes();
    [high, low, flags_of(keep), 0, 0, 0, 0, 0]
}

#[tactic(auto, unfolding(crate::specs::Body::end_body_bytes))]
pub fn end_body(app_status: u32, protocol_status: u8) -> [u8; 8]
    ensures { result ≡ end_body_bytes app_status protocol_status }
{
    let [b3, b2, b1, b0] = app_status.to_be_bytes();
    [b3, b2, b1, b0, protocol_status, 0, 0, 0]
}

#[tactic(auto, unfolding(crate::specs::Body::unknown_type_bytes))]
pub fn unknown_type_body(kind: u8) -> [u8; 8]
    ensures { result ≡ unknown_type_bytes kind }
{
    [kind, 0, 0, 0, 0, 0, 0, 0]
}
