// The numbers that have names in FastCGI 1.0, section 8.

pub const VERSION: u8 = 1;

// Record types.
pub const BEGIN_REQUEST: u8 = 1;

pub const ABORT_REQUEST: u8 = 2;

pub const END_REQUEST: u8 = 3;

pub const PARAMS: u8 = 4;

pub const STDIN: u8 = 5;

pub const STDOUT: u8 = 6;

pub const STDERR: u8 = 7;

pub const DATA: u8 = 8;

pub const GET_VALUES: u8 = 9;

pub const GET_VALUES_RESULT: u8 = 10;

pub const UNKNOWN_TYPE: u8 = 11;

// Roles.
pub const RESPONDER: u16 = 1;

pub const AUTHORIZER: u16 = 2;

pub const FILTER: u16 = 3;

// The flag of a BEGIN_REQUEST body: its lowest bit.
pub const KEEP_CONN: u8 = 1;

// Protocol statuses of an END_REQUEST body.
pub const REQUEST_COMPLETE: u8 = 0;

pub const CANT_MPX_CONN: u8 = 1;

pub const OVERLOADED: u8 = 2;

pub const UNKNOWN_ROLE: u8 = 3;
