// What an event is, by number.
pub const NOTHING: u8 = 0;

pub const OPEN: u8 = 1;

pub const READY: u8 = 2;

pub const DATA: u8 = 3;

pub const END: u8 = 4;

pub const ABORT: u8 = 5;

pub const REFUSE: u8 = 6;

pub const FAULT: u8 = 7;

pub const QUERY: u8 = 8;

pub const UNKNOWN: u8 = 9;

pub const CLOSED: u8 = 10;
