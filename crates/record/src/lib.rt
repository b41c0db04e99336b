// FastCGI records: the numbers that have names, headers, and the bodies of eight bytes.
#![tactic(auto)]

pub mod body;
pub mod header;
pub mod names;
