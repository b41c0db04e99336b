// Scripts: lines of standard input, read word by word; the page on which a line is answered; the fields of a state that
// both ends have, to be poked; and bytes fed to an end. The console and the bench are made of these.
#![tactic(auto)]

pub mod feeding;
pub mod fields;
pub mod hex;
pub mod input;
pub mod number;
pub mod page;
pub mod words;
