// A line in the making, and the numbers that are put into it: whole ones, degrees, and corrected counts.
#![tactic(auto)]

mod fixed;
mod line;

pub use crate::fixed::{add_degrees, add_thousandths, signed, thousandths_of};
pub use crate::line::{LINE, add, add_number};
