// What a station says can wait in a lent queue, and a pump writes it out. The rules are defined in specs/; the code that
// keeps to them stands in the crates above.
#![tactic(auto)]

pub mod answer;
pub mod sizes;
