// What waits in one slot. What comes to wait there, and what is written next, is defined in specs/.
#![tactic(auto)]

// Ends of output streams that wait in one place, in their order.
#[derive(Clone, Copy)]
pub enum Ends {
    None,
    Out,
    Err,
    OutErr,
    ErrOut,
}

// The numbers of a slot: how many data bytes wait, the ends that wait before all of them, whether END waits, and its
// application status.
#[derive(Clone, Copy)]
pub struct Numbers {
    pub count: usize,
    pub front: Ends,
    pub last: bool,
    pub status: u32,
}
