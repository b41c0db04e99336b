// The arguments that the program was started with, counted from its own name on, which is number 0.
ghost use Rattle.std.specs.Prelude.{length};
ghost use Rattle.host.specs.Count.{IsPrefix};

use std::env::{Env, FillError};

// Puts argument i at the start of the buffer, and answers how many bytes it has; 0 where there is no such argument, or
// where it is longer than the buffer.
pub fn argument(rt: &HostRuntime, i: usize, buffer: &mut [u8]) -> usize
    ensures { IsPrefix result buffer.new }
{
    rt.arg(i, buffer).unwrap_or(0)
}

// Whether there is an argument i.
fn is_given(rt: &HostRuntime, i: usize) -> bool {
    !matches!(rt.arg(i, &mut [0]), Err(FillError::NotPresent))
}

// How many arguments there are, the program's name among them.
pub fn argument_count(rt: &HostRuntime) -> usize {
    (0..usize::MAX)
        .find(|i| !is_given(rt, *i))
        .unwrap_or(usize::MAX)
}
