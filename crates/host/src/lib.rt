// What the programs have of the system: bytes of standard input, bytes to standard output and to standard error, and
// their arguments. Beside it the buffers that they read into, and numbers as text. Nothing is held back: what is read is
// handed on as it comes, and what is written goes out at once.
#![tactic(auto)]

mod arguments;
mod number;

ghost use Rattle.std.specs.Prelude.{◌≡◌, length, IfOk};
ghost use Rattle.host.specs.Count.{IsPrefix};

pub use arguments::{argument, argument_count};
pub use number::{decimal, hex};
use std::io;
use std::io::{Read, Stdin};

// 4,096 zeros.
pub fn buffer() -> [u8; 4096]
    ensures { length result ≡ 4096 }
{
    [0; 4096]
}

// 65,536 zeros, for what comes in large pieces.
pub fn large_buffer() -> [u8; 65536]
    ensures { length result ≡ 65536 }
{
    [0; 65536]
}

// Reads what there is of the input, at most a buffer of it, and answers how many bytes came to the buffer's start. At the
// end of the input there are none.
pub fn read_input(input: Stdin, buffer: &mut [u8]) -> io::Result<usize>
    ensures count { IfOk result (λ n. IsPrefix n buffer.new) }
    ensures room { length buffer.new ≡ length buffer.old }
{
    let mut from = input;
    from.read(buffer)
}

// The same of the runtime's standard input.
pub fn read_some(rt: &HostRuntime, buffer: &mut [u8]) -> io::Result<usize>
    ensures count { IfOk result (λ n. IsPrefix n buffer.new) }
    ensures room { length buffer.new ≡ length buffer.old }
{
    read_input(rt.stdin(), buffer)
}

// Reads on until the buffer is full or the input is over, and answers how many bytes came to the buffer's start.
pub fn read_full(rt: &HostRuntime, buffer: &mut [u8]) -> io::Result<usize>
    ensures count { IfOk result (λ n. IsPrefix n buffer.new) }
    ensures room { length buffer.new ≡ length buffer.old }
{
    let mut done: usize = 0;
    while done < buffer.len() {
        let n = read_some(rt, &mut buffer[done..])?;
        if n == 0 {
            return Ok(done);
        }
        done += n;
    }
    Ok(done)
}

// Reads standard input to its end, a piece of at most 64 KiB at a time, and hands each piece to `go`, which answers whether
// it wants more. (A proved loop has to end, and nothing says that the input does: so it counts its turns, up to a number
// that no run comes to.)
pub fn read_pieces<F: FnMut(&[u8]) -> io::Result<bool>>(
    rt: &HostRuntime,
    mut go: F,
) -> io::Result<()>
    requires { F.IsAlwaysCallable go }
{
    let mut piece = large_buffer();
    for _ in 0..u64::MAX {
        let n = read_some(rt, &mut piece)?;
        if n == 0 || !go(&piece[..n])? {
            return Ok(());
        }
    }
    Ok(())
}

// Writes all of the bytes to standard output. After an error some of them may be written.
pub fn write_out(rt: &HostRuntime, bytes: &[u8]) -> io::Result<()> {
    rt.stdout().write_all(bytes)
}

// Writes the first n of the bytes to standard output, and none where they are fewer.
pub fn write_first(rt: &HostRuntime, bytes: &[u8], n: usize) -> io::Result<()> {
    match bytes.get(..n) {
        Some(first) => write_out(rt, first),
        None => Ok(()),
    }
}

// Writes all of the bytes to standard error. After an error some of them may be written.
pub fn write_error(rt: &HostRuntime, bytes: &[u8]) -> io::Result<()> {
    rt.stderr().write_all(bytes)
}
