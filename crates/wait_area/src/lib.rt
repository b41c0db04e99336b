// The bytes of one slot in the queue, and their marks: what is put behind them, and what is taken out.
#![tactic(auto)]

ghost use Rattle.std.specs.Prelude.{◌≡◌, take, drop, replicate};
ghost use Rattle.wire.specs.Buffer.{put_at, copied};
ghost use Rattle.wait_area.specs.Behind.{end_behind};

use connection::answer::Output;
use wait_mark::mark_ended;

// The same byte n times, from a place on, where there is room for that.
pub fn fill(area: &mut [u8], at: usize, n: usize, x: u8)
    ensures { area.new ≡ copied area.old at (replicate n x) }
{
    if at <= area.len() && n <= area.len() - at {
        area[at..at + n].fill(x);
    }
}

// Of the first `count` bytes, k are taken out at the front, and the others move down.
pub fn move_down(area: &mut [u8], k: usize, count: usize)
    ensures { area.new ≡ put_at area.old 0 (drop k (take count area.old)) }
{
    for i in k..count.min(area.len()) {
        area[i - k] = area[i];
    }
}

// The end of a stream right behind the last of `count` bytes: it goes into that byte's mark.
pub fn end_behind(marks: &mut [u8], count: usize, output: Output)
    ensures { marks.new ≡ end_behind marks.old count output }
{
    if count != 0 && count <= marks.len() {
        marks[count - 1] = mark_ended(marks[count - 1], output);
    }
}
