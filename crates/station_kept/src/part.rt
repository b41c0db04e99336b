// Parts of slices, and numbers of bytes. Whatever would lie outside of a slice is left out.
ghost use Rattle.std.specs.Prelude.{◌≡◌, ◌-◌, take, drop};
ghost use Rattle.station_kept.specs.Part.{sum, past_of};

// The sum of two numbers of bytes; where it would not fit, the largest number.
pub fn plus(a: usize, b: usize) -> usize
    ensures { result ≡ sum a b }
{
    a.saturating_add(b)
}

// How much more a is than b.
pub fn minus(a: usize, b: usize) -> usize
    ensures { result ≡ a - b }
{
    a.saturating_sub(b)
}

// The bytes from a place on.
pub fn rest<'a>(bytes: &'a [u8], from: usize) -> &'a [u8]
    ensures { result.now ≡ drop from bytes.now }
{
    &bytes[from.min(bytes.len())..]
}

// At most n bytes from a place on.
pub fn some<'a>(bytes: &'a [u8], from: usize, n: usize) -> &'a [u8]
    ensures { result.now ≡ take n (drop from bytes.now) }
{
    let behind = rest(bytes, from);
    &behind[..n.min(behind.len())]
}

// Where a piece of `end` bytes goes on after a step that used so many: at its end if the step was refused, which uses
// none.
#[tactic(auto, unfolding(crate::specs::Part::past_of))]
pub fn past(from: usize, used: usize, end: usize) -> usize
    ensures { result ≡ past_of from used end }
{
    if used == 0 {
        return end;
    }
    end.min(from.saturating_add(used))
}
