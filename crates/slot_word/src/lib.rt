// Which of the 16 slots are taken: one word, bit i for slot i.
#![tactic(auto)]

ghost use Rattle.std.specs.Prelude.{◌≡◌};
ghost use Rattle.slot_word.specs.Word.{taken, lowest_free, taken_count, with_slot, without_slot, marked};

// The lowest-numbered free slot, or 16 where none is free.
pub fn lowest_free(occupied: u16) -> u32
    ensures { result ≡ lowest_free 16 occupied }
{
    (!occupied).trailing_zeros()
}

// How many slots are taken.
pub fn taken_count(occupied: u16) -> u32
    ensures { result ≡ taken_count 16 occupied }
{
    occupied.count_ones()
}

// Whether slot i is taken. There is no slot from 16 on.
pub fn is_taken(occupied: u16, i: usize) -> bool
    ensures { result ≡ taken i occupied }
{
    i < 16 && (occupied >> (i as u32)) & 1 == 1
}

// The word with slot i taken.
pub fn take_slot(occupied: u16, i: usize) -> u16
    ensures { result ≡ with_slot i occupied }
{
    if i < 16 {
        occupied | (1u16 << (i as u32))
    } else {
        occupied
    }
}

// The word with slot i free.
pub fn free_slot(occupied: u16, i: usize) -> u16
    ensures { result ≡ without_slot i occupied }
{
    if i < 16 {
        occupied & !(1u16 << (i as u32))
    } else {
        occupied
    }
}

// The word with the mark of slot i set or cleared.
pub fn mark_slot(word: u16, i: usize, on: bool) -> u16
    ensures { result ≡ marked i on word }
{
    if on {
        take_slot(word, i)
    } else {
        free_slot(word, i)
    }
}
