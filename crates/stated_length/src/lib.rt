// The length that a request's list states for a stream: the value of a name, in decimal digits.
#![tactic(auto)]

ghost use Rattle.std.specs.Prelude.{◌≡◌};
ghost use Rattle.stated_length.specs.Stated.{stated_in};

use decimal::read_decimal;
use pair_list::first_named;

// What a list states under a name. The first pair with that name decides. A count of 32 bits can pass what is stated.
#[tactic(auto, unfolding(crate::specs::Stated::stated_in))]
pub fn stated_in<'a>(list: &'a [u8], name: &'a [u8]) -> Option<u32>
    ensures { result ≡ stated_in list.now name.now }
{
    let pair = first_named(list, name)?;
    let end = pair.value + pair.value_len;
    let number = read_decimal(&list[pair.value..end])?;
    if 4294967294 < number {
        return None;
    }
    Some(number as u32)
}
