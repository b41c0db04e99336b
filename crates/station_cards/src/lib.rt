// The calibration cards of a request, from the texts of its parameters.
#![tactic(auto)]

ghost use Rattle.std.specs.Prelude.{◌≡◌, ◌≤◌, length};
ghost use Rattle.station_cards.specs.Cards.{index_of, weight, whole_of, fraction_of, unsigned_of};
ghost use Rattle.station_cards.specs.Cards.{card_number, thousandths_in, card_float, calibration_of};
ghost use Rattle.station_cards.specs.Under.{Under};

use decimal::read_decimal;
use ice_correction::{Calibration, Card, Curve};
use station_number::signed;

// What a text that is no number stands for, in thousandths: no card may have it.
const NO_NUMBER: i32 = 2000000;

// What the last digit of a fraction of so many digits counts, in thousandths.
fn weight_of(digits: usize) -> u64
    ensures { result ≡ weight digits }
{
    match digits {
        1 => 100,
        2 => 10,
        _ => 1,
    }
}

// What stands before the point, one to four digits, in thousandths.
#[tactic(auto, using(crate::proofs::CardsLaws::whole_under), unfolding(crate::specs::Cards::whole_of))]
fn read_whole(text: &[u8]) -> Option<u64>
    ensures { (result ≡ whole_of text.now) × Under result 9999001 }
{
    if 4 < text.len() {
        return None;
    }
    Some(read_decimal(text)? * 1000)
}

// What stands after the point.
#[tactic(auto, using(crate::proofs::CardsLaws::fraction_under), unfolding(crate::specs::Cards::fraction_of))]
fn read_fraction(text: &[u8]) -> Option<u64>
    ensures { (result ≡ fraction_of text.now) × Under result 1000 }
{
    if 3 < text.len() {
        return None;
    }
    Some(read_decimal(text)? * weight_of(text.len()))
}

// Where a byte stands first in a text; the text's length where it stands nowhere.
fn find(text: &[u8], byte: u8) -> usize
    ensures place { result ≡ index_of byte text.now }
    ensures within { result ≤ length text.now }
{
    for (i, &own) in text.iter().enumerate() {
        if own == byte {
            return i;
        }
    }
    text.len()
}

// A number without a sign, in thousandths.
#[tactic(auto, using(crate::proofs::CardsLaws::under_more), unfolding(crate::specs::Cards::unsigned_of))]
fn read_unsigned(text: &[u8]) -> Option<u64>
    ensures { (result ≡ unsigned_of text.now) × Under result 10000000 }
{
    let point = find(text, b'.');
    if point == text.len() {
        return read_whole(text);
    }
    let whole = read_whole(&text[..point])?;
    let fraction = read_fraction(&text[point + 1..])?;
    Some(whole + fraction)
}

fn card_number(below: bool, read: Option<u64>) -> i32
    requires { Under read 10000000 }
    ensures { result ≡ card_number below read }
{
    match read {
        Some(n) => signed(below, n),
        None => NO_NUMBER,
    }
}

// The number of thousandths that the text of a parameter stands for.
#[tactic(auto, unfolding(crate::specs::Cards::thousandths_in))]
fn read_thousandths(text: &[u8]) -> i32
    ensures { result ≡ thousandths_in text.now }
{
    if text.is_empty() {
        NO_NUMBER
    } else if text[0] == b'-' {
        card_number(true, read_unsigned(&text[1..]))
    } else {
        card_number(false, read_unsigned(text))
    }
}

#[tactic(auto, using(crate::proofs::CardsLaws::thousand), unfolding(crate::specs::Cards::card_float))]
fn read_float(text: &[u8]) -> f64
    ensures { result ≡ card_float text.now }
{
    f64::from(read_thousandths(text)) / 1000.0
}

// The station's calibration by three texts.
#[tactic(auto, unfolding(crate::specs::Cards::calibration_of))]
pub fn read_calibration(thawed: &[u8], slope: &[u8], offset: &[u8]) -> Calibration
    ensures { result
        ≡ calibration_of thawed.now slope.now offset.now }
{
    Calibration {
        thawed: Card {
            serial: 1,
            curve: Curve::Thawed(read_float(thawed)),
        },
        frozen: Card {
            serial: 2,
            curve: Curve::Frozen(read_float(slope), read_float(offset)),
        },
    }
}
