// Ice correction by hand. A card is a byte for its kind and then its floats, eight bytes each.
use fastcgi::{Calibration, Card, Curve, correct, correction_fault_number};
use float_bits::{bits_of_float, float_of_bits};
use script::page::Page;
use std::io;

// The float whose bits are eight bytes; none where there are fewer or more.
fn float_of(bytes: &[u8]) -> Option<f64> {
    let eight = bytes.as_array::<8>()?;
    Some(float_of_bits(u64::from_be_bytes(*eight)))
}

// The offset and the slope of a frozen card.
fn frozen_of(bytes: &[u8]) -> Option<Curve> {
    let (slope, offset) = bytes.split_at_checked(8)?;
    Some(Curve::Frozen(float_of(slope)?, float_of(offset)?))
}

// A card, without a serial number.
fn card_of(bytes: &[u8]) -> Option<Card> {
    let curve = match bytes {
        [0, offset @ ..] => Curve::Thawed(float_of(offset)?),
        [1, rest @ ..] => frozen_of(rest)?,
        _ => return None,
    };
    Some(Card { serial: 0, curve })
}

fn calibration_of(thawed: &[u8], frozen: &[u8]) -> Option<Calibration> {
    Some(Calibration {
        thawed: card_of(thawed)?,
        frozen: card_of(frozen)?,
    })
}

// A raw count corrected by two cards.
pub fn tell_correct(
    page: &mut Page,
    thawed: &[u8],
    frozen: &[u8],
    tenths: i32,
    raw: u32,
) -> io::Result<()> {
    let Some(calibration) = calibration_of(thawed, frozen) else {
        return page.tell(b"what");
    };
    match correct(calibration, tenths, raw) {
        Ok(count) => {
            page.put(b"count")?;
            page.put_hex(&bits_of_float(count).to_be_bytes())?;
            page.end_line()
        }
        Err(fault) => page.tell_refused(correction_fault_number(fault)),
    }
}
