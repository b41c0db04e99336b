// Ice correction: a raw count corrected by the station's two calibration cards, one for thawed logs and one for frozen
// ones. Each operation on floats is rounded once, in the order that the definition has.
#![tactic(auto)]

ghost use Rattle.std.specs.Prelude.{◌≡◌};
ghost use Rattle.ice_correction.specs.Correction.{allowed, floats_allowed, is_thawed, is_frozen, degrees_of, by_curve};
ghost use Rattle.ice_correction.specs.Correction.{corrected, fault_number, answer_of};

use reading::{sent_fits, sent_of};

// What a card corrects by: thawed, an offset; frozen, a slope and an offset.
#[derive(Clone, Copy, Debug, PartialEq)]
pub enum Curve {
    Thawed(f64),
    Frozen(f64, f64),
}

// A calibration card.
#[derive(Clone, Copy, Debug, PartialEq)]
pub struct Card {
    pub serial: u32,
    pub curve: Curve,
}

// A station's calibration: one card of each kind.
#[derive(Clone, Copy, Debug, PartialEq)]
pub struct Calibration {
    pub thawed: Card,
    pub frozen: Card,
}

// Why nothing is corrected: a raw count over 65,535; a temperature outside -600 to 400 tenths; a card of the wrong kind;
// a card with a float that is not finite or lies outside -1,000 to 1,000.
#[derive(Clone, Copy, Debug, PartialEq, Eq)]
pub enum CorrectionFault {
    RawCount,
    Temperature,
    CardKind,
    CardFloat,
}

// The number of a refusal, 41 to 44.
pub fn correction_fault_number(fault: CorrectionFault) -> u8
    ensures { result ≡ fault_number fault }
{
    match fault {
        CorrectionFault::RawCount => 41,
        CorrectionFault::Temperature => 42,
        CorrectionFault::CardKind => 43,
        CorrectionFault::CardFloat => 44,
    }
}

// A NaN is not: every comparison with it is false.
fn is_allowed(x: f64) -> bool
    ensures { result ≡ allowed x }
{
    -1000.0 <= x && x <= 1000.0
}

fn floats_allowed(curve: Curve) -> bool
    ensures { result ≡ floats_allowed curve }
{
    match curve {
        Curve::Thawed(offset) => is_allowed(offset),
        Curve::Frozen(slope, offset) => is_allowed(slope) && is_allowed(offset),
    }
}

fn is_thawed(curve: Curve) -> bool
    ensures { result ≡ is_thawed curve }
{
    matches!(curve, Curve::Thawed(_))
}

fn is_frozen(curve: Curve) -> bool
    ensures { result ≡ is_frozen curve }
{
    matches!(curve, Curve::Frozen(_, _))
}

// The temperature in degrees.
#[tactic(auto, using(crate::proofs::Rows::ten), unfolding(crate::specs::Correction::degrees_of))]
fn degrees(tenths: i32) -> f64
    ensures { result ≡ degrees_of tenths }
{
    f64::from(tenths) / 10.0
}

#[tactic(auto, unfolding(crate::specs::Correction::by_curve))]
fn by_curve(curve: Curve, tenths: i32, raw: u32) -> f64
    ensures { result ≡ by_curve curve tenths raw }
{
    match curve {
        Curve::Thawed(offset) => f64::from(raw) + offset,
        Curve::Frozen(slope, offset) => f64::from(raw) + slope * degrees(tenths) + offset,
    }
}

// The raw count of a log at a temperature in tenths of a degree, corrected by the frozen card below zero and by the
// thawed one from zero up. Both cards are looked at each time.
#[tactic(auto, unfolding(crate::specs::Correction::corrected))]
pub fn correct(calibration: Calibration, tenths: i32, raw: u32) -> Result<f64, CorrectionFault>
    ensures { answer_of result ≡ corrected calibration tenths raw }
{
    let thawed = calibration.thawed.curve;
    let frozen = calibration.frozen.curve;
    if 65535 < raw {
        return Err(CorrectionFault::RawCount);
    }
    if !sent_fits(sent_of(tenths)) {
        return Err(CorrectionFault::Temperature);
    }
    if !(is_thawed(thawed) && is_frozen(frozen)) {
        return Err(CorrectionFault::CardKind);
    }
    if !(floats_allowed(thawed) && floats_allowed(frozen)) {
        return Err(CorrectionFault::CardFloat);
    }
    let curve = if tenths < 0 { frozen } else { thawed };
    Ok(by_curve(curve, tenths, raw))
}
