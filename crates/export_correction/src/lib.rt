// Ice correction linked from another language: the cards come as kinds and floats, one by one.
#![tactic(auto)]

use fastcgi::{Calibration, Card, Curve, correct, correction_fault_number};
use ice_correction::CorrectionFault;

// Kind 0 is a thawed curve, which has no slope; any other kind is a frozen one.
fn card(kind: u32, slope: f64, offset: f64) -> Card {
    let curve = match kind {
        0 => Curve::Thawed(offset),
        _ => Curve::Frozen(slope, offset),
    };
    Card { serial: 0, curve }
}

// 0, and the answer at the start of the buffer if it has room; or the number of the refusal.
fn put_answer(corrected: Result<f64, CorrectionFault>, answer: &mut [f64]) -> u32 {
    match corrected {
        Ok(x) => {
            if let Some(first) = answer.first_mut() {
                *first = x;
            }
            0
        }
        Err(fault) => u32::from(correction_fault_number(fault)),
    }
}

#[unsafe(no_mangle)]
pub extern "C" fn fastcgi_correct(
    thawed_kind: u32,
    thawed_slope: f64,
    thawed_offset: f64,
    frozen_kind: u32,
    frozen_slope: f64,
    frozen_offset: f64,
    tenths: i32,
    raw: u32,
    answer: &mut [f64],
) -> u32 {
    let calibration = Calibration {
        thawed: card(thawed_kind, thawed_slope, thawed_offset),
        frozen: card(frozen_kind, frozen_slope, frozen_offset),
    };
    put_answer(correct(calibration, tenths, raw), answer)
}
