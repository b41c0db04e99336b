// Floats of 64 bits and their bit patterns, also at a NaN, where the language leaves both ways undefined.
#![tactic(auto)]

ghost use Rattle.std.specs.Prelude.{◌≡◌};
ghost use Rattle.std.specs.Float.{binary64};
ghost use Rattle.std.specs.Float.Ieee.{of_bits, to_bits};

use std::num::{f64_from_bits_with_nan, f64_to_bits_with_nan};

// The float of a bit pattern. Every pattern of a NaN gives the one NaN.
pub fn float_of_bits(bits: u64) -> f64
    ensures { result ≡ of_bits binary64 bits }
{
    f64_from_bits_with_nan(bits)
}

// The bit pattern of a float. For a NaN it is the one that the definition names: the sign clear, and of the digits only
// the highest one set.
pub fn bits_of_float(x: f64) -> u64
    ensures { result ≡ to_bits binary64 x }
{
    f64_to_bits_with_nan(x)
}
