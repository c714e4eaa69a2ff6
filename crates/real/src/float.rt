//! Values as `f64` and of `f64`.
ghost use Rattle.std.specs.Prelude.{◌≡◌, ℕ, is_nan, to_bits, from_bits, true, false, MatchOption};
ghost use Rattle.std.specs.Float.Ieee.{binary64};
ghost use Rattle.real.specs.declared.value.Real.TheVariants.{NotANumber};
ghost use Rattle.real.specs.Double.{MeansDouble};

use crate::value::Real;

impl Real {
    /// Returns the value of a 64-bit floating point number.
    ///
    /// ```text
    /// Real::from_f64(0.15625)    5 times two to the power of -5
    /// ```
    pub fn from_f64(value: f64) -> Real
        ensures nan { is_nan value ≡ true → result ≡ NotANumber }
        ensures bits { is_nan value ≡ false → MeansDouble (to_bits binary64 value) result }
    {
        if value.is_nan() {
            Real::NotANumber
        } else {
            Real::from_f64_bits(value.to_bits())
        }
    }

    /// Returns the 64-bit floating point number that this value is, or `None` if it isn't one.
    pub fn to_f64(&self) -> Option<f64>
        ensures { MatchOption result ((bits : ℕ) → MeansDouble bits self.now → ⊥)
            (λ x. (bits : ℕ) × MeansDouble bits self.now × (x ≡ from_bits binary64 bits)) }
    {
        if let Real::NotANumber = self {
            return Some(f64::NAN);
        }
        match self.to_f64_bits() {
            Some(bits) => Some(f64::from_bits(bits)),
            None => None,
        }
    }
}
