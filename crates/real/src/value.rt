//! Values of REAL.
use crate::binary::Binary;
use crate::decimal::Decimal;

/// A value of REAL (X.680, 21).
#[derive(Clone, Copy, Debug, PartialEq, Eq)]
pub enum Real {
    /// Plus zero, which has no contents octets (X.690, 8.5.2).
    Zero,
    /// Minus zero (X.690, 8.5.9).
    MinusZero,
    /// Plus infinity (X.690, 8.5.9).
    Infinity,
    /// Minus infinity (X.690, 8.5.9).
    MinusInfinity,
    /// Not a number (X.690, 8.5.9).
    NotANumber,
    /// A binary number (X.690, 8.5.7).
    Binary(Binary),
    /// A decimal number (X.690, 8.5.8).
    Decimal(Decimal),
}
