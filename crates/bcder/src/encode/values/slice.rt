//! The items of a slice, each encoded as what a closure returns for it.
ghost use Rattle.std.specs.Prelude.{◌≡◌};

use crate::encode::values::Values;
use crate::encode::values::mapped::Slice;
use std::convert::AsSlice;

/// Creates an encoder of the items of `value`, each as what `f` returns for it.
pub fn slice<T: AsSlice<U>, F: Fn(&U) -> V, U, V: Values>(value: T, f: F) -> Slice<T, F, U, V>
    ensures value { result.value ≡ value }
    ensures closure { result.f ≡ f }
{
    Slice::new(value, f)
}
