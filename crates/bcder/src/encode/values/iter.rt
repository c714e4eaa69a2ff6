//! The items of an iterator, one after the other.
ghost use Rattle.std.specs.Prelude.{◌≡◌};

use crate::encode::values::iterated::Iter;

/// Creates an encoder of the items of `value`, one after the other.
pub fn iter<T: IntoIterator + Clone>(value: T) -> Iter<T>
    ensures { result ≡ record { value = value } }
{
    Iter::new(value)
}
