//! Writes lists through an iterator over their items, and octets that are chosen first.
//!
//! `iter` requires that each clone of the iterator gives the same items. The lemmas that the next
//! line names prove this.
#![tactic(auto, using(bcder::specs::laws::Listed::gives_one_list))]

ghost use Rattle.std.specs.Prelude.{◌≡◌, ◌≢◌, Any, All, IfErr};
ghost use Rattle.bcder.specs.declared.encode.error.EncodeError.TheVariants.{NoMemory};
ghost use Rattle.bcder.specs.declared.encode.error.WriteError.TheVariants.{Refused};

use bcder::encode::{Primitive, PrimitiveContent, Values, WriteError, iter, sequence};
use bcder::{Mode, Tag};
use std::alloc::Global;
use std::io;

/// Writes a SEQUENCE OF INTEGER (X.690, 8.10).
///
/// # Errors
///
/// Returns the errors of [`Values::write_encoded`], but never `NoMemory`.
pub fn write_numbers<W: io::Write>(
    numbers: &[Primitive<u32>],
    mode: Mode,
    target: &mut W,
) -> Result<(), WriteError>
    ensures { IfErr result (λ e. e ≢ Refused NoMemory) }
{
    sequence(iter(numbers.iter())).write_encoded(mode, target)
}

/// Writes the values of a vector, one after the other.
///
/// # Errors
///
/// Returns the errors of [`Values::write_encoded`], among them `NoMemory` only if the encoder of
/// one of the values may run out of memory.
pub fn write_each<V: Values, W: io::Write>(
    values: &Vec<V>,
    mode: Mode,
    target: &mut W,
) -> Result<(), WriteError>
    requires { All V.can_encode values.now.items }
    ensures { IfErr result (λ e. e ≡ Refused NoMemory →
        Any (λ v. V.may_lack v mode) values.now.items) }
{
    iter(values).write_encoded(mode, target)
}

/// Writes an OCTET STRING of the octets that aren't 0 (X.690, 8.7).
///
/// # Errors
///
/// Those of [`Values::write_encoded`], and where there is no memory for the octets.
pub fn write_chosen<W: io::Write>(
    alloc: Global,
    octets: &[u8],
    mode: Mode,
    target: &mut W,
) -> Result<(), WriteError> {
    let mut chosen = Vec::new(alloc);
    for octet in octets {
        if *octet != 0 {
            chosen.push(*octet)?;
        }
    }
    chosen
        .as_slice()
        .encode_as(Tag::OCTET_STRING)
        .write_encoded(mode, target)
}
