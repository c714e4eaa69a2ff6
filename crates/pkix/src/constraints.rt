//! Constraints.
ghost use Rattle.std.specs.Prelude.{false, refl};

use asn1::{
    ByRef, DecodeDefinition, DefaultValue, Definition, EncodeDefinition, OrDefault, Sequence,
    UseParts,
};
use bcder::decode::Source;
use bcder::{NoMemory, Tag};
use std::alloc::Global;

/// Whether a subject is an authority, and how many may follow it (RFC 5280, section 4.2.1.9).
///
///     BasicConstraints ::= SEQUENCE {
///         cA                 BOOLEAN DEFAULT FALSE,
///         pathLenConstraint  INTEGER (0..MAX) OPTIONAL }
#[derive(Debug, Drop)]
pub struct BasicConstraints {
    /// Whether it is an authority.
    pub ca: OrDefault<bool, NoCa>,

    /// How many certificates of authorities may follow.
    pub path_len: Option<u32>,
}

impl Definition for BasicConstraints {
    type As = Sequence<(OrDefault<bool, NoCa>, Option<u32>)>;

    const NAME: &'static str = "BasicConstraints";

    const PARTS: &'static [&'static str] = &["ca", "path_len"];

    ghost parts = { λ x. (x.ca, x.path_len) };

    fn from_parts(value: Sequence<(OrDefault<bool, NoCa>, Option<u32>)>) -> BasicConstraints {
        let Sequence((ca, path_len)) = value;
        BasicConstraints { ca, path_len }
    }
}

impl<S: Source> DecodeDefinition<S> for BasicConstraints {}

impl EncodeDefinition for BasicConstraints {
    fn give_parts<T, U: UseParts<T>>(&self, tag: Tag, to: U, target: &mut T) -> U::Out {
        to.use_parts(
            &Sequence((ByRef(&self.ca), ByRef(&self.path_len))),
            tag,
            target,
        )
    }

    ghost made = { λ v. (record { ca = v.0; path_len = v.1 }, refl) };
}

/// `FALSE`: no authority, if nothing is said.
#[derive(Clone, Copy, Debug, PartialEq, Eq)]
pub struct NoCa;

impl DefaultValue<bool> for NoCa {
    ghost default = { false };

    fn is_default(value: &bool) -> bool {
        !*value
    }

    fn make(_alloc: Global) -> Result<bool, NoMemory> {
        Ok(false)
    }
}
