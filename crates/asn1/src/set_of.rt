//! SET OF: values without an order (X.680, 28; X.690, 8.12, 11.6).
ghost use Rattle.std.specs.Prelude.{◌≡◌, ◌≢◌, true, false, refl, IfOk, IfErr};
ghost use Rattle.bcder.specs.declared.mode.Mode.TheVariants.{Ber};
ghost use Rattle.bcder.specs.x690.Identifier.{set_tag};
ghost use Rattle.bcder.specs.calls.Cause.{IsRefusal};
ghost use Rattle.bcder.specs.calls.Views.{Moved};
ghost use Rattle.asn1.specs.Types.{AreInside, Only, TookFields, TookNextTyped};
ghost use Rattle.asn1.specs.Keys.{list_key};
ghost use Rattle.asn1.specs.Tags.{set_tagged, only_tagged};
ghost use Rattle.asn1.specs.Markers.{only_fixed};
ghost use Rattle.asn1.specs.Decoded.{IsValueOf};
ghost use Rattle.asn1.specs.SetsOf.{IsNotAfter, AreSetOf, AnyOrder, in_any_order, RefusesOctets};

use crate::whole::decode_traced;
use crate::{Decode, FixedTag, Part, Trace, Type};
use bcder::decode::{BytesSource, Constructed, ContentError, DecodeError, IntoSource, Source};
use bcder::{Captured, Mode, Tag};
use bytes::Bytes;
use std::alloc::Global;
use std::marker::Model;

/// A SET OF: any number of values of one type, without an order (X.680, 28; X.690, 8.12).
///
/// `SetOf<u32>` is `SET OF INTEGER (0..4294967295)`. The vector may have any order, and sets are
/// told apart by their values up to order. In CER and DER the encodings have to ascend (11.6).
#[derive(Debug, Drop)]
pub struct SetOf<T>(pub Vec<T>);

/// In clauses it is the vector.
impl<T> Model for SetOf<T> {
    ghost use Rattle.std.specs.declared.vec.Vec.{Vec};
    ghost use Rattle.std.specs.declared.alloc.Global.{Global};

    ghost Value = { Vec T Global };

    ghost view = { λ s. s.0 };

    ghost inverse = { λ v. record { 0 = v } };
}

impl<T: Type> Type for SetOf<T> {
    ghost TAG = { set_tag };

    #[inline(always)]
    fn tag() -> Tag {
        Tag::SET
    }

    fn expect<P: Trace>(path: &mut P) {
        path.note(Part::Expected(Self::tag()));
    }

    ghost tags = { Only };

    ghost Key = { AnyOrder T.Key };

    ghost key = { λ x. in_any_order (list_key T.key x.items) };

    ghost means = { λ mode t x. AreInside (λ ts y us.
        AreSetOf mode (T.tags T.TAG) (T.means mode) ts y.items us) t x };

    ghost keeps_all = { T.keeps_all };

    fn values_are_one() {
        T::values_are_one();
    }

    ghost tagged = { refl };

    ghost value_tags = { only_tagged set_tagged };
}

impl<T: Type> FixedTag for SetOf<T> {
    ghost fixed = { only_fixed };
}

/// Whether octets don't come after others, the shorter ones padded with zeros (X.690, 11.6).
fn is_not_after(octets: &[u8], others: &[u8]) -> bool
    ensures yes { result ≡ true → IsNotAfter octets.now others.now }
    ensures no { result ≡ false → IsNotAfter octets.now others.now → ⊥ }
{
    let mut index = 0;
    while index < octets.len() {
        let octet = octets[index];
        let other = if index < others.len() {
            others[index]
        } else {
            0
        };
        if octet != other {
            return octet < other;
        }
        index += 1;
    }
    true
}

/// Whether a value may stand behind another one: in BER always, in CER and DER if its encoding
/// doesn't come before the other's.
fn may_follow(mode: Mode, last: &[u8], octets: &[u8]) -> bool
    ensures yes { result ≡ true → mode ≢ Ber → IsNotAfter last.now octets.now }
    ensures no { result ≡ false → mode ≢ Ber }
    ensures none { result ≡ false → IsNotAfter last.now octets.now → ⊥ }
{
    mode.is_ber() || is_not_after(last, octets)
}

/// Refuses a value of a set where it begins.
pub(crate) fn out_of_order<E>(captured: Captured) -> DecodeError<E>
    ensures { IsRefusal result }
{
    let error = ContentError::from_static("values of a set are out of order");
    captured.into_source().content_err(error).convert()
}

/// The value that captured octets encode.
fn read_value<T: Decode<BytesSource>, E, P: Trace>(
    alloc: Global,
    mode: Mode,
    captured: Captured,
    path: &mut P,
) -> Result<T, DecodeError<E>>
    ensures value { IfOk result (λ x.
        IsValueOf mode (T.tags T.TAG) (T.means mode) captured.octets x) }
    ensures refused { IfErr result (λ e.
        RefusesOctets mode (T.tags T.TAG) (T.means mode) captured.octets e) }
{
    match decode_traced::<T, Captured, P>(alloc, mode, captured, path) {
        Ok(value) => Ok(value),
        Err(error) => Err(error.convert()),
    }
}

/// Takes all values up to the end of content.
///
/// Each is captured, since its octets are compared with those of the one before.
fn take_values<S: Source, T: Decode<BytesSource>, P: Trace>(
    alloc: Global,
    cons: &mut Constructed<'_, S>,
    path: &mut P,
) -> Result<Vec<T>, DecodeError<S::Error>>
    ensures moves { Moved S.stream cons }
    ensures took { TookFields S.stream cons (λ mode ts x us.
        AreSetOf mode (T.tags T.TAG) (T.means mode) ts x.items us) true result }
{
    let mode = cons.mode();
    let mut all = Vec::new(alloc);
    let mut last = Bytes::new();
    loop {
        match cons.capture_opt_one(alloc) {
            Ok(Some(captured)) => {
                let Ok(octets) = captured.bytes() else {
                    return Err(DecodeError::no_memory());
                };
                if !may_follow(mode, last.as_slice(), octets.as_slice()) {
                    path.note(Part::Item(all.len()));
                    return Err(out_of_order(captured));
                }
                match read_value::<T, S::Error, P>(alloc, mode, captured, path) {
                    Ok(value) => {
                        if all.push(value).is_err() {
                            return Err(DecodeError::no_memory());
                        }
                    }
                    Err(error) => {
                        path.note(Part::Item(all.len()));
                        return Err(error);
                    }
                }
                last = octets;
            }
            Ok(None) => return Ok(all),
            Err(error) => {
                path.note(Part::Item(all.len()));
                return Err(error);
            }
        }
    }
}

/// Takes the next value if it has this tag. It then has to be constructed of the values.
fn take_set_of<S: Source, T: Decode<BytesSource>, P: Trace>(
    alloc: Global,
    cons: &mut Constructed<'_, S>,
    tag: Tag,
    path: &mut P,
) -> Result<Option<Vec<T>>, DecodeError<S::Error>>
    ensures moves { Moved S.stream cons }
    ensures took { TookNextTyped S.stream cons (Only tag) (λ mode t x.
        AreInside (λ ts y us. AreSetOf mode (T.tags T.TAG) (T.means mode) ts y.items us) t x)
        true result }
{
    cons.take_opt_constructed_if(
        tag,
        |cons|
            ensures moves { Moved S.stream cons }
            ensures took { TookFields S.stream cons (λ mode ts x us.
                AreSetOf mode (T.tags T.TAG) (T.means mode) ts x.items us) true result }
        { take_values(alloc, cons, path) },
    )
}

impl<S: Source, T: Decode<BytesSource>> Decode<S> for SetOf<T> {
    ghost may_lack = { true };

    #[inline(always)]
    fn trace_opt_if<P: Trace>(
        alloc: Global,
        cons: &mut Constructed<'_, S>,
        tag: Tag,
        path: &mut P,
    ) -> Result<Option<SetOf<T>>, DecodeError<S::Error>> {
        match take_set_of(alloc, cons, tag, path) {
            Ok(Some(values)) => Ok(Some(SetOf(values))),
            Ok(None) => Ok(None),
            Err(error) => Err(error),
        }
    }
}
