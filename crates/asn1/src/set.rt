//! SET: values that are told apart by their tags (X.680, 27; X.690, 8.11, 9.3, 10.3).
ghost use Rattle.std.specs.Prelude.{◌≡◌, ◌≢◌, true, false, refl, IfOk, IfErr};
ghost use Rattle.std.specs.Prelude.{List, IsPermutation};
ghost use Rattle.bcder.specs.declared.mode.Mode.TheVariants.{Cer, Der};
ghost use Rattle.bcder.specs.x690.Identifier.{set_tag};
ghost use Rattle.bcder.specs.calls.Captured.{Kept};
ghost use Rattle.bcder.specs.calls.Cause.{IsRefusal};
ghost use Rattle.bcder.specs.calls.Views.{Moved};
ghost use Rattle.asn1.specs.Types.{AreInside, Only, TookFields, TookNextTyped};
ghost use Rattle.asn1.specs.Tags.{set_tagged, only_tagged};
ghost use Rattle.asn1.specs.Markers.{only_fixed};
ghost use Rattle.asn1.specs.Decoded.{AreFields};
ghost use Rattle.asn1.specs.SetsWritten.{flat, octets_of_each};
ghost use Rattle.asn1.specs.Sorting.{Ascend};
ghost use Rattle.asn1.specs.Sets.{kept_place, kept_place_in, Rise, AreSet};
ghost use Rattle.asn1.specs.Sets.{AreKeptInOrder, IsUpTo, RefusesMembers};

use crate::list::take_list;
use crate::set_of::out_of_order;
use crate::set_order::{OwnTags, SetOrder, place};
use crate::whole::decode_fields;
use crate::writers::ByRef;
use crate::{Any, Decode, DecodeFields, Fields, FixedTag, Part, Trace, Type};
use bcder::decode::{BytesSource, Constructed, ContentError, DecodeError, IntoSource, Pos, Source};
use bcder::plain::front_at;
use bcder::{Captured, Mode, Tag};
use std::alloc::Global;
use std::marker::Model;

/// A SET of fields, whose values stand in any order in BER (X.680, 27; X.690, 8.11).
///
/// The fields have to be declared in ascending order of their tags: universal, application,
/// context-specific, private, and then by number (X.680, 8.6). An untagged CHOICE is declared where
/// the smallest of its tags belongs, wherever its others lie.
///
/// In CER the values have to stand in this order (X.690, 9.3), and in DER in that of their own tags
/// (10.3). In BER and DER they are put in the order of the fields. Two values of one field are
/// refused. Each value is captured, so the fields are read from memory.
#[derive(Clone, Copy, Debug, PartialEq, Eq, Drop)]
pub struct Set<F>(pub F);

impl<F> Model for Set<F> {
    ghost Value = { F };

    ghost view = { λ s. s.0 };

    ghost inverse = { λ f. record { 0 = f } };
}

impl<F: Fields + SetOrder> Type for Set<F> {
    ghost TAG = { set_tag };

    #[inline(always)]
    fn tag() -> Tag {
        Tag::SET
    }

    fn expect<P: Trace>(path: &mut P) {
        path.note(Part::Expected(Self::tag()));
    }

    ghost tags = { Only };

    ghost Key = { F.Keys };

    ghost key = { λ x. F.keys x };

    ghost means = { λ mode t x. AreInside (AreSet mode F.place (F.takes mode)) t x };

    ghost keeps_all = { F.keep_all };

    fn values_are_one() {
        F::fields_are_one();
    }

    ghost tagged = { refl };

    ghost value_tags = { only_tagged set_tagged };
}

impl<F: Fields + SetOrder> FixedTag for Set<F> {
    ghost fixed = { only_fixed };
}

/// The place of a value's tag.
fn place_of(value: &Any) -> u32
    ensures { result ≡ kept_place value.now }
{
    match front_at(value.mode(), value.as_slice()) {
        Some(front) => place(front.tag),
        None => 0,
    }
}

/// Whether each value comes before the next one in an order.
fn ascend<O: SetOrder>(values: &[Any]) -> bool
    ensures yes { result ≡ true → Rise (kept_place_in O.place) values.now }
    ensures no { result ≡ false → Rise (kept_place_in O.place) values.now → ⊥ }
{
    let mut index = 1;
    while index < values.len() {
        if O::place(place_of(&values[index - 1])) >= O::place(place_of(&values[index])) {
            return false;
        }
        index += 1;
    }
    true
}

/// Whether values stand as they have to in DER: in ascending order of their own tags
/// (X.690, 10.3).
fn stand_by_tag(mode: Mode, values: &[Any]) -> bool
    ensures yes { result ≡ true → mode ≡ Der → Rise kept_place values.now }
    ensures no { result ≡ false → (mode ≡ Der) × (Rise kept_place values.now → ⊥) }
{
    !mode.is_der() || ascend::<OwnTags>(values)
}

/// Puts values in an order, unless they have to stand in it.
fn sort<O: SetOrder>(mode: Mode, values: &mut Vec<Any>)
    ensures rearranged { IsPermutation values.old.items values.new.items }
    ensures in_place { mode ≡ Cer → values.new.items ≡ values.old.items }
    ensures sorted { mode ≢ Cer → Ascend (IsUpTo (kept_place_in O.place)) values.new.items }
{
    if !mode.is_cer() {
        values.sort_unstable_by_key(|value| O::place(place_of(value)));
    }
}

/// Puts values in an order, if they may stand in another one. Returns whether they ascend then,
/// each field's once.
fn put_in_order<O: SetOrder>(mode: Mode, values: &mut Vec<Any>) -> bool
    ensures yes { result ≡ true
        → AreKeptInOrder mode O.place values.old.items values.new.items }
    ensures no { result ≡ false
        → (ks : List Kept) → AreKeptInOrder mode O.place values.old.items ks → ⊥ }
{
    sort::<O>(mode, values);
    ascend::<O>(values.as_slice())
}

/// Refuses values at the first that doesn't come after the one before in an order.
fn refuse_order<O: SetOrder, E>(values: Vec<Any>) -> DecodeError<E>
    ensures { IsRefusal result }
{
    let mut least = 0;
    for value in values {
        let found = O::place(place_of(&value));
        if found < least {
            return out_of_order(value.into_captured());
        }
        least = found.saturating_add(1);
    }
    let error = ContentError::from_static("values of a set are out of order");
    DecodeError::content(error, Pos::default())
}

/// Reads the fields that values are.
fn read_members<F: DecodeFields<BytesSource>, E, P: Trace>(
    alloc: Global,
    mode: Mode,
    values: &Vec<Any>,
    path: &mut P,
) -> Result<F, DecodeError<E>>
    ensures value { IfOk result (λ x.
        AreFields mode (F.takes mode) (flat (octets_of_each values.now.items)) x) }
    ensures refused { IfErr result (λ e.
        RefusesMembers mode (F.takes mode) (flat (octets_of_each values.now.items)) e) }
{
    let Ok(joined) = Captured::from_values(alloc, mode, ByRef(values)) else {
        return Err(DecodeError::no_memory());
    };
    match decode_fields::<F, BytesSource, P>(alloc, mode, joined.into_source(), path) {
        Ok(fields) => Ok(fields),
        Err(error) => Err(error.convert()),
    }
}

/// Takes all values up to the end of content.
fn take_members<S: Source, F: DecodeFields<BytesSource> + SetOrder, P: Trace>(
    alloc: Global,
    cons: &mut Constructed<'_, S>,
    path: &mut P,
) -> Result<F, DecodeError<S::Error>>
    ensures moves { Moved S.stream cons }
    ensures took { TookFields S.stream cons (λ mode. AreSet mode F.place (F.takes mode)) true
        result }
{
    let mut values = match take_list::<S, Any, ()>(alloc, cons, &mut ()) {
        Ok(values) => values,
        Err(error) => return Err(error),
    };
    let mode = cons.mode();
    if !stand_by_tag(mode, values.as_slice()) {
        return Err(refuse_order::<OwnTags, S::Error>(values));
    }
    if !put_in_order::<F>(mode, &mut values) {
        return Err(refuse_order::<F, S::Error>(values));
    }
    match read_members(alloc, mode, &values, path) {
        Ok(fields) => Ok(fields),
        Err(error) => Err(error),
    }
}

/// Takes the next value if it has this tag. It then has to be constructed of the fields.
fn take_set<S: Source, F: DecodeFields<BytesSource> + SetOrder, P: Trace>(
    alloc: Global,
    cons: &mut Constructed<'_, S>,
    tag: Tag,
    path: &mut P,
) -> Result<Option<F>, DecodeError<S::Error>>
    ensures moves { Moved S.stream cons }
    ensures took { TookNextTyped S.stream cons (Only tag)
        (λ mode. AreInside (AreSet mode F.place (F.takes mode))) true result }
{
    cons.take_opt_constructed_if(
        tag,
        |cons|
            ensures moves { Moved S.stream cons }
            ensures took { TookFields S.stream cons
                (λ mode. AreSet mode F.place (F.takes mode)) true result }
        { take_members(alloc, cons, path) },
    )
}

impl<S: Source, F: DecodeFields<BytesSource> + SetOrder> Decode<S> for Set<F> {
    ghost may_lack = { true };

    #[inline(always)]
    fn trace_opt_if<P: Trace>(
        alloc: Global,
        cons: &mut Constructed<'_, S>,
        tag: Tag,
        path: &mut P,
    ) -> Result<Option<Set<F>>, DecodeError<S::Error>> {
        match take_set(alloc, cons, tag, path) {
            Ok(Some(fields)) => Ok(Some(Set(fields))),
            Ok(None) => Ok(None),
            Err(error) => Err(error),
        }
    }
}
