//! A value that may be left out, and then is the default (X.680, 25.10; X.690, 11.5).
ghost use Rattle.std.specs.Prelude.{◌≡◌, ◌≢◌, ◌↔◌, ◌||◌, Bool, IsTrue, IfErr, IfOk, true, false};
ghost use Rattle.std.specs.Prelude.{Some};
ghost use Rattle.bcder.specs.declared.mode.Mode.TheVariants.{Ber};
ghost use Rattle.bcder.specs.calls.Cause.{IsRefusal, position_of};
ghost use Rattle.bcder.specs.calls.Views.{of_constructed, Moved};
ghost use Rattle.asn1.specs.Types.{TookFields};
ghost use Rattle.asn1.specs.Defaults.{IsDefaulted};

use crate::{Decode, DecodeFields, Fields, Part, Trace, Type};
use bcder::decode::{Constructed, ContentError, DecodeError, Pos, Source};
use bcder::{Mode, NoMemory};
use std::alloc::Global;
use std::marker::{Model, PhantomData};

/// The default value of a field: the `FALSE` of `BOOLEAN DEFAULT FALSE` (X.680, 25.10).
pub trait DefaultValue<T: Type> {
    /// The default, in clauses.
    ghost default: { T };

    /// Whether memory may run out when it is made. By default it doesn't.
    ghost may_lack: { Bool } = { false };

    /// Returns whether a value is the default.
    fn is_default(value: &T) -> bool
        ensures { IsTrue result ↔ (T.key value.now ≡ T.key default) };

    /// Makes the default.
    ///
    /// # Errors
    ///
    /// Returns an error if memory runs out, which it only does if it may.
    fn make(alloc: Global) -> Result<T, NoMemory>
        ensures made { IfOk result (λ x. T.key x ≡ T.key default) }
        ensures lacks { IfErr result (λ _. IsTrue may_lack) };
}

/// A value that is the default if none stands there.
///
/// In CER and DER a value that is the default is not written, and refused if it is
/// (X.690, 11.5).
#[derive(Clone, Copy, Debug, PartialEq, Eq, Drop)]
pub struct OrDefault<T, D> {
    /// The value, or the default.
    pub value: T,
    mark: PhantomData<D>,
}

/// In clauses it is the value.
impl<T, D> Model for OrDefault<T, D> {
    ghost Value = { T };

    ghost view = { λ x. x.value };

    ghost inverse = { λ v. record { value = v; mark = record {} } };
}

impl<T, D> OrDefault<T, D> {
    /// This value.
    pub fn new(value: T) -> OrDefault<T, D>
        ensures { result ≡ value }
    {
        OrDefault {
            value,
            mark: PhantomData,
        }
    }
}

/// Returns whether a value may not be written: the default, in CER and DER.
#[inline(always)]
fn is_left_out<T: Type, D: DefaultValue<T>>(mode: Mode, value: &T) -> bool
    ensures yes { result ≡ true → (mode ≢ Ber) × (T.key value.now ≡ T.key D.default) }
    ensures no { result ≡ false → mode ≢ Ber → T.key value.now ≢ T.key D.default }
{
    if mode.is_ber() {
        false
    } else {
        D::is_default(value)
    }
}

/// Returns the position of the next value.
fn next_pos<S: Source>(cons: &Constructed<'_, S>) -> Pos
    ensures { result ≡ (of_constructed S.stream cons.now).stream.position }
{
    match cons.next_err(ContentError::from_static("")) {
        DecodeError::Content { pos, .. } => pos,
        DecodeError::Source(_) | DecodeError::NoMemory => Pos::default(),
    }
}

/// Refuses a default that is encoded at a position, though CER and DER leave it out.
#[cold]
fn default_is_encoded<E>(pos: Pos) -> DecodeError<E>
    ensures refusal { IsRefusal result }
    ensures position { position_of result ≡ Some pos }
{
    let why = ContentError::from_static("a default value is encoded");
    DecodeError::content(why, pos)
}

/// A value, or none, which means the default.
impl<T: Type, D: DefaultValue<T>> Fields for OrDefault<T, D> {
    ghost Keys = { T.Key };

    ghost keys = { λ x. T.key x };

    ghost takes = { λ mode ts x us.
        IsDefaulted mode (T.tags T.TAG) (T.means mode) T.key (T.key D.default) ts x us };

    ghost keep_all = { T.keeps_all };

    fn count() -> usize {
        1
    }

    fn fields_are_one() {
        T::values_are_one();
    }
}

impl<S: Source, T: Decode<S>, D: DefaultValue<T>> DecodeFields<S> for OrDefault<T, D> {
    ghost may_lack = { T.may_lack || D.may_lack };

    #[inline(always)]
    fn trace_fields<P: Trace>(
        alloc: Global,
        cons: &mut Constructed<'_, S>,
        path: &mut P,
    ) -> Result<OrDefault<T, D>, DecodeError<S::Error>> {
        T::values_are_one();
        let pos = next_pos(cons);
        match <Option<T>>::trace_fields(alloc, cons, path) {
            Ok(Some(value)) => {
                let mode = cons.mode();
                if is_left_out::<T, D>(mode, &value) {
                    path.note(Part::Field);
                    return Err(default_is_encoded(pos));
                }
                Ok(OrDefault {
                    value,
                    mark: PhantomData,
                })
            }
            Ok(None) => match D::make(alloc) {
                Ok(value) => Ok(OrDefault {
                    value,
                    mark: PhantomData,
                }),
                Err(_) => Err(DecodeError::no_memory()),
            },
            Err(error) => Err(error),
        }
    }
}
