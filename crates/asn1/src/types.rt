//! Types, and their readers.
ghost use Rattle.std.specs.Prelude.{⊤, ◌≢◌, ◌≡◌, Bool, false, List, [], ◌∷◌};
ghost use Rattle.bcder.specs.declared.mode.Mode.{Mode};
ghost use Rattle.bcder.specs.x690.Tree.{Tree};
ghost use Rattle.bcder.specs.x690.Identifier.{Tag as TagValue, IsValueTag};
ghost use Rattle.bcder.specs.calls.Views.{Moved};
ghost use Rattle.bcder.specs.declared.mode.Mode.TheVariants.{Ber};
ghost use Rattle.asn1.specs.Types.{TookNextTyped};
ghost use Rattle.asn1.specs.Tracing.{AreNoted};
ghost use Rattle.asn1.specs.declared.trace.Part.{Part as PartValue};
ghost use Rattle.asn1.specs.declared.trace.Part.TheVariants.{Expected};
ghost use Rattle.asn1.specs.Keys.{MeansOne, IsMeantOnce};

use crate::Trace;
use bcder::Tag;
use bcder::decode::{Constructed, DecodeError, Source};
use std::alloc::Global;

/// A type of ASN.1: which values mean what.
pub trait Type: Drop + Sized {
    /// The tag of its values. A CHOICE has several, and this is its first type's.
    ghost TAG: { TagValue };

    /// The tag of its values. A CHOICE has several, and this is its first type's.
    fn tag() -> Tag
        ensures { result ≡ TAG };

    /// The name of the type, for errors. It is empty, unless a [`Definition`](crate::Definition)
    /// gives one.
    const NAME: &'static str = "";

    /// What is noted if a value was expected, when this tag is asked for. By default that is this
    /// tag.
    ghost expects: { TagValue → List PartValue } = { λ tag. Expected tag ∷ [] };

    /// Notes that a value of the type was expected.
    fn expect<P: Trace>(path: &mut P)
        ensures { AreNoted P.noted path.old (expects TAG) path.new };

    /// The tags that its values have if this one is asked for. That is this one, but a CHOICE,
    /// which has no tag of its own (X.680, 29.7), has those of its alternatives.
    ghost tags: { TagValue → TagValue → Type 0 };

    /// What its values are told apart by.
    ghost Key: { Type 0 };

    /// By what a value is told apart.
    ghost key: { Self → Key };

    /// Which values mean what, in a mode, whatever their tag.
    ghost means: { Mode → Tree → Self → Type 0 };

    /// When a value keeps all that is encoded. By default it does. It doesn't if a part of it
    /// passes over values, as [`ExtensionAdditions`](crate::ExtensionAdditions) do.
    ghost keeps_all: { Type 0 } = { ⊤ };

    /// A law: a value means one thing at most, and in CER and DER one value with a tag means it, if
    /// all is kept.
    fn values_are_one()
        ensures one { (mode : Mode) → MeansOne (means mode) key }
        ensures once { keeps_all
            → (mode : Mode) → mode ≢ Ber → IsMeantOnce mode tags (means mode) key };

    /// The tag is one of the tags.
    ghost tagged: { tags TAG TAG };

    /// Values can have the tags.
    ghost value_tags: { (t : TagValue) → tags TAG t → IsValueTag t };
}

/// A type that is read from a source.
pub trait Decode<S: Source>: Type {
    /// Whether memory may run out when a value is read. By default it doesn't.
    ghost may_lack: { Bool } = { false };

    /// Takes the next value if it has this tag, or returns `None` at the end and at a value of
    /// another tag, which stays.
    ///
    /// # Errors
    ///
    /// Returns an error if a value of the tag comes next that means nothing, or octets that are no
    /// value; if an earlier value was refused; if the source fails; if memory runs out, which only
    /// a type that may lack it returns. In which part of the value it was is noted in the path.
    fn trace_opt_if<P: Trace>(
        alloc: Global,
        cons: &mut Constructed<'_, S>,
        tag: Tag,
        path: &mut P,
    ) -> Result<Option<Self>, DecodeError<S::Error>>
        ensures moves { Moved S.stream cons }
        ensures took { TookNextTyped S.stream cons (Self.tags tag) Self.means may_lack result };

    /// Takes the next value of the type, with the type's own tag, as
    /// [`trace_opt_if`](Self::trace_opt_if) does.
    ///
    /// # Errors
    ///
    /// Those of `trace_opt_if`.
    #[inline(always)]
    final fn trace_opt_from<P: Trace>(
        alloc: Global,
        cons: &mut Constructed<'_, S>,
        path: &mut P,
    ) -> Result<Option<Self>, DecodeError<S::Error>>
        ensures moves { Moved S.stream cons }
        ensures took { TookNextTyped S.stream cons (Self.tags Self.TAG) Self.means may_lack
            result }
    {
        Self::trace_opt_if(alloc, cons, Self::tag(), path)
    }

    /// Takes the next value if it has this tag, or returns `None` at the end and at a value of
    /// another tag, which stays.
    ///
    /// # Errors
    ///
    /// Those of [`trace_opt_if`](Self::trace_opt_if). Nothing is noted.
    #[inline(always)]
    final fn take_opt_if(
        alloc: Global,
        cons: &mut Constructed<'_, S>,
        tag: Tag,
    ) -> Result<Option<Self>, DecodeError<S::Error>>
        ensures moves { Moved S.stream cons }
        ensures took { TookNextTyped S.stream cons (Self.tags tag) Self.means may_lack result }
    {
        Self::trace_opt_if(alloc, cons, tag, &mut ())
    }

    /// Takes the next value of the type, with the type's own tag.
    ///
    /// # Errors
    ///
    /// Those of [`take_opt_if`](Self::take_opt_if).
    #[inline(always)]
    final fn take_opt_from(
        alloc: Global,
        cons: &mut Constructed<'_, S>,
    ) -> Result<Option<Self>, DecodeError<S::Error>>
        ensures moves { Moved S.stream cons }
        ensures took { TookNextTyped S.stream cons (Self.tags Self.TAG) Self.means may_lack
            result }
    {
        Self::take_opt_if(alloc, cons, Self::tag())
    }
}
