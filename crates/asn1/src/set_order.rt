//! The order of the values of a SET (X.680, 8.6; X.690, 9.3).
ghost use Rattle.std.specs.Prelude.{◌≡◌, ◌||◌, ℕ, min, nat_eq};
ghost use Rattle.asn1.specs.Sets.{place as place_in_order};
ghost use Rattle.asn1.specs.SetOrder.{smallest_of, LooksAt};

use crate::writers::ByRef;
use crate::{DefaultValue, ExtensionAdditions, OrDefault, Part, Trace, Type};
use bcder::Tag;

/// The place of a tag in the order of tags: by class, and then by number (X.680, 8.6).
pub(crate) fn place(tag: Tag) -> u32
    ensures { result ≡ place_in_order tag }
{
    let class = if tag.is_universal() {
        0
    } else if tag.is_application() {
        1
    } else if tag.is_context_specific() {
        2
    } else {
        3
    };
    class * 2_097_152 + tag.number()
}

/// An order of the values of a SET: that of its fields.
///
/// A value is ordered by its tag. That of an untagged CHOICE is ordered as though it had the
/// smallest tag of the CHOICE (X.690, 9.3).
pub trait SetOrder {
    /// The place of a value, by the place of its tag.
    ghost place: { ℕ → ℕ };

    /// Returns the place of a value, by the place of its tag.
    fn place(of_tag: u32) -> u32
        ensures { result ≡ Self.place of_tag };
}

/// The order of the values' own tags.
pub(crate) struct OwnTags;

impl SetOrder for OwnTags {
    ghost place = { λ n. n };

    fn place(of_tag: u32) -> u32 {
        of_tag
    }
}

/// The tags of a type, looked at for one of them and the smallest.
#[derive(Clone, Copy, Drop)]
struct Alternatives {
    /// The place that is looked for.
    asked: u32,
    /// The least place up to now.
    least: u32,
    /// Whether the place that is looked for was among them.
    is_found: bool,
}

impl Alternatives {
    /// Looks at the place of one more tag.
    fn look_at(&mut self, place: u32)
        ensures asked { self.new.asked ≡ self.old.asked }
        ensures least { self.new.least ≡ min self.old.least place }
        ensures found { self.new.is_found ≡ (self.old.is_found || nat_eq self.old.asked place) }
    {
        self.is_found = self.is_found || self.asked == place;
        self.least = self.least.min(place);
    }
}

impl Trace for Alternatives {
    ghost noted = { LooksAt };

    fn note(&mut self, part: Part) {
        if let Part::Expected(tag) = part {
            self.look_at(place(tag));
        }
    }

    fn name_part(&mut self, _names: &'static [&'static str]) {}
}

/// Returns the place of a value of a type among those of a SET: that of the type's smallest tag,
/// if the value's tag is one of the type's.
fn smallest<T: Type>(of_tag: u32) -> u32
    ensures { result ≡ smallest_of (T.expects T.TAG) of_tag }
{
    let mut alternatives = Alternatives {
        asked: of_tag,
        least: of_tag,
        is_found: false,
    };
    T::expect(&mut alternatives);
    if alternatives.is_found {
        alternatives.least
    } else {
        of_tag
    }
}

/// A value.
impl<T: Type> SetOrder for T {
    ghost place = { smallest_of (T.expects T.TAG) };

    fn place(of_tag: u32) -> u32 {
        smallest::<T>(of_tag)
    }
}

/// A value that may be left out.
impl<T: Type> SetOrder for Option<T> {
    ghost place = { smallest_of (T.expects T.TAG) };

    fn place(of_tag: u32) -> u32 {
        smallest::<T>(of_tag)
    }
}

/// A value that may be left out, and then is the default.
impl<T: Type, D: DefaultValue<T>> SetOrder for OrDefault<T, D> {
    ghost place = { smallest_of (T.expects T.TAG) };

    fn place(of_tag: u32) -> u32 {
        smallest::<T>(of_tag)
    }
}

/// As many values as there are, each of which is ordered by its own tag.
impl<T: Type> SetOrder for Vec<T> {
    ghost place = { λ n. n };

    fn place(of_tag: u32) -> u32 {
        of_tag
    }
}

/// Values of any type, each of which is ordered by its own tag.
impl SetOrder for ExtensionAdditions {
    ghost place = { λ n. n };

    fn place(of_tag: u32) -> u32 {
        of_tag
    }
}

/// Fields behind a reference.
impl<F: SetOrder> SetOrder for ByRef<'_, F> {
    ghost place = { F.place };

    fn place(of_tag: u32) -> u32 {
        F::place(of_tag)
    }
}

/// One behind the other.
impl<A: SetOrder, B: SetOrder> SetOrder for (A, B) {
    ghost place = { λ n. B.place (A.place n) };

    fn place(of_tag: u32) -> u32 {
        B::place(A::place(of_tag))
    }
}

/// Three fields.
impl<A: SetOrder, B: SetOrder, C: SetOrder> SetOrder for (A, B, C) {
    ghost place = { ⟦<(A, (B, C)) as SetOrder>⟧.place };

    fn place(of_tag: u32) -> u32 {
        <(A, (B, C))>::place(of_tag)
    }
}

/// Four fields.
impl<A: SetOrder, B: SetOrder, C: SetOrder, D: SetOrder> SetOrder for (A, B, C, D) {
    ghost place = { ⟦<(A, (B, C, D)) as SetOrder>⟧.place };

    fn place(of_tag: u32) -> u32 {
        <(A, (B, C, D))>::place(of_tag)
    }
}

/// Five fields.
impl<A: SetOrder, B: SetOrder, C: SetOrder, D: SetOrder, E: SetOrder> SetOrder for (A, B, C, D, E) {
    ghost place = { ⟦<((A, B, C, D), E) as SetOrder>⟧.place };

    fn place(of_tag: u32) -> u32 {
        <((A, B, C, D), E)>::place(of_tag)
    }
}

/// Six fields.
impl<A: SetOrder, B: SetOrder, C: SetOrder, D: SetOrder, E: SetOrder, F: SetOrder> SetOrder
    for (A, B, C, D, E, F) {
    ghost place = { ⟦<((A, B, C, D), (E, F)) as SetOrder>⟧.place };

    fn place(of_tag: u32) -> u32 {
        <((A, B, C, D), (E, F))>::place(of_tag)
    }
}

/// Seven fields.
impl<
    A: SetOrder,
    B: SetOrder,
    C: SetOrder,
    D: SetOrder,
    E: SetOrder,
    F: SetOrder,
    G: SetOrder,
> SetOrder for (A, B, C, D, E, F, G) {
    ghost place = { ⟦<((A, B, C, D), (E, F, G)) as SetOrder>⟧.place };

    fn place(of_tag: u32) -> u32 {
        <((A, B, C, D), (E, F, G))>::place(of_tag)
    }
}

/// Eight fields.
impl<
    A: SetOrder,
    B: SetOrder,
    C: SetOrder,
    D: SetOrder,
    E: SetOrder,
    F: SetOrder,
    G: SetOrder,
    H: SetOrder,
> SetOrder for (A, B, C, D, E, F, G, H) {
    ghost place = { ⟦<((A, B, C, D), (E, F, G, H)) as SetOrder>⟧.place };

    fn place(of_tag: u32) -> u32 {
        <((A, B, C, D), (E, F, G, H))>::place(of_tag)
    }
}

/// Nine fields.
impl<
    A: SetOrder,
    B: SetOrder,
    C: SetOrder,
    D: SetOrder,
    E: SetOrder,
    F: SetOrder,
    G: SetOrder,
    H: SetOrder,
    I: SetOrder,
> SetOrder for (A, B, C, D, E, F, G, H, I) {
    ghost place = { ⟦<((A, B, C, D), (E, F, G, H, I)) as SetOrder>⟧.place };

    fn place(of_tag: u32) -> u32 {
        <((A, B, C, D), (E, F, G, H, I))>::place(of_tag)
    }
}

/// Ten fields.
impl<
    A: SetOrder,
    B: SetOrder,
    C: SetOrder,
    D: SetOrder,
    E: SetOrder,
    F: SetOrder,
    G: SetOrder,
    H: SetOrder,
    I: SetOrder,
    J: SetOrder,
> SetOrder for (A, B, C, D, E, F, G, H, I, J) {
    ghost place = { ⟦<((A, B, C, D), (E, F, G, H, I, J)) as SetOrder>⟧.place };

    fn place(of_tag: u32) -> u32 {
        <((A, B, C, D), (E, F, G, H, I, J))>::place(of_tag)
    }
}

/// Eleven fields.
impl<
    A: SetOrder,
    B: SetOrder,
    C: SetOrder,
    D: SetOrder,
    E: SetOrder,
    F: SetOrder,
    G: SetOrder,
    H: SetOrder,
    I: SetOrder,
    J: SetOrder,
    K: SetOrder,
> SetOrder for (A, B, C, D, E, F, G, H, I, J, K) {
    ghost place = { ⟦<((A, B, C, D), (E, F, G, H, I, J, K)) as SetOrder>⟧.place };

    fn place(of_tag: u32) -> u32 {
        <((A, B, C, D), (E, F, G, H, I, J, K))>::place(of_tag)
    }
}

/// Twelve fields.
impl<
    A: SetOrder,
    B: SetOrder,
    C: SetOrder,
    D: SetOrder,
    E: SetOrder,
    F: SetOrder,
    G: SetOrder,
    H: SetOrder,
    I: SetOrder,
    J: SetOrder,
    K: SetOrder,
    L: SetOrder,
> SetOrder for (A, B, C, D, E, F, G, H, I, J, K, L) {
    ghost place = { ⟦<((A, B, C, D), (E, F, G, H, I, J, K, L)) as SetOrder>⟧.place };

    fn place(of_tag: u32) -> u32 {
        <((A, B, C, D), (E, F, G, H, I, J, K, L))>::place(of_tag)
    }
}
