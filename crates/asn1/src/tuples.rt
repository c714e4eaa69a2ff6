//! Three to twelve fields of a SEQUENCE, one behind the other (X.690, 8.9).
ghost use Rattle.bcder.specs.calls.Views.{Moved};
ghost use Rattle.asn1.specs.Types.{TookFields};
ghost use Rattle.asn1.specs.Tuples.{SeenAs, first_of_3, first_of_4, grouped_5, grouped_6};
ghost use Rattle.asn1.specs.Tuples.{grouped_7, grouped_8, grouped_9, grouped_10, grouped_11};
ghost use Rattle.asn1.specs.Tuples.{grouped_12};

use crate::{DecodeFields, Fields, Part, Trace};
use bcder::decode::{Constructed, DecodeError, Source};
use std::alloc::Global;

/// Three fields.
impl<A: Fields, B: Fields, C: Fields> Fields for (A, B, C) {
    ghost Keys = { ⟦<(A, (B, C)) as Fields>⟧.Keys };

    ghost keys = { λ x. ⟦<(A, (B, C)) as Fields>⟧.keys (first_of_3 x) };

    ghost takes = { SeenAs first_of_3 ⟦<(A, (B, C)) as Fields>⟧.takes };

    ghost keep_all = { ⟦<(A, (B, C)) as Fields>⟧.keep_all };

    ghost count = { ⟦<(A, (B, C)) as Fields>⟧.count };

    fn count() -> usize {
        <(A, (B, C))>::count()
    }

    fn fields_are_one() {
        <(A, (B, C))>::fields_are_one();
    }
}

impl<S: Source, A: DecodeFields<S>, B: DecodeFields<S>, C: DecodeFields<S>> DecodeFields<S>
    for (A, B, C) {
    ghost may_lack = { ⟦<(A, (B, C)) as DecodeFields<S>>⟧.may_lack };

    #[inline(always)]
    fn trace_fields<P: Trace>(
        alloc: Global,
        cons: &mut Constructed<'_, S>,
        path: &mut P,
    ) -> Result<(A, B, C), DecodeError<S::Error>> {
        let a = match A::trace_fields(alloc, cons, path) {
            Ok(a) => a,
            Err(error) => return Err(error),
        };
        let b = match B::trace_fields(alloc, cons, path) {
            Ok(b) => b,
            Err(error) => {
                path.note(Part::Behind(A::count()));
                return Err(error);
            }
        };
        match C::trace_fields(alloc, cons, path) {
            Ok(c) => Ok((a, b, c)),
            Err(error) => {
                path.note(Part::Behind(B::count()));
                path.note(Part::Behind(A::count()));
                Err(error)
            }
        }
    }
}

/// Four fields.
impl<A: Fields, B: Fields, C: Fields, D: Fields> Fields for (A, B, C, D) {
    ghost Keys = { ⟦<(A, (B, C, D)) as Fields>⟧.Keys };

    ghost keys = { λ x. ⟦<(A, (B, C, D)) as Fields>⟧.keys (first_of_4 x) };

    ghost takes = { SeenAs first_of_4 ⟦<(A, (B, C, D)) as Fields>⟧.takes };

    ghost keep_all = { ⟦<(A, (B, C, D)) as Fields>⟧.keep_all };

    ghost count = { ⟦<(A, (B, C, D)) as Fields>⟧.count };

    fn count() -> usize {
        <(A, (B, C, D))>::count()
    }

    fn fields_are_one() {
        <(A, (B, C, D))>::fields_are_one();
    }
}

impl<
    S: Source,
    A: DecodeFields<S>,
    B: DecodeFields<S>,
    C: DecodeFields<S>,
    D: DecodeFields<S>,
> DecodeFields<S> for (A, B, C, D) {
    ghost may_lack = { ⟦<(A, (B, C, D)) as DecodeFields<S>>⟧.may_lack };

    #[inline(always)]
    fn trace_fields<P: Trace>(
        alloc: Global,
        cons: &mut Constructed<'_, S>,
        path: &mut P,
    ) -> Result<(A, B, C, D), DecodeError<S::Error>> {
        let a = match A::trace_fields(alloc, cons, path) {
            Ok(a) => a,
            Err(error) => return Err(error),
        };
        let b = match B::trace_fields(alloc, cons, path) {
            Ok(b) => b,
            Err(error) => {
                path.note(Part::Behind(A::count()));
                return Err(error);
            }
        };
        let c = match C::trace_fields(alloc, cons, path) {
            Ok(c) => c,
            Err(error) => {
                path.note(Part::Behind(B::count()));
                path.note(Part::Behind(A::count()));
                return Err(error);
            }
        };
        match D::trace_fields(alloc, cons, path) {
            Ok(d) => Ok((a, b, c, d)),
            Err(error) => {
                path.note(Part::Behind(C::count()));
                path.note(Part::Behind(B::count()));
                path.note(Part::Behind(A::count()));
                Err(error)
            }
        }
    }
}

/// Five fields.
impl<A: Fields, B: Fields, C: Fields, D: Fields, E: Fields> Fields for (A, B, C, D, E) {
    ghost Keys = { ⟦<((A, B, C, D), E) as Fields>⟧.Keys };

    ghost keys = { λ x. ⟦<((A, B, C, D), E) as Fields>⟧.keys (grouped_5 x) };

    ghost takes = { SeenAs grouped_5 ⟦<((A, B, C, D), E) as Fields>⟧.takes };

    ghost keep_all = { ⟦<((A, B, C, D), E) as Fields>⟧.keep_all };

    ghost count = { ⟦<((A, B, C, D), E) as Fields>⟧.count };

    fn count() -> usize {
        <((A, B, C, D), E)>::count()
    }

    fn fields_are_one() {
        <((A, B, C, D), E)>::fields_are_one();
    }
}

impl<
    S: Source,
    A: DecodeFields<S>,
    B: DecodeFields<S>,
    C: DecodeFields<S>,
    D: DecodeFields<S>,
    E: DecodeFields<S>,
> DecodeFields<S> for (A, B, C, D, E) {
    ghost may_lack = { ⟦<((A, B, C, D), E) as DecodeFields<S>>⟧.may_lack };

    #[inline(always)]
    fn trace_fields<P: Trace>(
        alloc: Global,
        cons: &mut Constructed<'_, S>,
        path: &mut P,
    ) -> Result<(A, B, C, D, E), DecodeError<S::Error>> {
        match <((A, B, C, D), E)>::trace_fields(alloc, cons, path) {
            Ok(fields) => {
                let ((a, b, c, d), e) = fields;
                Ok((a, b, c, d, e))
            }
            Err(error) => Err(error),
        }
    }
}

/// Six fields.
impl<A: Fields, B: Fields, C: Fields, D: Fields, E: Fields, F: Fields> Fields
    for (A, B, C, D, E, F) {
    ghost Keys = { ⟦<((A, B, C, D), (E, F)) as Fields>⟧.Keys };

    ghost keys = { λ x. ⟦<((A, B, C, D), (E, F)) as Fields>⟧.keys (grouped_6 x) };

    ghost takes = { SeenAs grouped_6 ⟦<((A, B, C, D), (E, F)) as Fields>⟧.takes };

    ghost keep_all = { ⟦<((A, B, C, D), (E, F)) as Fields>⟧.keep_all };

    ghost count = { ⟦<((A, B, C, D), (E, F)) as Fields>⟧.count };

    fn count() -> usize {
        <((A, B, C, D), (E, F))>::count()
    }

    fn fields_are_one() {
        <((A, B, C, D), (E, F))>::fields_are_one();
    }
}

impl<
    S: Source,
    A: DecodeFields<S>,
    B: DecodeFields<S>,
    C: DecodeFields<S>,
    D: DecodeFields<S>,
    E: DecodeFields<S>,
    F: DecodeFields<S>,
> DecodeFields<S> for (A, B, C, D, E, F) {
    ghost may_lack = { ⟦<((A, B, C, D), (E, F)) as DecodeFields<S>>⟧.may_lack };

    #[inline(always)]
    fn trace_fields<P: Trace>(
        alloc: Global,
        cons: &mut Constructed<'_, S>,
        path: &mut P,
    ) -> Result<(A, B, C, D, E, F), DecodeError<S::Error>> {
        match <((A, B, C, D), (E, F))>::trace_fields(alloc, cons, path) {
            Ok(fields) => {
                let ((a, b, c, d), (e, f)) = fields;
                Ok((a, b, c, d, e, f))
            }
            Err(error) => Err(error),
        }
    }
}

/// Seven fields.
impl<A: Fields, B: Fields, C: Fields, D: Fields, E: Fields, F: Fields, G: Fields> Fields
    for (A, B, C, D, E, F, G) {
    ghost Keys = { ⟦<((A, B, C, D), (E, F, G)) as Fields>⟧.Keys };

    ghost keys = { λ x. ⟦<((A, B, C, D), (E, F, G)) as Fields>⟧.keys (grouped_7 x) };

    ghost takes = { SeenAs grouped_7 ⟦<((A, B, C, D), (E, F, G)) as Fields>⟧.takes };

    ghost keep_all = { ⟦<((A, B, C, D), (E, F, G)) as Fields>⟧.keep_all };

    ghost count = { ⟦<((A, B, C, D), (E, F, G)) as Fields>⟧.count };

    fn count() -> usize {
        <((A, B, C, D), (E, F, G))>::count()
    }

    fn fields_are_one() {
        <((A, B, C, D), (E, F, G))>::fields_are_one();
    }
}

impl<
    S: Source,
    A: DecodeFields<S>,
    B: DecodeFields<S>,
    C: DecodeFields<S>,
    D: DecodeFields<S>,
    E: DecodeFields<S>,
    F: DecodeFields<S>,
    G: DecodeFields<S>,
> DecodeFields<S> for (A, B, C, D, E, F, G) {
    ghost may_lack = { ⟦<((A, B, C, D), (E, F, G)) as DecodeFields<S>>⟧.may_lack };

    #[inline(always)]
    fn trace_fields<P: Trace>(
        alloc: Global,
        cons: &mut Constructed<'_, S>,
        path: &mut P,
    ) -> Result<(A, B, C, D, E, F, G), DecodeError<S::Error>> {
        match <((A, B, C, D), (E, F, G))>::trace_fields(alloc, cons, path) {
            Ok(fields) => {
                let ((a, b, c, d), (e, f, g)) = fields;
                Ok((a, b, c, d, e, f, g))
            }
            Err(error) => Err(error),
        }
    }
}

/// Eight fields.
impl<A: Fields, B: Fields, C: Fields, D: Fields, E: Fields, F: Fields, G: Fields, H: Fields> Fields
    for (A, B, C, D, E, F, G, H) {
    ghost Keys = { ⟦<((A, B, C, D), (E, F, G, H)) as Fields>⟧.Keys };

    ghost keys = { λ x. ⟦<((A, B, C, D), (E, F, G, H)) as Fields>⟧.keys (grouped_8 x) };

    ghost takes = { SeenAs grouped_8 ⟦<((A, B, C, D), (E, F, G, H)) as Fields>⟧.takes };

    ghost keep_all = { ⟦<((A, B, C, D), (E, F, G, H)) as Fields>⟧.keep_all };

    ghost count = { ⟦<((A, B, C, D), (E, F, G, H)) as Fields>⟧.count };

    fn count() -> usize {
        <((A, B, C, D), (E, F, G, H))>::count()
    }

    fn fields_are_one() {
        <((A, B, C, D), (E, F, G, H))>::fields_are_one();
    }
}

impl<
    S: Source,
    A: DecodeFields<S>,
    B: DecodeFields<S>,
    C: DecodeFields<S>,
    D: DecodeFields<S>,
    E: DecodeFields<S>,
    F: DecodeFields<S>,
    G: DecodeFields<S>,
    H: DecodeFields<S>,
> DecodeFields<S> for (A, B, C, D, E, F, G, H) {
    ghost may_lack = { ⟦<((A, B, C, D), (E, F, G, H)) as DecodeFields<S>>⟧.may_lack };

    #[inline(always)]
    fn trace_fields<P: Trace>(
        alloc: Global,
        cons: &mut Constructed<'_, S>,
        path: &mut P,
    ) -> Result<(A, B, C, D, E, F, G, H), DecodeError<S::Error>> {
        match <((A, B, C, D), (E, F, G, H))>::trace_fields(alloc, cons, path) {
            Ok(fields) => {
                let ((a, b, c, d), (e, f, g, h)) = fields;
                Ok((a, b, c, d, e, f, g, h))
            }
            Err(error) => Err(error),
        }
    }
}

/// Nine fields.
impl<
    A: Fields,
    B: Fields,
    C: Fields,
    D: Fields,
    E: Fields,
    F: Fields,
    G: Fields,
    H: Fields,
    I: Fields,
> Fields for (A, B, C, D, E, F, G, H, I) {
    ghost Keys = { ⟦<((A, B, C, D), (E, F, G, H, I)) as Fields>⟧.Keys };

    ghost keys = { λ x. ⟦<((A, B, C, D), (E, F, G, H, I)) as Fields>⟧.keys (grouped_9 x) };

    ghost takes = { SeenAs grouped_9 ⟦<((A, B, C, D), (E, F, G, H, I)) as Fields>⟧.takes };

    ghost keep_all = { ⟦<((A, B, C, D), (E, F, G, H, I)) as Fields>⟧.keep_all };

    ghost count = { ⟦<((A, B, C, D), (E, F, G, H, I)) as Fields>⟧.count };

    fn count() -> usize {
        <((A, B, C, D), (E, F, G, H, I))>::count()
    }

    fn fields_are_one() {
        <((A, B, C, D), (E, F, G, H, I))>::fields_are_one();
    }
}

impl<
    S: Source,
    A: DecodeFields<S>,
    B: DecodeFields<S>,
    C: DecodeFields<S>,
    D: DecodeFields<S>,
    E: DecodeFields<S>,
    F: DecodeFields<S>,
    G: DecodeFields<S>,
    H: DecodeFields<S>,
    I: DecodeFields<S>,
> DecodeFields<S> for (A, B, C, D, E, F, G, H, I) {
    ghost may_lack = { ⟦<((A, B, C, D), (E, F, G, H, I)) as DecodeFields<S>>⟧.may_lack };

    #[inline(always)]
    fn trace_fields<P: Trace>(
        alloc: Global,
        cons: &mut Constructed<'_, S>,
        path: &mut P,
    ) -> Result<(A, B, C, D, E, F, G, H, I), DecodeError<S::Error>> {
        match <((A, B, C, D), (E, F, G, H, I))>::trace_fields(alloc, cons, path) {
            Ok(fields) => {
                let ((a, b, c, d), (e, f, g, h, i)) = fields;
                Ok((a, b, c, d, e, f, g, h, i))
            }
            Err(error) => Err(error),
        }
    }
}

/// Ten fields.
impl<
    A: Fields,
    B: Fields,
    C: Fields,
    D: Fields,
    E: Fields,
    F: Fields,
    G: Fields,
    H: Fields,
    I: Fields,
    J: Fields,
> Fields for (A, B, C, D, E, F, G, H, I, J) {
    ghost Keys = { ⟦<((A, B, C, D), (E, F, G, H, I, J)) as Fields>⟧.Keys };

    ghost keys = { λ x. ⟦<((A, B, C, D), (E, F, G, H, I, J)) as Fields>⟧.keys (grouped_10 x) };

    ghost takes = { SeenAs grouped_10 ⟦<((A, B, C, D), (E, F, G, H, I, J)) as Fields>⟧.takes };

    ghost keep_all = { ⟦<((A, B, C, D), (E, F, G, H, I, J)) as Fields>⟧.keep_all };

    ghost count = { ⟦<((A, B, C, D), (E, F, G, H, I, J)) as Fields>⟧.count };

    fn count() -> usize {
        <((A, B, C, D), (E, F, G, H, I, J))>::count()
    }

    fn fields_are_one() {
        <((A, B, C, D), (E, F, G, H, I, J))>::fields_are_one();
    }
}

impl<
    S: Source,
    A: DecodeFields<S>,
    B: DecodeFields<S>,
    C: DecodeFields<S>,
    D: DecodeFields<S>,
    E: DecodeFields<S>,
    F: DecodeFields<S>,
    G: DecodeFields<S>,
    H: DecodeFields<S>,
    I: DecodeFields<S>,
    J: DecodeFields<S>,
> DecodeFields<S> for (A, B, C, D, E, F, G, H, I, J) {
    ghost may_lack = { ⟦<((A, B, C, D), (E, F, G, H, I, J)) as DecodeFields<S>>⟧.may_lack };

    #[inline(always)]
    fn trace_fields<P: Trace>(
        alloc: Global,
        cons: &mut Constructed<'_, S>,
        path: &mut P,
    ) -> Result<(A, B, C, D, E, F, G, H, I, J), DecodeError<S::Error>> {
        match <((A, B, C, D), (E, F, G, H, I, J))>::trace_fields(alloc, cons, path) {
            Ok(fields) => {
                let ((a, b, c, d), (e, f, g, h, i, j)) = fields;
                Ok((a, b, c, d, e, f, g, h, i, j))
            }
            Err(error) => Err(error),
        }
    }
}

/// Eleven fields.
impl<
    A: Fields,
    B: Fields,
    C: Fields,
    D: Fields,
    E: Fields,
    F: Fields,
    G: Fields,
    H: Fields,
    I: Fields,
    J: Fields,
    K: Fields,
> Fields for (A, B, C, D, E, F, G, H, I, J, K) {
    ghost Keys = { ⟦<((A, B, C, D), (E, F, G, H, I, J, K)) as Fields>⟧.Keys };

    ghost keys = { λ x. ⟦<((A, B, C, D), (E, F, G, H, I, J, K)) as Fields>⟧.keys (grouped_11 x) };

    ghost takes = { SeenAs grouped_11 ⟦<((A, B, C, D), (E, F, G, H, I, J, K)) as Fields>⟧.takes };

    ghost keep_all = { ⟦<((A, B, C, D), (E, F, G, H, I, J, K)) as Fields>⟧.keep_all };

    ghost count = { ⟦<((A, B, C, D), (E, F, G, H, I, J, K)) as Fields>⟧.count };

    fn count() -> usize {
        <((A, B, C, D), (E, F, G, H, I, J, K))>::count()
    }

    fn fields_are_one() {
        <((A, B, C, D), (E, F, G, H, I, J, K))>::fields_are_one();
    }
}

impl<
    S: Source,
    A: DecodeFields<S>,
    B: DecodeFields<S>,
    C: DecodeFields<S>,
    D: DecodeFields<S>,
    E: DecodeFields<S>,
    F: DecodeFields<S>,
    G: DecodeFields<S>,
    H: DecodeFields<S>,
    I: DecodeFields<S>,
    J: DecodeFields<S>,
    K: DecodeFields<S>,
> DecodeFields<S> for (A, B, C, D, E, F, G, H, I, J, K) {
    ghost may_lack = { ⟦<((A, B, C, D), (E, F, G, H, I, J, K)) as DecodeFields<S>>⟧.may_lack };

    #[inline(always)]
    fn trace_fields<P: Trace>(
        alloc: Global,
        cons: &mut Constructed<'_, S>,
        path: &mut P,
    ) -> Result<(A, B, C, D, E, F, G, H, I, J, K), DecodeError<S::Error>> {
        match <((A, B, C, D), (E, F, G, H, I, J, K))>::trace_fields(alloc, cons, path) {
            Ok(fields) => {
                let ((a, b, c, d), (e, f, g, h, i, j, k)) = fields;
                Ok((a, b, c, d, e, f, g, h, i, j, k))
            }
            Err(error) => Err(error),
        }
    }
}

/// Twelve fields.
impl<
    A: Fields,
    B: Fields,
    C: Fields,
    D: Fields,
    E: Fields,
    F: Fields,
    G: Fields,
    H: Fields,
    I: Fields,
    J: Fields,
    K: Fields,
    L: Fields,
> Fields for (A, B, C, D, E, F, G, H, I, J, K, L) {
    ghost Keys = { ⟦<((A, B, C, D), (E, F, G, H, I, J, K, L)) as Fields>⟧.Keys };

    ghost keys = { λ x.
        ⟦<((A, B, C, D), (E, F, G, H, I, J, K, L)) as Fields>⟧.keys (grouped_12 x) };

    ghost takes = { SeenAs grouped_12
        ⟦<((A, B, C, D), (E, F, G, H, I, J, K, L)) as Fields>⟧.takes };

    ghost keep_all = { ⟦<((A, B, C, D), (E, F, G, H, I, J, K, L)) as Fields>⟧.keep_all };

    ghost count = { ⟦<((A, B, C, D), (E, F, G, H, I, J, K, L)) as Fields>⟧.count };

    fn count() -> usize {
        <((A, B, C, D), (E, F, G, H, I, J, K, L))>::count()
    }

    fn fields_are_one() {
        <((A, B, C, D), (E, F, G, H, I, J, K, L))>::fields_are_one();
    }
}

impl<
    S: Source,
    A: DecodeFields<S>,
    B: DecodeFields<S>,
    C: DecodeFields<S>,
    D: DecodeFields<S>,
    E: DecodeFields<S>,
    F: DecodeFields<S>,
    G: DecodeFields<S>,
    H: DecodeFields<S>,
    I: DecodeFields<S>,
    J: DecodeFields<S>,
    K: DecodeFields<S>,
    L: DecodeFields<S>,
> DecodeFields<S> for (A, B, C, D, E, F, G, H, I, J, K, L) {
    ghost may_lack = { ⟦<((A, B, C, D), (E, F, G, H, I, J, K, L)) as DecodeFields<S>>⟧.may_lack };

    #[inline(always)]
    fn trace_fields<P: Trace>(
        alloc: Global,
        cons: &mut Constructed<'_, S>,
        path: &mut P,
    ) -> Result<(A, B, C, D, E, F, G, H, I, J, K, L), DecodeError<S::Error>> {
        match <((A, B, C, D), (E, F, G, H, I, J, K, L))>::trace_fields(alloc, cons, path) {
            Ok(fields) => {
                let ((a, b, c, d), (e, f, g, h, i, j, k, l)) = fields;
                Ok((a, b, c, d, e, f, g, h, i, j, k, l))
            }
            Err(error) => Err(error),
        }
    }
}
