//! Three to twelve fields of a SEQUENCE, as the first and those behind it.
use crate::clear::ClearFields;
use crate::writers::ByRef;
use bcder::Mode;

/// The fields behind a reference each.
macro_rules! row {
    ($($field:ident),+) => { ($(ByRef($field)),+) };
}

/// Three fields.
impl<A: ClearFields, B: ClearFields, C: ClearFields> ClearFields for (A, B, C) {
    ghost first_tags = { ⟦<(A, (B, C)) as ClearFields>⟧.first_tags };

    ghost may_be_none = { ⟦<(A, (B, C)) as ClearFields>⟧.may_be_none };

    ghost barred_tags = { ⟦<(A, (B, C)) as ClearFields>⟧.barred_tags };

    ghost tag_set = { ⟦<(A, (B, C)) as ClearFields>⟧.tag_set };

    ghost ascend = { ⟦<(A, (B, C)) as ClearFields>⟧.ascend };

    ghost distinct = { ⟦<(A, (B, C)) as ClearFields>⟧.distinct };

    ghost always_clear = { ⟦<(A, (B, C)) as ClearFields>⟧.always_clear };

    fn are_clear_in(&self, mode: Mode) -> bool {
        let (a, b, c) = self;
        (ByRef(a), row!(b, c)).are_clear_in(mode)
    }

    fn are_told_apart(mode: Mode) {
        <(A, (B, C))>::are_told_apart(mode);
    }
}

/// Four fields.
impl<A: ClearFields, B: ClearFields, C: ClearFields, D: ClearFields> ClearFields for (A, B, C, D) {
    ghost first_tags = { ⟦<(A, (B, C, D)) as ClearFields>⟧.first_tags };

    ghost may_be_none = { ⟦<(A, (B, C, D)) as ClearFields>⟧.may_be_none };

    ghost barred_tags = { ⟦<(A, (B, C, D)) as ClearFields>⟧.barred_tags };

    ghost tag_set = { ⟦<(A, (B, C, D)) as ClearFields>⟧.tag_set };

    ghost ascend = { ⟦<(A, (B, C, D)) as ClearFields>⟧.ascend };

    ghost distinct = { ⟦<(A, (B, C, D)) as ClearFields>⟧.distinct };

    ghost always_clear = { ⟦<(A, (B, C, D)) as ClearFields>⟧.always_clear };

    fn are_clear_in(&self, mode: Mode) -> bool {
        let (a, b, c, d) = self;
        (ByRef(a), row!(b, c, d)).are_clear_in(mode)
    }

    fn are_told_apart(mode: Mode) {
        <(A, (B, C, D))>::are_told_apart(mode);
    }
}

/// Five fields.
impl<A: ClearFields, B: ClearFields, C: ClearFields, D: ClearFields, E: ClearFields> ClearFields
    for (A, B, C, D, E) {
    ghost first_tags = { ⟦<((A, B, C, D), E) as ClearFields>⟧.first_tags };

    ghost may_be_none = { ⟦<((A, B, C, D), E) as ClearFields>⟧.may_be_none };

    ghost barred_tags = { ⟦<((A, B, C, D), E) as ClearFields>⟧.barred_tags };

    ghost tag_set = { ⟦<((A, B, C, D), E) as ClearFields>⟧.tag_set };

    ghost ascend = { ⟦<((A, B, C, D), E) as ClearFields>⟧.ascend };

    ghost distinct = { ⟦<((A, B, C, D), E) as ClearFields>⟧.distinct };

    ghost always_clear = { ⟦<((A, B, C, D), E) as ClearFields>⟧.always_clear };

    fn are_clear_in(&self, mode: Mode) -> bool {
        let (a, b, c, d, e) = self;
        (row!(a, b, c, d), row!(e)).are_clear_in(mode)
    }

    fn are_told_apart(mode: Mode) {
        <((A, B, C, D), E)>::are_told_apart(mode);
    }
}

/// Six fields.
impl<
    A: ClearFields,
    B: ClearFields,
    C: ClearFields,
    D: ClearFields,
    E: ClearFields,
    F: ClearFields,
> ClearFields for (A, B, C, D, E, F) {
    ghost first_tags = { ⟦<((A, B, C, D), (E, F)) as ClearFields>⟧.first_tags };

    ghost may_be_none = { ⟦<((A, B, C, D), (E, F)) as ClearFields>⟧.may_be_none };

    ghost barred_tags = { ⟦<((A, B, C, D), (E, F)) as ClearFields>⟧.barred_tags };

    ghost tag_set = { ⟦<((A, B, C, D), (E, F)) as ClearFields>⟧.tag_set };

    ghost ascend = { ⟦<((A, B, C, D), (E, F)) as ClearFields>⟧.ascend };

    ghost distinct = { ⟦<((A, B, C, D), (E, F)) as ClearFields>⟧.distinct };

    ghost always_clear = { ⟦<((A, B, C, D), (E, F)) as ClearFields>⟧.always_clear };

    fn are_clear_in(&self, mode: Mode) -> bool {
        let (a, b, c, d, e, f) = self;
        (row!(a, b, c, d), row!(e, f)).are_clear_in(mode)
    }

    fn are_told_apart(mode: Mode) {
        <((A, B, C, D), (E, F))>::are_told_apart(mode);
    }
}

/// Seven fields.
impl<
    A: ClearFields,
    B: ClearFields,
    C: ClearFields,
    D: ClearFields,
    E: ClearFields,
    F: ClearFields,
    G: ClearFields,
> ClearFields for (A, B, C, D, E, F, G) {
    ghost first_tags = { ⟦<((A, B, C, D), (E, F, G)) as ClearFields>⟧.first_tags };

    ghost may_be_none = { ⟦<((A, B, C, D), (E, F, G)) as ClearFields>⟧.may_be_none };

    ghost barred_tags = { ⟦<((A, B, C, D), (E, F, G)) as ClearFields>⟧.barred_tags };

    ghost tag_set = { ⟦<((A, B, C, D), (E, F, G)) as ClearFields>⟧.tag_set };

    ghost ascend = { ⟦<((A, B, C, D), (E, F, G)) as ClearFields>⟧.ascend };

    ghost distinct = { ⟦<((A, B, C, D), (E, F, G)) as ClearFields>⟧.distinct };

    ghost always_clear = { ⟦<((A, B, C, D), (E, F, G)) as ClearFields>⟧.always_clear };

    fn are_clear_in(&self, mode: Mode) -> bool {
        let (a, b, c, d, e, f, g) = self;
        (row!(a, b, c, d), row!(e, f, g)).are_clear_in(mode)
    }

    fn are_told_apart(mode: Mode) {
        <((A, B, C, D), (E, F, G))>::are_told_apart(mode);
    }
}

/// Eight fields.
impl<
    A: ClearFields,
    B: ClearFields,
    C: ClearFields,
    D: ClearFields,
    E: ClearFields,
    F: ClearFields,
    G: ClearFields,
    H: ClearFields,
> ClearFields for (A, B, C, D, E, F, G, H) {
    ghost first_tags = { ⟦<((A, B, C, D), (E, F, G, H)) as ClearFields>⟧.first_tags };

    ghost may_be_none = { ⟦<((A, B, C, D), (E, F, G, H)) as ClearFields>⟧.may_be_none };

    ghost barred_tags = { ⟦<((A, B, C, D), (E, F, G, H)) as ClearFields>⟧.barred_tags };

    ghost tag_set = { ⟦<((A, B, C, D), (E, F, G, H)) as ClearFields>⟧.tag_set };

    ghost ascend = { ⟦<((A, B, C, D), (E, F, G, H)) as ClearFields>⟧.ascend };

    ghost distinct = { ⟦<((A, B, C, D), (E, F, G, H)) as ClearFields>⟧.distinct };

    ghost always_clear = { ⟦<((A, B, C, D), (E, F, G, H)) as ClearFields>⟧.always_clear };

    fn are_clear_in(&self, mode: Mode) -> bool {
        let (a, b, c, d, e, f, g, h) = self;
        (row!(a, b, c, d), row!(e, f, g, h)).are_clear_in(mode)
    }

    fn are_told_apart(mode: Mode) {
        <((A, B, C, D), (E, F, G, H))>::are_told_apart(mode);
    }
}

/// Nine fields.
impl<
    A: ClearFields,
    B: ClearFields,
    C: ClearFields,
    D: ClearFields,
    E: ClearFields,
    F: ClearFields,
    G: ClearFields,
    H: ClearFields,
    I: ClearFields,
> ClearFields for (A, B, C, D, E, F, G, H, I) {
    ghost first_tags = { ⟦<((A, B, C, D), (E, F, G, H, I)) as ClearFields>⟧.first_tags };

    ghost may_be_none = { ⟦<((A, B, C, D), (E, F, G, H, I)) as ClearFields>⟧.may_be_none };

    ghost barred_tags = { ⟦<((A, B, C, D), (E, F, G, H, I)) as ClearFields>⟧.barred_tags };

    ghost tag_set = { ⟦<((A, B, C, D), (E, F, G, H, I)) as ClearFields>⟧.tag_set };

    ghost ascend = { ⟦<((A, B, C, D), (E, F, G, H, I)) as ClearFields>⟧.ascend };

    ghost distinct = { ⟦<((A, B, C, D), (E, F, G, H, I)) as ClearFields>⟧.distinct };

    ghost always_clear = { ⟦<((A, B, C, D), (E, F, G, H, I)) as ClearFields>⟧.always_clear };

    fn are_clear_in(&self, mode: Mode) -> bool {
        let (a, b, c, d, e, f, g, h, i) = self;
        (row!(a, b, c, d), row!(e, f, g, h, i)).are_clear_in(mode)
    }

    fn are_told_apart(mode: Mode) {
        <((A, B, C, D), (E, F, G, H, I))>::are_told_apart(mode);
    }
}

/// Ten fields.
impl<
    A: ClearFields,
    B: ClearFields,
    C: ClearFields,
    D: ClearFields,
    E: ClearFields,
    F: ClearFields,
    G: ClearFields,
    H: ClearFields,
    I: ClearFields,
    J: ClearFields,
> ClearFields for (A, B, C, D, E, F, G, H, I, J) {
    ghost first_tags = { ⟦<((A, B, C, D), (E, F, G, H, I, J)) as ClearFields>⟧.first_tags };

    ghost may_be_none = { ⟦<((A, B, C, D), (E, F, G, H, I, J)) as ClearFields>⟧.may_be_none };

    ghost barred_tags = { ⟦<((A, B, C, D), (E, F, G, H, I, J)) as ClearFields>⟧.barred_tags };

    ghost tag_set = { ⟦<((A, B, C, D), (E, F, G, H, I, J)) as ClearFields>⟧.tag_set };

    ghost ascend = { ⟦<((A, B, C, D), (E, F, G, H, I, J)) as ClearFields>⟧.ascend };

    ghost distinct = { ⟦<((A, B, C, D), (E, F, G, H, I, J)) as ClearFields>⟧.distinct };

    ghost always_clear = { ⟦<((A, B, C, D), (E, F, G, H, I, J)) as ClearFields>⟧.always_clear };

    fn are_clear_in(&self, mode: Mode) -> bool {
        let (a, b, c, d, e, f, g, h, i, j) = self;
        (row!(a, b, c, d), row!(e, f, g, h, i, j)).are_clear_in(mode)
    }

    fn are_told_apart(mode: Mode) {
        <((A, B, C, D), (E, F, G, H, I, J))>::are_told_apart(mode);
    }
}

/// Eleven fields.
impl<
    A: ClearFields,
    B: ClearFields,
    C: ClearFields,
    D: ClearFields,
    E: ClearFields,
    F: ClearFields,
    G: ClearFields,
    H: ClearFields,
    I: ClearFields,
    J: ClearFields,
    K: ClearFields,
> ClearFields for (A, B, C, D, E, F, G, H, I, J, K) {
    ghost first_tags = { ⟦<((A, B, C, D), (E, F, G, H, I, J, K)) as ClearFields>⟧.first_tags };

    ghost may_be_none = { ⟦<((A, B, C, D), (E, F, G, H, I, J, K)) as ClearFields>⟧.may_be_none };

    ghost barred_tags = { ⟦<((A, B, C, D), (E, F, G, H, I, J, K)) as ClearFields>⟧.barred_tags };

    ghost tag_set = { ⟦<((A, B, C, D), (E, F, G, H, I, J, K)) as ClearFields>⟧.tag_set };

    ghost ascend = { ⟦<((A, B, C, D), (E, F, G, H, I, J, K)) as ClearFields>⟧.ascend };

    ghost distinct = { ⟦<((A, B, C, D), (E, F, G, H, I, J, K)) as ClearFields>⟧.distinct };

    ghost always_clear = { ⟦<((A, B, C, D), (E, F, G, H, I, J, K)) as ClearFields>⟧.always_clear };

    fn are_clear_in(&self, mode: Mode) -> bool {
        let (a, b, c, d, e, f, g, h, i, j, k) = self;
        (row!(a, b, c, d), row!(e, f, g, h, i, j, k)).are_clear_in(mode)
    }

    fn are_told_apart(mode: Mode) {
        <((A, B, C, D), (E, F, G, H, I, J, K))>::are_told_apart(mode);
    }
}

/// Twelve fields.
impl<
    A: ClearFields,
    B: ClearFields,
    C: ClearFields,
    D: ClearFields,
    E: ClearFields,
    F: ClearFields,
    G: ClearFields,
    H: ClearFields,
    I: ClearFields,
    J: ClearFields,
    K: ClearFields,
    L: ClearFields,
> ClearFields for (A, B, C, D, E, F, G, H, I, J, K, L) {
    ghost first_tags = { ⟦<((A, B, C, D), (E, F, G, H, I, J, K, L)) as ClearFields>⟧.first_tags };

    ghost may_be_none = { ⟦<((A, B, C, D), (E, F, G, H, I, J, K, L)) as ClearFields>⟧.may_be_none };

    ghost barred_tags = { ⟦<((A, B, C, D), (E, F, G, H, I, J, K, L)) as ClearFields>⟧.barred_tags };

    ghost tag_set = { ⟦<((A, B, C, D), (E, F, G, H, I, J, K, L)) as ClearFields>⟧.tag_set };

    ghost ascend = { ⟦<((A, B, C, D), (E, F, G, H, I, J, K, L)) as ClearFields>⟧.ascend };

    ghost distinct = { ⟦<((A, B, C, D), (E, F, G, H, I, J, K, L)) as ClearFields>⟧.distinct };

    ghost always_clear = { λ mode.
        ⟦<((A, B, C, D), (E, F, G, H, I, J, K, L)) as ClearFields>⟧.always_clear mode };

    fn are_clear_in(&self, mode: Mode) -> bool {
        let (a, b, c, d, e, f, g, h, i, j, k, l) = self;
        (row!(a, b, c, d), row!(e, f, g, h, i, j, k, l)).are_clear_in(mode)
    }

    fn are_told_apart(mode: Mode) {
        <((A, B, C, D), (E, F, G, H, I, J, K, L))>::are_told_apart(mode);
    }
}
