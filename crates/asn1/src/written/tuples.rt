//! Three to twelve fields of a SEQUENCE, written one behind the other (X.690, 8.9).
ghost use Rattle.asn1.specs.Tuples.{first_of_3, first_of_4, grouped_5, grouped_6, grouped_7};
ghost use Rattle.asn1.specs.Tuples.{grouped_8, grouped_9, grouped_10, grouped_11, grouped_12};
ghost use Rattle.std.specs.Prelude.{◌⊎◌};
ghost use Rattle.bcder.specs.calls.Meaning.{Then, NoValues, Joined};
ghost use Rattle.bcder.specs.laws.Joined.{Then_lawful, NoValues_lawful, Joined_lawful};

use crate::writers::{ByRef, EncodeFields};
use bcder::Mode;
use bcder::encode::{EncodeError, Values, WriteError};
use std::io;

/// The encoders of fields, one behind the other.
macro_rules! row {
    ($($field:ident),+) => { ($(ByRef($field)),+) };
}

/// Three fields.
impl<A: EncodeFields, B: EncodeFields, C: EncodeFields> EncodeFields for (A, B, C) {
    ghost lays = { λ x mode. Joined (Then (A.lays x.0 mode) (Then (B.lays x.1 mode)
        (Then (C.lays x.2 mode) NoValues))) };

    ghost may_lack = { λ x mode. A.may_lack x.0 mode ⊎ (B.may_lack x.1 mode ⊎
        (C.may_lack x.2 mode ⊎ ⊥)) };

    ghost is_clear = { λ x mode. ⟦<(A, (B, C)) as EncodeFields>⟧.is_clear (first_of_3 x) mode };

    ghost may_precede = { λ x mode us.
        ⟦<(A, (B, C)) as EncodeFields>⟧.may_precede (first_of_3 x) mode us };

    fn len_fields(&self, mode: Mode) -> Result<usize, EncodeError> {
        let (a, b, c) = self;
        row!(a, b, c).encoded_len(mode)
    }

    fn write_fields<W: io::Write>(&self, mode: Mode, target: &mut W) -> Result<(), WriteError> {
        let (a, b, c) = self;
        row!(a, b, c).write_encoded(mode, target)
    }

    fn are_read_back(mode: Mode) {
        <(A, (B, C))>::are_read_back(mode);
    }

    ghost lawful = { λ x mode. Joined_lawful (Then_lawful (A.lawful x.0 mode)
        (Then_lawful (B.lawful x.1 mode) (Then_lawful (C.lawful x.2 mode)
        (NoValues_lawful mode)))) };
}

/// Four fields.
impl<A: EncodeFields, B: EncodeFields, C: EncodeFields, D: EncodeFields> EncodeFields
    for (A, B, C, D) {
    ghost lays = { λ x mode. Joined (Then (A.lays x.0 mode) (Then (B.lays x.1 mode)
        (Then (C.lays x.2 mode) (Then (D.lays x.3 mode) NoValues)))) };

    ghost may_lack = { λ x mode. A.may_lack x.0 mode ⊎ (B.may_lack x.1 mode ⊎
        (C.may_lack x.2 mode ⊎ (D.may_lack x.3 mode ⊎ ⊥))) };

    ghost is_clear = { λ x mode. ⟦<(A, (B, C, D)) as EncodeFields>⟧.is_clear (first_of_4 x) mode };

    ghost may_precede = { λ x mode us.
        ⟦<(A, (B, C, D)) as EncodeFields>⟧.may_precede (first_of_4 x) mode us };

    fn len_fields(&self, mode: Mode) -> Result<usize, EncodeError> {
        let (a, b, c, d) = self;
        row!(a, b, c, d).encoded_len(mode)
    }

    fn write_fields<W: io::Write>(&self, mode: Mode, target: &mut W) -> Result<(), WriteError> {
        let (a, b, c, d) = self;
        row!(a, b, c, d).write_encoded(mode, target)
    }

    fn are_read_back(mode: Mode) {
        <(A, (B, C, D))>::are_read_back(mode);
    }

    ghost lawful = { λ x mode. Joined_lawful (Then_lawful (A.lawful x.0 mode)
        (Then_lawful (B.lawful x.1 mode) (Then_lawful (C.lawful x.2 mode)
        (Then_lawful (D.lawful x.3 mode) (NoValues_lawful mode))))) };
}

/// Five fields.
impl<
    A: EncodeFields,
    B: EncodeFields,
    C: EncodeFields,
    D: EncodeFields,
    E: EncodeFields,
> EncodeFields for (A, B, C, D, E) {
    ghost lays = { λ x mode. ⟦<((A, B, C, D), E) as EncodeFields>⟧.lays (grouped_5 x) mode };

    ghost may_lack = { λ x mode.
        ⟦<((A, B, C, D), E) as EncodeFields>⟧.may_lack (grouped_5 x) mode };

    ghost is_clear = { λ x mode.
        ⟦<((A, B, C, D), E) as EncodeFields>⟧.is_clear (grouped_5 x) mode };

    ghost may_precede = { λ x mode us.
        ⟦<((A, B, C, D), E) as EncodeFields>⟧.may_precede (grouped_5 x) mode us };

    fn len_fields(&self, mode: Mode) -> Result<usize, EncodeError> {
        let (a, b, c, d, e) = self;
        (row!(a, b, c, d), row!(e)).encoded_len(mode)
    }

    fn write_fields<W: io::Write>(&self, mode: Mode, target: &mut W) -> Result<(), WriteError> {
        let (a, b, c, d, e) = self;
        (row!(a, b, c, d), row!(e)).write_encoded(mode, target)
    }

    fn are_read_back(mode: Mode) {
        <((A, B, C, D), E)>::are_read_back(mode);
    }

    ghost lawful = { λ x mode.
        Joined_lawful (Then_lawful (Joined_lawful (Then_lawful (A.lawful x.0 mode)
        (Then_lawful (B.lawful x.1 mode) (Then_lawful (C.lawful x.2 mode)
        (Then_lawful (D.lawful x.3 mode) (NoValues_lawful mode))))))
        (Then_lawful (E.lawful x.4 mode) (NoValues_lawful mode))) };
}

/// Six fields.
impl<
    A: EncodeFields,
    B: EncodeFields,
    C: EncodeFields,
    D: EncodeFields,
    E: EncodeFields,
    F: EncodeFields,
> EncodeFields for (A, B, C, D, E, F) {
    ghost lays = { λ x mode. ⟦<((A, B, C, D), (E, F)) as EncodeFields>⟧.lays (grouped_6 x) mode };

    ghost may_lack = { λ x mode.
        ⟦<((A, B, C, D), (E, F)) as EncodeFields>⟧.may_lack (grouped_6 x) mode };

    ghost is_clear = { λ x mode.
        ⟦<((A, B, C, D), (E, F)) as EncodeFields>⟧.is_clear (grouped_6 x) mode };

    ghost may_precede = { λ x mode us.
        ⟦<((A, B, C, D), (E, F)) as EncodeFields>⟧.may_precede (grouped_6 x) mode us };

    fn len_fields(&self, mode: Mode) -> Result<usize, EncodeError> {
        let (a, b, c, d, e, f) = self;
        (row!(a, b, c, d), row!(e, f)).encoded_len(mode)
    }

    fn write_fields<W: io::Write>(&self, mode: Mode, target: &mut W) -> Result<(), WriteError> {
        let (a, b, c, d, e, f) = self;
        (row!(a, b, c, d), row!(e, f)).write_encoded(mode, target)
    }

    fn are_read_back(mode: Mode) {
        <((A, B, C, D), (E, F))>::are_read_back(mode);
    }

    ghost lawful = { λ x mode.
        Joined_lawful (Then_lawful (Joined_lawful (Then_lawful (A.lawful x.0 mode)
        (Then_lawful (B.lawful x.1 mode) (Then_lawful (C.lawful x.2 mode)
        (Then_lawful (D.lawful x.3 mode) (NoValues_lawful mode))))))
        (Then_lawful (Joined_lawful (Then_lawful (E.lawful x.4 mode)
        (Then_lawful (F.lawful x.5 mode) (NoValues_lawful mode)))) (NoValues_lawful mode))) };
}

/// Seven fields.
impl<
    A: EncodeFields,
    B: EncodeFields,
    C: EncodeFields,
    D: EncodeFields,
    E: EncodeFields,
    F: EncodeFields,
    G: EncodeFields,
> EncodeFields for (A, B, C, D, E, F, G) {
    ghost lays = { λ x mode.
        ⟦<((A, B, C, D), (E, F, G)) as EncodeFields>⟧.lays (grouped_7 x) mode };

    ghost may_lack = { λ x mode.
        ⟦<((A, B, C, D), (E, F, G)) as EncodeFields>⟧.may_lack (grouped_7 x) mode };

    ghost is_clear = { λ x mode.
        ⟦<((A, B, C, D), (E, F, G)) as EncodeFields>⟧.is_clear (grouped_7 x) mode };

    ghost may_precede = { λ x mode us.
        ⟦<((A, B, C, D), (E, F, G)) as EncodeFields>⟧.may_precede (grouped_7 x) mode us };

    fn len_fields(&self, mode: Mode) -> Result<usize, EncodeError> {
        let (a, b, c, d, e, f, g) = self;
        (row!(a, b, c, d), row!(e, f, g)).encoded_len(mode)
    }

    fn write_fields<W: io::Write>(&self, mode: Mode, target: &mut W) -> Result<(), WriteError> {
        let (a, b, c, d, e, f, g) = self;
        (row!(a, b, c, d), row!(e, f, g)).write_encoded(mode, target)
    }

    fn are_read_back(mode: Mode) {
        <((A, B, C, D), (E, F, G))>::are_read_back(mode);
    }

    ghost lawful = { λ x mode.
        Joined_lawful (Then_lawful (Joined_lawful (Then_lawful (A.lawful x.0 mode)
        (Then_lawful (B.lawful x.1 mode) (Then_lawful (C.lawful x.2 mode)
        (Then_lawful (D.lawful x.3 mode) (NoValues_lawful mode))))))
        (Then_lawful (Joined_lawful (Then_lawful (E.lawful x.4 mode)
        (Then_lawful (F.lawful x.5 mode) (Then_lawful (G.lawful x.6 mode) (NoValues_lawful mode)))))
        (NoValues_lawful mode))) };
}

/// Eight fields.
impl<
    A: EncodeFields,
    B: EncodeFields,
    C: EncodeFields,
    D: EncodeFields,
    E: EncodeFields,
    F: EncodeFields,
    G: EncodeFields,
    H: EncodeFields,
> EncodeFields for (A, B, C, D, E, F, G, H) {
    ghost lays = { λ x mode.
        ⟦<((A, B, C, D), (E, F, G, H)) as EncodeFields>⟧.lays (grouped_8 x) mode };

    ghost may_lack = { λ x mode.
        ⟦<((A, B, C, D), (E, F, G, H)) as EncodeFields>⟧.may_lack (grouped_8 x) mode };

    ghost is_clear = { λ x mode.
        ⟦<((A, B, C, D), (E, F, G, H)) as EncodeFields>⟧.is_clear (grouped_8 x) mode };

    ghost may_precede = { λ x mode us.
        ⟦<((A, B, C, D), (E, F, G, H)) as EncodeFields>⟧.may_precede (grouped_8 x) mode us };

    fn len_fields(&self, mode: Mode) -> Result<usize, EncodeError> {
        let (a, b, c, d, e, f, g, h) = self;
        (row!(a, b, c, d), row!(e, f, g, h)).encoded_len(mode)
    }

    fn write_fields<W: io::Write>(&self, mode: Mode, target: &mut W) -> Result<(), WriteError> {
        let (a, b, c, d, e, f, g, h) = self;
        (row!(a, b, c, d), row!(e, f, g, h)).write_encoded(mode, target)
    }

    fn are_read_back(mode: Mode) {
        <((A, B, C, D), (E, F, G, H))>::are_read_back(mode);
    }

    ghost lawful = { λ x mode.
        Joined_lawful (Then_lawful (Joined_lawful (Then_lawful (A.lawful x.0 mode)
        (Then_lawful (B.lawful x.1 mode) (Then_lawful (C.lawful x.2 mode)
        (Then_lawful (D.lawful x.3 mode) (NoValues_lawful mode))))))
        (Then_lawful (Joined_lawful (Then_lawful (E.lawful x.4 mode)
        (Then_lawful (F.lawful x.5 mode) (Then_lawful (G.lawful x.6 mode)
        (Then_lawful (H.lawful x.7 mode) (NoValues_lawful mode)))))) (NoValues_lawful mode))) };
}

/// Nine fields.
impl<
    A: EncodeFields,
    B: EncodeFields,
    C: EncodeFields,
    D: EncodeFields,
    E: EncodeFields,
    F: EncodeFields,
    G: EncodeFields,
    H: EncodeFields,
    I: EncodeFields,
> EncodeFields for (A, B, C, D, E, F, G, H, I) {
    ghost lays = { λ x mode.
        ⟦<((A, B, C, D), (E, F, G, H, I)) as EncodeFields>⟧.lays (grouped_9 x) mode };

    ghost may_lack = { λ x mode.
        ⟦<((A, B, C, D), (E, F, G, H, I)) as EncodeFields>⟧.may_lack (grouped_9 x) mode };

    ghost is_clear = { λ x mode.
        ⟦<((A, B, C, D), (E, F, G, H, I)) as EncodeFields>⟧.is_clear (grouped_9 x) mode };

    ghost may_precede = { λ x mode us.
        ⟦<((A, B, C, D), (E, F, G, H, I)) as EncodeFields>⟧.may_precede (grouped_9 x) mode us };

    fn len_fields(&self, mode: Mode) -> Result<usize, EncodeError> {
        let (a, b, c, d, e, f, g, h, i) = self;
        (row!(a, b, c, d), (row!(e, f, g, h), row!(i))).encoded_len(mode)
    }

    fn write_fields<W: io::Write>(&self, mode: Mode, target: &mut W) -> Result<(), WriteError> {
        let (a, b, c, d, e, f, g, h, i) = self;
        (row!(a, b, c, d), (row!(e, f, g, h), row!(i))).write_encoded(mode, target)
    }

    fn are_read_back(mode: Mode) {
        <((A, B, C, D), (E, F, G, H, I))>::are_read_back(mode);
    }

    ghost lawful = { λ x mode.
        Joined_lawful (Then_lawful (Joined_lawful (Then_lawful (A.lawful x.0 mode)
        (Then_lawful (B.lawful x.1 mode) (Then_lawful (C.lawful x.2 mode)
        (Then_lawful (D.lawful x.3 mode) (NoValues_lawful mode))))))
        (Then_lawful (Joined_lawful (Then_lawful (Joined_lawful (Then_lawful (E.lawful x.4 mode)
        (Then_lawful (F.lawful x.5 mode) (Then_lawful (G.lawful x.6 mode)
        (Then_lawful (H.lawful x.7 mode) (NoValues_lawful mode))))))
        (Then_lawful (I.lawful x.8 mode) (NoValues_lawful mode)))) (NoValues_lawful mode))) };
}

/// Ten fields.
impl<
    A: EncodeFields,
    B: EncodeFields,
    C: EncodeFields,
    D: EncodeFields,
    E: EncodeFields,
    F: EncodeFields,
    G: EncodeFields,
    H: EncodeFields,
    I: EncodeFields,
    J: EncodeFields,
> EncodeFields for (A, B, C, D, E, F, G, H, I, J) {
    ghost lays = { λ x mode.
        ⟦<((A, B, C, D), (E, F, G, H, I, J)) as EncodeFields>⟧.lays (grouped_10 x) mode };

    ghost may_lack = { λ x mode.
        ⟦<((A, B, C, D), (E, F, G, H, I, J)) as EncodeFields>⟧.may_lack (grouped_10 x) mode };

    ghost is_clear = { λ x mode.
        ⟦<((A, B, C, D), (E, F, G, H, I, J)) as EncodeFields>⟧.is_clear (grouped_10 x) mode };

    ghost may_precede = { λ x mode us.
        ⟦<((A, B, C, D), (E, F, G, H, I, J)) as EncodeFields>⟧.may_precede (grouped_10 x) mode us };

    fn len_fields(&self, mode: Mode) -> Result<usize, EncodeError> {
        let (a, b, c, d, e, f, g, h, i, j) = self;
        (row!(a, b, c, d), (row!(e, f, g, h), row!(i, j))).encoded_len(mode)
    }

    fn write_fields<W: io::Write>(&self, mode: Mode, target: &mut W) -> Result<(), WriteError> {
        let (a, b, c, d, e, f, g, h, i, j) = self;
        (row!(a, b, c, d), (row!(e, f, g, h), row!(i, j))).write_encoded(mode, target)
    }

    fn are_read_back(mode: Mode) {
        <((A, B, C, D), (E, F, G, H, I, J))>::are_read_back(mode);
    }

    ghost lawful = { λ x mode.
        Joined_lawful (Then_lawful (Joined_lawful (Then_lawful (A.lawful x.0 mode)
        (Then_lawful (B.lawful x.1 mode) (Then_lawful (C.lawful x.2 mode)
        (Then_lawful (D.lawful x.3 mode) (NoValues_lawful mode))))))
        (Then_lawful (Joined_lawful (Then_lawful (Joined_lawful (Then_lawful (E.lawful x.4 mode)
        (Then_lawful (F.lawful x.5 mode) (Then_lawful (G.lawful x.6 mode)
        (Then_lawful (H.lawful x.7 mode) (NoValues_lawful mode))))))
        (Then_lawful (Joined_lawful (Then_lawful (I.lawful x.8 mode)
        (Then_lawful (J.lawful x.9 mode) (NoValues_lawful mode)))) (NoValues_lawful mode))))
        (NoValues_lawful mode))) };
}

/// Eleven fields.
impl<
    A: EncodeFields,
    B: EncodeFields,
    C: EncodeFields,
    D: EncodeFields,
    E: EncodeFields,
    F: EncodeFields,
    G: EncodeFields,
    H: EncodeFields,
    I: EncodeFields,
    J: EncodeFields,
    K: EncodeFields,
> EncodeFields for (A, B, C, D, E, F, G, H, I, J, K) {
    ghost lays = { λ x mode.
        ⟦<((A, B, C, D), (E, F, G, H, I, J, K)) as EncodeFields>⟧.lays (grouped_11 x) mode };

    ghost may_lack = { λ x mode.
        ⟦<((A, B, C, D), (E, F, G, H, I, J, K)) as EncodeFields>⟧.may_lack (grouped_11 x) mode };

    ghost is_clear = { λ x mode.
        ⟦<((A, B, C, D), (E, F, G, H, I, J, K)) as EncodeFields>⟧.is_clear (grouped_11 x) mode };

    ghost may_precede = { λ x mode us.
        ⟦<((A, B, C, D), (E, F, G, H, I, J, K)) as EncodeFields>⟧.may_precede
        (grouped_11 x) mode us };

    fn len_fields(&self, mode: Mode) -> Result<usize, EncodeError> {
        let (a, b, c, d, e, f, g, h, i, j, k) = self;
        (row!(a, b, c, d), (row!(e, f, g, h), row!(i, j, k))).encoded_len(mode)
    }

    fn write_fields<W: io::Write>(&self, mode: Mode, target: &mut W) -> Result<(), WriteError> {
        let (a, b, c, d, e, f, g, h, i, j, k) = self;
        (row!(a, b, c, d), (row!(e, f, g, h), row!(i, j, k))).write_encoded(mode, target)
    }

    fn are_read_back(mode: Mode) {
        <((A, B, C, D), (E, F, G, H, I, J, K))>::are_read_back(mode);
    }

    ghost lawful = { λ x mode.
        Joined_lawful (Then_lawful (Joined_lawful (Then_lawful (A.lawful x.0 mode)
        (Then_lawful (B.lawful x.1 mode) (Then_lawful (C.lawful x.2 mode)
        (Then_lawful (D.lawful x.3 mode) (NoValues_lawful mode))))))
        (Then_lawful (Joined_lawful (Then_lawful (Joined_lawful (Then_lawful (E.lawful x.4 mode)
        (Then_lawful (F.lawful x.5 mode) (Then_lawful (G.lawful x.6 mode)
        (Then_lawful (H.lawful x.7 mode) (NoValues_lawful mode))))))
        (Then_lawful (Joined_lawful (Then_lawful (I.lawful x.8 mode)
        (Then_lawful (J.lawful x.9 mode) (Then_lawful (K.lawful x.10 mode)
        (NoValues_lawful mode))))) (NoValues_lawful mode)))) (NoValues_lawful mode))) };
}

/// Twelve fields.
impl<
    A: EncodeFields,
    B: EncodeFields,
    C: EncodeFields,
    D: EncodeFields,
    E: EncodeFields,
    F: EncodeFields,
    G: EncodeFields,
    H: EncodeFields,
    I: EncodeFields,
    J: EncodeFields,
    K: EncodeFields,
    L: EncodeFields,
> EncodeFields for (A, B, C, D, E, F, G, H, I, J, K, L) {
    ghost lays = { λ x mode.
        ⟦<((A, B, C, D), (E, F, G, H, I, J, K, L)) as EncodeFields>⟧.lays (grouped_12 x) mode };

    ghost may_lack = { λ x mode.
        ⟦<((A, B, C, D), (E, F, G, H, I, J, K, L)) as EncodeFields>⟧.may_lack (grouped_12 x) mode };

    ghost is_clear = { λ x mode.
        ⟦<((A, B, C, D), (E, F, G, H, I, J, K, L)) as EncodeFields>⟧.is_clear (grouped_12 x) mode };

    ghost may_precede = { λ x mode us.
        ⟦<((A, B, C, D), (E, F, G, H, I, J, K, L)) as EncodeFields>⟧.may_precede
        (grouped_12 x) mode us };

    fn len_fields(&self, mode: Mode) -> Result<usize, EncodeError> {
        let (a, b, c, d, e, f, g, h, i, j, k, l) = self;
        (row!(a, b, c, d), (row!(e, f, g, h), row!(i, j, k, l))).encoded_len(mode)
    }

    fn write_fields<W: io::Write>(&self, mode: Mode, target: &mut W) -> Result<(), WriteError> {
        let (a, b, c, d, e, f, g, h, i, j, k, l) = self;
        (row!(a, b, c, d), (row!(e, f, g, h), row!(i, j, k, l))).write_encoded(mode, target)
    }

    fn are_read_back(mode: Mode) {
        <((A, B, C, D), (E, F, G, H, I, J, K, L))>::are_read_back(mode);
    }

    ghost lawful = { λ x mode.
        Joined_lawful (Then_lawful (Joined_lawful (Then_lawful (A.lawful x.0 mode)
        (Then_lawful (B.lawful x.1 mode) (Then_lawful (C.lawful x.2 mode)
        (Then_lawful (D.lawful x.3 mode) (NoValues_lawful mode))))))
        (Then_lawful (Joined_lawful (Then_lawful (Joined_lawful (Then_lawful (E.lawful x.4 mode)
        (Then_lawful (F.lawful x.5 mode) (Then_lawful (G.lawful x.6 mode)
        (Then_lawful (H.lawful x.7 mode) (NoValues_lawful mode))))))
        (Then_lawful (Joined_lawful (Then_lawful (I.lawful x.8 mode)
        (Then_lawful (J.lawful x.9 mode) (Then_lawful (K.lawful x.10 mode)
        (Then_lawful (L.lawful x.11 mode) (NoValues_lawful mode)))))) (NoValues_lawful mode))))
        (NoValues_lawful mode))) };
}
