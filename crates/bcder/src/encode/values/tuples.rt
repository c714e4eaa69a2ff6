//! Tuples of encoders: their values, one after the other.
ghost use Rattle.std.specs.Prelude.{◌⊎◌, ⊤};
ghost use Rattle.bcder.specs.calls.Meaning.{Then, NoValues, Joined};
ghost use Rattle.bcder.specs.calls.Noted.{ReadsNone, ReadsThen};
ghost use Rattle.bcder.specs.laws.Joined.{Then_lawful, NoValues_lawful, Joined_lawful};

use crate::encode::sizes::{Sizes, SizesLeft};
use crate::encode::slot::Failed;
use crate::encode::values::parts::{Chain, End, Four, note_joined, write_known_parts};
use crate::encode::values::{Encoder, Values};
use crate::encode::{EncodeError, WriteError};
use crate::mode::Mode;
use std::io;

/// The parts of a tuple, four at a time.
macro_rules! parts {
    ($a:ident, $b:ident, $c:ident, $d:ident $(, $rest:ident)*) => {
        Four {
            a: $a,
            b: $b,
            c: $c,
            d: $d,
            rest: parts!($($rest),*),
        }
    };
    ($first:ident $(, $rest:ident)*) => {
        Chain {
            first: $first,
            rest: parts!($($rest),*),
        }
    };
    () => { End };
}

impl<A: Values> Encoder for (A,) {
    ghost all = { λ x mode. Joined (Then (A.means x.0 mode) NoValues) };

    ghost lacks = { λ x mode. A.may_lack x.0 mode ⊎ ⊥ };

    ghost takes = { λ x mode. ReadsThen (A.reads x.0 mode) ReadsNone };

    ghost can = { λ x. A.can_encode x.0 × ⊤ };

    #[inline(always)]
    fn measured<Pass>(&self, mode: Mode, sizes: &mut Sizes) -> Result<usize, EncodeError> {
        let (a,) = self;
        note_joined::<Pass, _>(&parts!(a), mode, sizes)
    }

    #[inline(always)]
    fn put<Pass, W: io::Write>(
        &self,
        mode: Mode,
        sizes: &mut SizesLeft<'_>,
        target: &mut W,
        why: &mut WriteError,
    ) -> Result<(), Failed> {
        let (a,) = self;
        write_known_parts::<Pass, _, _>(&parts!(a), mode, sizes, target, why)
    }

    ghost one = { λ x mode can. Joined_lawful (Then_lawful (A.lawful x.0 mode can.0)
        (NoValues_lawful mode)) };
}

impl<A: Values, B: Values> Encoder for (A, B) {
    ghost all = { λ x mode. Joined (Then (A.means x.0 mode) (Then (B.means x.1 mode) NoValues)) };

    ghost lacks = { λ x mode. A.may_lack x.0 mode ⊎ (B.may_lack x.1 mode ⊎ ⊥) };

    ghost takes = { λ x mode. ReadsThen (A.reads x.0 mode) (ReadsThen (B.reads x.1 mode)
        ReadsNone) };

    ghost can = { λ x. A.can_encode x.0 × (B.can_encode x.1 × ⊤) };

    #[inline(always)]
    fn measured<Pass>(&self, mode: Mode, sizes: &mut Sizes) -> Result<usize, EncodeError> {
        let (a, b) = self;
        note_joined::<Pass, _>(&parts!(a, b), mode, sizes)
    }

    #[inline(always)]
    fn put<Pass, W: io::Write>(
        &self,
        mode: Mode,
        sizes: &mut SizesLeft<'_>,
        target: &mut W,
        why: &mut WriteError,
    ) -> Result<(), Failed> {
        let (a, b) = self;
        write_known_parts::<Pass, _, _>(&parts!(a, b), mode, sizes, target, why)
    }

    ghost one = { λ x mode can. Joined_lawful (Then_lawful (A.lawful x.0 mode can.0)
        (Then_lawful (B.lawful x.1 mode can.1.0) (NoValues_lawful mode))) };
}

impl<A: Values, B: Values, C: Values> Encoder for (A, B, C) {
    ghost all = { λ x mode. Joined (Then (A.means x.0 mode) (Then (B.means x.1 mode)
        (Then (C.means x.2 mode) NoValues))) };

    ghost lacks = { λ x mode. A.may_lack x.0 mode ⊎ (B.may_lack x.1 mode ⊎
        (C.may_lack x.2 mode ⊎ ⊥)) };

    ghost takes = { λ x mode. ReadsThen (A.reads x.0 mode) (ReadsThen (B.reads x.1 mode)
        (ReadsThen (C.reads x.2 mode) ReadsNone)) };

    ghost can = { λ x. A.can_encode x.0 × (B.can_encode x.1 × (C.can_encode x.2 × ⊤)) };

    #[inline(always)]
    fn measured<Pass>(&self, mode: Mode, sizes: &mut Sizes) -> Result<usize, EncodeError> {
        let (a, b, c) = self;
        note_joined::<Pass, _>(&parts!(a, b, c), mode, sizes)
    }

    #[inline(always)]
    fn put<Pass, W: io::Write>(
        &self,
        mode: Mode,
        sizes: &mut SizesLeft<'_>,
        target: &mut W,
        why: &mut WriteError,
    ) -> Result<(), Failed> {
        let (a, b, c) = self;
        write_known_parts::<Pass, _, _>(&parts!(a, b, c), mode, sizes, target, why)
    }

    ghost one = { λ x mode can. Joined_lawful (Then_lawful (A.lawful x.0 mode can.0)
        (Then_lawful (B.lawful x.1 mode can.1.0) (Then_lawful (C.lawful x.2 mode can.1.1.0)
        (NoValues_lawful mode)))) };
}

impl<A: Values, B: Values, C: Values, D: Values> Encoder for (A, B, C, D) {
    ghost all = { λ x mode. Joined (Then (A.means x.0 mode) (Then (B.means x.1 mode)
        (Then (C.means x.2 mode) (Then (D.means x.3 mode) NoValues)))) };

    ghost lacks = { λ x mode. A.may_lack x.0 mode ⊎ (B.may_lack x.1 mode ⊎
        (C.may_lack x.2 mode ⊎ (D.may_lack x.3 mode ⊎ ⊥))) };

    ghost takes = { λ x mode. ReadsThen (A.reads x.0 mode) (ReadsThen (B.reads x.1 mode)
        (ReadsThen (C.reads x.2 mode) (ReadsThen (D.reads x.3 mode) ReadsNone))) };

    ghost can = { λ x. A.can_encode x.0 × (B.can_encode x.1 × (C.can_encode x.2 ×
        (D.can_encode x.3 × ⊤))) };

    #[inline(always)]
    fn measured<Pass>(&self, mode: Mode, sizes: &mut Sizes) -> Result<usize, EncodeError> {
        let (a, b, c, d) = self;
        note_joined::<Pass, _>(&parts!(a, b, c, d), mode, sizes)
    }

    #[inline(always)]
    fn put<Pass, W: io::Write>(
        &self,
        mode: Mode,
        sizes: &mut SizesLeft<'_>,
        target: &mut W,
        why: &mut WriteError,
    ) -> Result<(), Failed> {
        let (a, b, c, d) = self;
        write_known_parts::<Pass, _, _>(&parts!(a, b, c, d), mode, sizes, target, why)
    }

    ghost one = { λ x mode can. Joined_lawful (Then_lawful (A.lawful x.0 mode can.0)
        (Then_lawful (B.lawful x.1 mode can.1.0) (Then_lawful (C.lawful x.2 mode can.1.1.0)
        (Then_lawful (D.lawful x.3 mode can.1.1.1.0) (NoValues_lawful mode))))) };
}

impl<A: Values, B: Values, C: Values, D: Values, E: Values> Encoder for (A, B, C, D, E) {
    ghost all = { λ x mode. Joined (Then (A.means x.0 mode) (Then (B.means x.1 mode)
        (Then (C.means x.2 mode) (Then (D.means x.3 mode) (Then (E.means x.4 mode) NoValues))))) };

    ghost lacks = { λ x mode. A.may_lack x.0 mode ⊎ (B.may_lack x.1 mode ⊎
        (C.may_lack x.2 mode ⊎ (D.may_lack x.3 mode ⊎ (E.may_lack x.4 mode ⊎ ⊥)))) };

    ghost takes = { λ x mode. ReadsThen (A.reads x.0 mode) (ReadsThen (B.reads x.1 mode)
        (ReadsThen (C.reads x.2 mode) (ReadsThen (D.reads x.3 mode)
        (ReadsThen (E.reads x.4 mode) ReadsNone)))) };

    ghost can = { λ x. A.can_encode x.0 × (B.can_encode x.1 × (C.can_encode x.2 ×
        (D.can_encode x.3 × (E.can_encode x.4 × ⊤)))) };

    #[inline(always)]
    fn measured<Pass>(&self, mode: Mode, sizes: &mut Sizes) -> Result<usize, EncodeError> {
        let (a, b, c, d, e) = self;
        note_joined::<Pass, _>(&parts!(a, b, c, d, e), mode, sizes)
    }

    #[inline(always)]
    fn put<Pass, W: io::Write>(
        &self,
        mode: Mode,
        sizes: &mut SizesLeft<'_>,
        target: &mut W,
        why: &mut WriteError,
    ) -> Result<(), Failed> {
        let (a, b, c, d, e) = self;
        write_known_parts::<Pass, _, _>(&parts!(a, b, c, d, e), mode, sizes, target, why)
    }

    ghost one = { λ x mode can. Joined_lawful (Then_lawful (A.lawful x.0 mode can.0)
        (Then_lawful (B.lawful x.1 mode can.1.0) (Then_lawful (C.lawful x.2 mode can.1.1.0)
        (Then_lawful (D.lawful x.3 mode can.1.1.1.0)
        (Then_lawful (E.lawful x.4 mode can.1.1.1.1.0) (NoValues_lawful mode)))))) };
}

impl<A: Values, B: Values, C: Values, D: Values, E: Values, F: Values> Encoder
    for (A, B, C, D, E, F) {
    ghost all = { λ x mode. Joined (Then (A.means x.0 mode) (Then (B.means x.1 mode)
        (Then (C.means x.2 mode) (Then (D.means x.3 mode) (Then (E.means x.4 mode)
        (Then (F.means x.5 mode) NoValues)))))) };

    ghost lacks = { λ x mode. A.may_lack x.0 mode ⊎ (B.may_lack x.1 mode ⊎
        (C.may_lack x.2 mode ⊎ (D.may_lack x.3 mode ⊎ (E.may_lack x.4 mode ⊎
        (F.may_lack x.5 mode ⊎ ⊥))))) };

    ghost takes = { λ x mode. ReadsThen (A.reads x.0 mode) (ReadsThen (B.reads x.1 mode)
        (ReadsThen (C.reads x.2 mode) (ReadsThen (D.reads x.3 mode)
        (ReadsThen (E.reads x.4 mode) (ReadsThen (F.reads x.5 mode) ReadsNone))))) };

    ghost can = { λ x. A.can_encode x.0 × (B.can_encode x.1 × (C.can_encode x.2 ×
        (D.can_encode x.3 × (E.can_encode x.4 × (F.can_encode x.5 × ⊤))))) };

    #[inline(always)]
    fn measured<Pass>(&self, mode: Mode, sizes: &mut Sizes) -> Result<usize, EncodeError> {
        let (a, b, c, d, e, f) = self;
        note_joined::<Pass, _>(&parts!(a, b, c, d, e, f), mode, sizes)
    }

    #[inline(always)]
    fn put<Pass, W: io::Write>(
        &self,
        mode: Mode,
        sizes: &mut SizesLeft<'_>,
        target: &mut W,
        why: &mut WriteError,
    ) -> Result<(), Failed> {
        let (a, b, c, d, e, f) = self;
        write_known_parts::<Pass, _, _>(&parts!(a, b, c, d, e, f), mode, sizes, target, why)
    }

    ghost one = { λ x mode can. Joined_lawful (Then_lawful (A.lawful x.0 mode can.0)
        (Then_lawful (B.lawful x.1 mode can.1.0) (Then_lawful (C.lawful x.2 mode can.1.1.0)
        (Then_lawful (D.lawful x.3 mode can.1.1.1.0)
        (Then_lawful (E.lawful x.4 mode can.1.1.1.1.0)
        (Then_lawful (F.lawful x.5 mode can.1.1.1.1.1.0) (NoValues_lawful mode))))))) };
}

impl<A: Values, B: Values, C: Values, D: Values, E: Values, F: Values, G: Values> Encoder
    for (A, B, C, D, E, F, G) {
    ghost all = { λ x mode. Joined (Then (A.means x.0 mode) (Then (B.means x.1 mode)
        (Then (C.means x.2 mode) (Then (D.means x.3 mode) (Then (E.means x.4 mode)
        (Then (F.means x.5 mode) (Then (G.means x.6 mode) NoValues))))))) };

    ghost lacks = { λ x mode. A.may_lack x.0 mode ⊎ (B.may_lack x.1 mode ⊎
        (C.may_lack x.2 mode ⊎ (D.may_lack x.3 mode ⊎ (E.may_lack x.4 mode ⊎
        (F.may_lack x.5 mode ⊎ (G.may_lack x.6 mode ⊎ ⊥)))))) };

    ghost takes = { λ x mode. ReadsThen (A.reads x.0 mode) (ReadsThen (B.reads x.1 mode)
        (ReadsThen (C.reads x.2 mode) (ReadsThen (D.reads x.3 mode)
        (ReadsThen (E.reads x.4 mode) (ReadsThen (F.reads x.5 mode)
        (ReadsThen (G.reads x.6 mode) ReadsNone)))))) };

    ghost can = { λ x. A.can_encode x.0 × (B.can_encode x.1 × (C.can_encode x.2 ×
        (D.can_encode x.3 × (E.can_encode x.4 × (F.can_encode x.5 × (G.can_encode x.6 × ⊤)))))) };

    #[inline(always)]
    fn measured<Pass>(&self, mode: Mode, sizes: &mut Sizes) -> Result<usize, EncodeError> {
        let (a, b, c, d, e, f, g) = self;
        note_joined::<Pass, _>(&parts!(a, b, c, d, e, f, g), mode, sizes)
    }

    #[inline(always)]
    fn put<Pass, W: io::Write>(
        &self,
        mode: Mode,
        sizes: &mut SizesLeft<'_>,
        target: &mut W,
        why: &mut WriteError,
    ) -> Result<(), Failed> {
        let (a, b, c, d, e, f, g) = self;
        write_known_parts::<Pass, _, _>(&parts!(a, b, c, d, e, f, g), mode, sizes, target, why)
    }

    ghost one = { λ x mode can. Joined_lawful (Then_lawful (A.lawful x.0 mode can.0)
        (Then_lawful (B.lawful x.1 mode can.1.0) (Then_lawful (C.lawful x.2 mode can.1.1.0)
        (Then_lawful (D.lawful x.3 mode can.1.1.1.0)
        (Then_lawful (E.lawful x.4 mode can.1.1.1.1.0)
        (Then_lawful (F.lawful x.5 mode can.1.1.1.1.1.0)
        (Then_lawful (G.lawful x.6 mode can.1.1.1.1.1.1.0) (NoValues_lawful mode)))))))) };
}

impl<A: Values, B: Values, C: Values, D: Values, E: Values, F: Values, G: Values, H: Values> Encoder
    for (A, B, C, D, E, F, G, H) {
    ghost all = { λ x mode. Joined (Then (A.means x.0 mode) (Then (B.means x.1 mode)
        (Then (C.means x.2 mode) (Then (D.means x.3 mode) (Then (E.means x.4 mode)
        (Then (F.means x.5 mode) (Then (G.means x.6 mode) (Then (H.means x.7 mode)
        NoValues)))))))) };

    ghost lacks = { λ x mode. A.may_lack x.0 mode ⊎ (B.may_lack x.1 mode ⊎
        (C.may_lack x.2 mode ⊎ (D.may_lack x.3 mode ⊎ (E.may_lack x.4 mode ⊎
        (F.may_lack x.5 mode ⊎ (G.may_lack x.6 mode ⊎ (H.may_lack x.7 mode ⊎ ⊥))))))) };

    ghost takes = { λ x mode. ReadsThen (A.reads x.0 mode) (ReadsThen (B.reads x.1 mode)
        (ReadsThen (C.reads x.2 mode) (ReadsThen (D.reads x.3 mode)
        (ReadsThen (E.reads x.4 mode) (ReadsThen (F.reads x.5 mode)
        (ReadsThen (G.reads x.6 mode) (ReadsThen (H.reads x.7 mode) ReadsNone))))))) };

    ghost can = { λ x. A.can_encode x.0 × (B.can_encode x.1 × (C.can_encode x.2 ×
        (D.can_encode x.3 × (E.can_encode x.4 × (F.can_encode x.5 × (G.can_encode x.6 ×
        (H.can_encode x.7 × ⊤))))))) };

    #[inline(always)]
    fn measured<Pass>(&self, mode: Mode, sizes: &mut Sizes) -> Result<usize, EncodeError> {
        let (a, b, c, d, e, f, g, h) = self;
        note_joined::<Pass, _>(&parts!(a, b, c, d, e, f, g, h), mode, sizes)
    }

    #[inline(always)]
    fn put<Pass, W: io::Write>(
        &self,
        mode: Mode,
        sizes: &mut SizesLeft<'_>,
        target: &mut W,
        why: &mut WriteError,
    ) -> Result<(), Failed> {
        let (a, b, c, d, e, f, g, h) = self;
        write_known_parts::<Pass, _, _>(&parts!(a, b, c, d, e, f, g, h), mode, sizes, target, why)
    }

    ghost one = { λ x mode can. Joined_lawful (Then_lawful (A.lawful x.0 mode can.0)
        (Then_lawful (B.lawful x.1 mode can.1.0) (Then_lawful (C.lawful x.2 mode can.1.1.0)
        (Then_lawful (D.lawful x.3 mode can.1.1.1.0)
        (Then_lawful (E.lawful x.4 mode can.1.1.1.1.0)
        (Then_lawful (F.lawful x.5 mode can.1.1.1.1.1.0)
        (Then_lawful (G.lawful x.6 mode can.1.1.1.1.1.1.0)
        (Then_lawful (H.lawful x.7 mode can.1.1.1.1.1.1.1.0) (NoValues_lawful mode))))))))) };
}

impl<
    A: Values,
    B: Values,
    C: Values,
    D: Values,
    E: Values,
    F: Values,
    G: Values,
    H: Values,
    I: Values,
> Encoder for (A, B, C, D, E, F, G, H, I) {
    ghost all = { λ x mode. Joined (Then (A.means x.0 mode) (Then (B.means x.1 mode)
        (Then (C.means x.2 mode) (Then (D.means x.3 mode) (Then (E.means x.4 mode)
        (Then (F.means x.5 mode) (Then (G.means x.6 mode) (Then (H.means x.7 mode)
        (Then (I.means x.8 mode) NoValues))))))))) };

    ghost lacks = { λ x mode. A.may_lack x.0 mode ⊎ (B.may_lack x.1 mode ⊎
        (C.may_lack x.2 mode ⊎ (D.may_lack x.3 mode ⊎ (E.may_lack x.4 mode ⊎
        (F.may_lack x.5 mode ⊎ (G.may_lack x.6 mode ⊎ (H.may_lack x.7 mode ⊎
        (I.may_lack x.8 mode ⊎ ⊥)))))))) };

    ghost takes = { λ x mode. ReadsThen (A.reads x.0 mode) (ReadsThen (B.reads x.1 mode)
        (ReadsThen (C.reads x.2 mode) (ReadsThen (D.reads x.3 mode)
        (ReadsThen (E.reads x.4 mode) (ReadsThen (F.reads x.5 mode)
        (ReadsThen (G.reads x.6 mode) (ReadsThen (H.reads x.7 mode)
        (ReadsThen (I.reads x.8 mode) ReadsNone)))))))) };

    ghost can = { λ x. A.can_encode x.0 × (B.can_encode x.1 × (C.can_encode x.2 ×
        (D.can_encode x.3 × (E.can_encode x.4 × (F.can_encode x.5 × (G.can_encode x.6 ×
        (H.can_encode x.7 × (I.can_encode x.8 × ⊤)))))))) };

    #[inline(always)]
    fn measured<Pass>(&self, mode: Mode, sizes: &mut Sizes) -> Result<usize, EncodeError> {
        let (a, b, c, d, e, f, g, h, i) = self;
        note_joined::<Pass, _>(&parts!(a, b, c, d, e, f, g, h, i), mode, sizes)
    }

    #[inline(always)]
    fn put<Pass, W: io::Write>(
        &self,
        mode: Mode,
        sizes: &mut SizesLeft<'_>,
        target: &mut W,
        why: &mut WriteError,
    ) -> Result<(), Failed> {
        let (a, b, c, d, e, f, g, h, i) = self;
        write_known_parts::<Pass, _, _>(
            &parts!(a, b, c, d, e, f, g, h, i),
            mode,
            sizes,
            target,
            why,
        )
    }

    ghost one = { λ x mode can. Joined_lawful (Then_lawful (A.lawful x.0 mode can.0)
        (Then_lawful (B.lawful x.1 mode can.1.0) (Then_lawful (C.lawful x.2 mode can.1.1.0)
        (Then_lawful (D.lawful x.3 mode can.1.1.1.0)
        (Then_lawful (E.lawful x.4 mode can.1.1.1.1.0)
        (Then_lawful (F.lawful x.5 mode can.1.1.1.1.1.0)
        (Then_lawful (G.lawful x.6 mode can.1.1.1.1.1.1.0)
        (Then_lawful (H.lawful x.7 mode can.1.1.1.1.1.1.1.0)
        (Then_lawful (I.lawful x.8 mode can.1.1.1.1.1.1.1.1.0) (NoValues_lawful mode)))))))))) };
}

impl<
    A: Values,
    B: Values,
    C: Values,
    D: Values,
    E: Values,
    F: Values,
    G: Values,
    H: Values,
    I: Values,
    J: Values,
> Encoder for (A, B, C, D, E, F, G, H, I, J) {
    ghost all = { λ x mode. Joined (Then (A.means x.0 mode) (Then (B.means x.1 mode)
        (Then (C.means x.2 mode) (Then (D.means x.3 mode) (Then (E.means x.4 mode)
        (Then (F.means x.5 mode) (Then (G.means x.6 mode) (Then (H.means x.7 mode)
        (Then (I.means x.8 mode) (Then (J.means x.9 mode) NoValues)))))))))) };

    ghost lacks = { λ x mode. A.may_lack x.0 mode ⊎ (B.may_lack x.1 mode ⊎
        (C.may_lack x.2 mode ⊎ (D.may_lack x.3 mode ⊎ (E.may_lack x.4 mode ⊎
        (F.may_lack x.5 mode ⊎ (G.may_lack x.6 mode ⊎ (H.may_lack x.7 mode ⊎
        (I.may_lack x.8 mode ⊎ (J.may_lack x.9 mode ⊎ ⊥))))))))) };

    ghost takes = { λ x mode. ReadsThen (A.reads x.0 mode) (ReadsThen (B.reads x.1 mode)
        (ReadsThen (C.reads x.2 mode) (ReadsThen (D.reads x.3 mode)
        (ReadsThen (E.reads x.4 mode) (ReadsThen (F.reads x.5 mode)
        (ReadsThen (G.reads x.6 mode) (ReadsThen (H.reads x.7 mode)
        (ReadsThen (I.reads x.8 mode) (ReadsThen (J.reads x.9 mode) ReadsNone))))))))) };

    ghost can = { λ x. A.can_encode x.0 × (B.can_encode x.1 × (C.can_encode x.2 ×
        (D.can_encode x.3 × (E.can_encode x.4 × (F.can_encode x.5 × (G.can_encode x.6 ×
        (H.can_encode x.7 × (I.can_encode x.8 × (J.can_encode x.9 × ⊤))))))))) };

    #[inline(always)]
    fn measured<Pass>(&self, mode: Mode, sizes: &mut Sizes) -> Result<usize, EncodeError> {
        let (a, b, c, d, e, f, g, h, i, j) = self;
        note_joined::<Pass, _>(&parts!(a, b, c, d, e, f, g, h, i, j), mode, sizes)
    }

    #[inline(always)]
    fn put<Pass, W: io::Write>(
        &self,
        mode: Mode,
        sizes: &mut SizesLeft<'_>,
        target: &mut W,
        why: &mut WriteError,
    ) -> Result<(), Failed> {
        let (a, b, c, d, e, f, g, h, i, j) = self;
        write_known_parts::<Pass, _, _>(
            &parts!(a, b, c, d, e, f, g, h, i, j),
            mode,
            sizes,
            target,
            why,
        )
    }

    ghost one = { λ x mode can. Joined_lawful (Then_lawful (A.lawful x.0 mode can.0)
        (Then_lawful (B.lawful x.1 mode can.1.0) (Then_lawful (C.lawful x.2 mode can.1.1.0)
        (Then_lawful (D.lawful x.3 mode can.1.1.1.0)
        (Then_lawful (E.lawful x.4 mode can.1.1.1.1.0)
        (Then_lawful (F.lawful x.5 mode can.1.1.1.1.1.0)
        (Then_lawful (G.lawful x.6 mode can.1.1.1.1.1.1.0)
        (Then_lawful (H.lawful x.7 mode can.1.1.1.1.1.1.1.0)
        (Then_lawful (I.lawful x.8 mode can.1.1.1.1.1.1.1.1.0)
        (Then_lawful (J.lawful x.9 mode can.1.1.1.1.1.1.1.1.1.0) (NoValues_lawful mode))))))))))) };
}

impl<
    A: Values,
    B: Values,
    C: Values,
    D: Values,
    E: Values,
    F: Values,
    G: Values,
    H: Values,
    I: Values,
    J: Values,
    K: Values,
> Encoder for (A, B, C, D, E, F, G, H, I, J, K) {
    ghost all = { λ x mode. Joined (Then (A.means x.0 mode) (Then (B.means x.1 mode)
        (Then (C.means x.2 mode) (Then (D.means x.3 mode) (Then (E.means x.4 mode)
        (Then (F.means x.5 mode) (Then (G.means x.6 mode) (Then (H.means x.7 mode)
        (Then (I.means x.8 mode) (Then (J.means x.9 mode) (Then (K.means x.10 mode)
        NoValues))))))))))) };

    ghost lacks = { λ x mode. A.may_lack x.0 mode ⊎ (B.may_lack x.1 mode ⊎
        (C.may_lack x.2 mode ⊎ (D.may_lack x.3 mode ⊎ (E.may_lack x.4 mode ⊎
        (F.may_lack x.5 mode ⊎ (G.may_lack x.6 mode ⊎ (H.may_lack x.7 mode ⊎
        (I.may_lack x.8 mode ⊎ (J.may_lack x.9 mode ⊎ (K.may_lack x.10 mode ⊎ ⊥)))))))))) };

    ghost takes = { λ x mode. ReadsThen (A.reads x.0 mode) (ReadsThen (B.reads x.1 mode)
        (ReadsThen (C.reads x.2 mode) (ReadsThen (D.reads x.3 mode)
        (ReadsThen (E.reads x.4 mode) (ReadsThen (F.reads x.5 mode)
        (ReadsThen (G.reads x.6 mode) (ReadsThen (H.reads x.7 mode)
        (ReadsThen (I.reads x.8 mode) (ReadsThen (J.reads x.9 mode)
        (ReadsThen (K.reads x.10 mode) ReadsNone)))))))))) };

    ghost can = { λ x. A.can_encode x.0 × (B.can_encode x.1 × (C.can_encode x.2 ×
        (D.can_encode x.3 × (E.can_encode x.4 × (F.can_encode x.5 × (G.can_encode x.6 ×
        (H.can_encode x.7 × (I.can_encode x.8 × (J.can_encode x.9 × (K.can_encode x.10 ×
        ⊤)))))))))) };

    #[inline(always)]
    fn measured<Pass>(&self, mode: Mode, sizes: &mut Sizes) -> Result<usize, EncodeError> {
        let (a, b, c, d, e, f, g, h, i, j, k) = self;
        note_joined::<Pass, _>(&parts!(a, b, c, d, e, f, g, h, i, j, k), mode, sizes)
    }

    #[inline(always)]
    fn put<Pass, W: io::Write>(
        &self,
        mode: Mode,
        sizes: &mut SizesLeft<'_>,
        target: &mut W,
        why: &mut WriteError,
    ) -> Result<(), Failed> {
        let (a, b, c, d, e, f, g, h, i, j, k) = self;
        write_known_parts::<Pass, _, _>(
            &parts!(a, b, c, d, e, f, g, h, i, j, k),
            mode,
            sizes,
            target,
            why,
        )
    }

    ghost one = { λ x mode can. Joined_lawful (Then_lawful (A.lawful x.0 mode can.0)
        (Then_lawful (B.lawful x.1 mode can.1.0) (Then_lawful (C.lawful x.2 mode can.1.1.0)
        (Then_lawful (D.lawful x.3 mode can.1.1.1.0)
        (Then_lawful (E.lawful x.4 mode can.1.1.1.1.0)
        (Then_lawful (F.lawful x.5 mode can.1.1.1.1.1.0)
        (Then_lawful (G.lawful x.6 mode can.1.1.1.1.1.1.0)
        (Then_lawful (H.lawful x.7 mode can.1.1.1.1.1.1.1.0)
        (Then_lawful (I.lawful x.8 mode can.1.1.1.1.1.1.1.1.0)
        (Then_lawful (J.lawful x.9 mode can.1.1.1.1.1.1.1.1.1.0)
        (Then_lawful (K.lawful x.10 mode can.1.1.1.1.1.1.1.1.1.1.0)
        (NoValues_lawful mode)))))))))))) };
}

impl<
    A: Values,
    B: Values,
    C: Values,
    D: Values,
    E: Values,
    F: Values,
    G: Values,
    H: Values,
    I: Values,
    J: Values,
    K: Values,
    L: Values,
> Encoder for (A, B, C, D, E, F, G, H, I, J, K, L) {
    ghost all = { λ x mode. Joined (Then (A.means x.0 mode) (Then (B.means x.1 mode)
        (Then (C.means x.2 mode) (Then (D.means x.3 mode) (Then (E.means x.4 mode)
        (Then (F.means x.5 mode) (Then (G.means x.6 mode) (Then (H.means x.7 mode)
        (Then (I.means x.8 mode) (Then (J.means x.9 mode) (Then (K.means x.10 mode)
        (Then (L.means x.11 mode) NoValues)))))))))))) };

    ghost lacks = { λ x mode. A.may_lack x.0 mode ⊎ (B.may_lack x.1 mode ⊎
        (C.may_lack x.2 mode ⊎ (D.may_lack x.3 mode ⊎ (E.may_lack x.4 mode ⊎
        (F.may_lack x.5 mode ⊎ (G.may_lack x.6 mode ⊎ (H.may_lack x.7 mode ⊎
        (I.may_lack x.8 mode ⊎ (J.may_lack x.9 mode ⊎ (K.may_lack x.10 mode ⊎
        (L.may_lack x.11 mode ⊎ ⊥))))))))))) };

    ghost takes = { λ x mode. ReadsThen (A.reads x.0 mode) (ReadsThen (B.reads x.1 mode)
        (ReadsThen (C.reads x.2 mode) (ReadsThen (D.reads x.3 mode)
        (ReadsThen (E.reads x.4 mode) (ReadsThen (F.reads x.5 mode)
        (ReadsThen (G.reads x.6 mode) (ReadsThen (H.reads x.7 mode)
        (ReadsThen (I.reads x.8 mode) (ReadsThen (J.reads x.9 mode)
        (ReadsThen (K.reads x.10 mode) (ReadsThen (L.reads x.11 mode) ReadsNone))))))))))) };

    ghost can = { λ x. A.can_encode x.0 × (B.can_encode x.1 × (C.can_encode x.2 ×
        (D.can_encode x.3 × (E.can_encode x.4 × (F.can_encode x.5 × (G.can_encode x.6 ×
        (H.can_encode x.7 × (I.can_encode x.8 × (J.can_encode x.9 × (K.can_encode x.10 ×
        (L.can_encode x.11 × ⊤))))))))))) };

    #[inline(always)]
    fn measured<Pass>(&self, mode: Mode, sizes: &mut Sizes) -> Result<usize, EncodeError> {
        let (a, b, c, d, e, f, g, h, i, j, k, l) = self;
        note_joined::<Pass, _>(&parts!(a, b, c, d, e, f, g, h, i, j, k, l), mode, sizes)
    }

    #[inline(always)]
    fn put<Pass, W: io::Write>(
        &self,
        mode: Mode,
        sizes: &mut SizesLeft<'_>,
        target: &mut W,
        why: &mut WriteError,
    ) -> Result<(), Failed> {
        let (a, b, c, d, e, f, g, h, i, j, k, l) = self;
        write_known_parts::<Pass, _, _>(
            &parts!(a, b, c, d, e, f, g, h, i, j, k, l),
            mode,
            sizes,
            target,
            why,
        )
    }

    ghost one = { λ x mode can. Joined_lawful (Then_lawful (A.lawful x.0 mode can.0)
        (Then_lawful (B.lawful x.1 mode can.1.0) (Then_lawful (C.lawful x.2 mode can.1.1.0)
        (Then_lawful (D.lawful x.3 mode can.1.1.1.0)
        (Then_lawful (E.lawful x.4 mode can.1.1.1.1.0)
        (Then_lawful (F.lawful x.5 mode can.1.1.1.1.1.0)
        (Then_lawful (G.lawful x.6 mode can.1.1.1.1.1.1.0)
        (Then_lawful (H.lawful x.7 mode can.1.1.1.1.1.1.1.0)
        (Then_lawful (I.lawful x.8 mode can.1.1.1.1.1.1.1.1.0)
        (Then_lawful (J.lawful x.9 mode can.1.1.1.1.1.1.1.1.1.0)
        (Then_lawful (K.lawful x.10 mode can.1.1.1.1.1.1.1.1.1.1.0)
        (Then_lawful (L.lawful x.11 mode can.1.1.1.1.1.1.1.1.1.1.1.0)
        (NoValues_lawful mode))))))))))))) };
}
