//! The numbers that contents octets of INTEGER values denote (X.690, 8.3), as values of Rust's
//! types.
ghost use Rattle.std.specs.Prelude.{◌≡◌, ◌∷◌, [], ◌≤◌, ◌↔◌, ℤ, ℕ, false, pos};
ghost use Rattle.std.specs.Prelude.{IfSome, IfNone, IsTrue, length};
ghost use Rattle.std.specs.Int.{complement_if, w8, w16, w32, w64, w128, FitsUnsignedBits};
ghost use Rattle.std.specs.Int.RustNames.{FitsSigned};
ghost use Rattle.bcder.specs.x690.Integer.{AreInteger, IsSmallest, Leads, octet};
ghost use Rattle.bcder.specs.x690.Number.{HasMagnitude, IsNumber, IsNoNumber, magnitude};
ghost use Rattle.bcder.specs.laws.Numbers.{u8_magnitude, u16_magnitude, u32_magnitude};
ghost use Rattle.bcder.specs.laws.Numbers.{u64_magnitude, u128_magnitude, i8_magnitude};
ghost use Rattle.bcder.specs.laws.Numbers.{i16_magnitude, i32_magnitude, i64_magnitude};
ghost use Rattle.bcder.specs.laws.Numbers.{i128_magnitude};

/// An integer type of Rust.
pub(crate) trait Number: Sized {
    /// Whether the type has negative numbers.
    const SIGNED: bool;

    /// The number that a value is.
    ghost value: { Self → ℤ };

    /// The numbers that the type can hold.
    ghost in_range: { ℤ → Type 0 };

    /// Returns `magnitude` as a value of the type, or -1 minus `magnitude` if the number is
    /// negative. Returns `None` if the type can't hold it.
    fn of(negative: bool, magnitude: u128) -> Option<Self>
        ensures value { IfSome result (λ x. value x ≡ complement_if negative magnitude) }
        ensures fits { IfSome result (λ x. in_range (value x)) }
        ensures none { IfNone result (in_range (complement_if negative magnitude) → ⊥) };

    /// The numbers have a magnitude of at most 128 bits.
    ghost bounded: { (z : ℤ) → in_range z → HasMagnitude z };
}

/// Returns whether octets are the fewest that their number needs (8.3.1, 8.3.2).
#[inline(always)]
pub(crate) fn is_smallest(octets: &[u8]) -> bool
    ensures { IsTrue result ↔ IsSmallest octets.now }
{
    match octets {
        [] => false,
        [_] => true,
        [first, second, ..] => {
            (*first != 0x00 || *second >= 0x80) && (*first != 0xFF || *second < 0x80)
        }
    }
}

/// Returns whether the octets of a number begin with the sign of a negative one (8.3.3).
#[inline(always)]
fn is_negative(octets: &[u8]) -> bool
    requires { IsSmallest octets.now }
    ensures { Leads result octets.now }
{
    octets[0] >= 0x80
}

/// Returns whether octets are contents octets of an integer that isn't negative.
pub(crate) fn is_unsigned(octets: &[u8]) -> bool
    ensures yes { IsTrue result → IsSmallest octets.now × Leads false octets.now }
    ensures no { result ≡ false → (n : ℕ) → AreInteger (pos n) octets.now → ⊥ }
{
    is_smallest(octets) && !is_negative(octets)
}

/// Returns an octet, with all its bits inverted if the number is negative.
#[inline(always)]
pub(crate) fn invert_if(negative: bool, bits: u8) -> u8
    ensures { result ≡ octet negative bits }
{
    if negative { 255 - bits } else { bits }
}

/// Returns the magnitude that at most 16 octets have, apart from their sign.
#[tactic(auto, using(crate::proofs::Numbers::magnitude_step))]
fn magnitude_of(negative: bool, octets: &[u8]) -> u128
    requires { length octets.now ≤ 16 }
    ensures { result ≡ magnitude negative octets.now }
{
    let mut value = 0u128;
    for octet in octets {
        value = value * 256 + u128::from(invert_if(negative, *octet));
    }
    value
}

/// Returns the magnitude that at most 8 octets have, apart from their sign, in 64 bits.
#[inline(always)]
#[tactic(auto, using(crate::proofs::Numbers::magnitude_step))]
fn short_magnitude_of(negative: bool, octets: &[u8]) -> u64
    requires { length octets.now ≤ 8 }
    ensures { result ≡ magnitude negative octets.now }
{
    let mut value = 0u64;
    for octet in octets {
        value = value * 256 + u64::from(invert_if(negative, *octet));
    }
    value
}

/// Returns whether the number of at most 8 octets is negative, and its magnitude, if they are
/// contents octets of a number.
#[inline(always)]
fn short_parts_of(octets: &[u8]) -> Option<(bool, u64)>
    requires { length octets.now ≤ 8 }
    ensures some { IfSome result (λ r. AreInteger (complement_if r.0 r.1) octets.now) }
    ensures none { IfNone result (IsNoNumber HasMagnitude octets.now) }
{
    if !is_smallest(octets) {
        return None;
    }
    if is_negative(octets) {
        Some((true, short_magnitude_of(true, octets)))
    } else {
        Some((false, short_magnitude_of(false, octets)))
    }
}

/// Returns whether the number is negative, and its magnitude, if the octets are contents octets of
/// a number whose magnitude has at most 128 bits.
#[inline(never)]
fn parts_of(octets: &[u8]) -> Option<(bool, u128)>
    ensures some { IfSome result (λ r. AreInteger (complement_if r.0 r.1) octets.now) }
    ensures none { IfNone result (IsNoNumber HasMagnitude octets.now) }
{
    if !is_smallest(octets) {
        return None;
    }
    let negative = is_negative(octets);
    if octets.len() <= 16 {
        return Some((negative, magnitude_of(negative, octets)));
    }
    if octets.len() == 17 && invert_if(negative, octets[0]) == 0 {
        return Some((negative, magnitude_of(negative, octets.split_at(1).1)));
    }
    None
}

/// Returns the number that one octet is.
#[inline(always)]
fn small<N: Number>(first: u8) -> Option<N>
    ensures value { IfSome result (λ x. IsNumber N.value N.in_range (first ∷ []) x) }
    ensures none { IfNone result (IsNoNumber N.in_range (first ∷ [])) }
{
    if first >= 0x80 {
        return N::of(true, u128::from(invert_if(true, first)));
    }
    N::of(false, u128::from(first))
}

/// Returns the number of a type that contents octets denote, if there is one.
#[inline(always)]
pub(crate) fn number_at<N: Number>(octets: &[u8]) -> Option<N>
    ensures some { IfSome result (IsNumber N.value N.in_range octets.now) }
    ensures none { IfNone result (IsNoNumber N.in_range octets.now) }
{
    if let [first] = octets {
        // an unsigned type refuses a negative number below, so that this path has one result for it
        if N::SIGNED || *first < 0x80 {
            return small(*first);
        }
    }
    // not for a signed type, whose two loops would make a reader's closure too large to be inlined
    if !N::SIGNED && octets.len() <= 8 {
        return short_number(octets);
    }
    // taken apart, so that a few octets keep to their own paths
    let Some(number) = any_number(octets) else {
        return None;
    };
    Some(number)
}

/// Returns the number that at most 8 octets denote.
#[inline(always)]
fn short_number<N: Number>(octets: &[u8]) -> Option<N>
    requires { length octets.now ≤ 8 }
    ensures some { IfSome result (IsNumber N.value N.in_range octets.now) }
    ensures none { IfNone result (IsNoNumber N.in_range octets.now) }
{
    match short_parts_of(octets) {
        Some((negative, magnitude)) => N::of(negative, u128::from(magnitude)),
        None => None,
    }
}

/// Returns the number that octets of any length denote.
#[inline(never)]
fn any_number<N: Number>(octets: &[u8]) -> Option<N>
    ensures some { IfSome result (IsNumber N.value N.in_range octets.now) }
    ensures none { IfNone result (IsNoNumber N.in_range octets.now) }
{
    if octets.len() <= 8 {
        return short_number(octets);
    }
    match parts_of(octets) {
        Some((negative, magnitude)) => N::of(negative, magnitude),
        None => None,
    }
}

impl Number for u8 {
    const SIGNED: bool = false;

    ghost value = { λ x. pos x };

    ghost in_range = { FitsUnsignedBits 8 };

    ghost bounded = { u8_magnitude };

    #[inline(always)]
    fn of(negative: bool, magnitude: u128) -> Option<u8> {
        if negative {
            None
        } else if magnitude <= u8::MAX as u128 {
            Some(magnitude as u8)
        } else {
            None
        }
    }
}

impl Number for u16 {
    const SIGNED: bool = false;

    ghost value = { λ x. pos x };

    ghost in_range = { FitsUnsignedBits 16 };

    ghost bounded = { u16_magnitude };

    #[inline(always)]
    fn of(negative: bool, magnitude: u128) -> Option<u16> {
        if negative {
            None
        } else if magnitude <= u16::MAX as u128 {
            Some(magnitude as u16)
        } else {
            None
        }
    }
}

impl Number for u32 {
    const SIGNED: bool = false;

    ghost value = { λ x. pos x };

    ghost in_range = { FitsUnsignedBits 32 };

    ghost bounded = { u32_magnitude };

    #[inline(always)]
    fn of(negative: bool, magnitude: u128) -> Option<u32> {
        if negative {
            None
        } else if magnitude <= u32::MAX as u128 {
            Some(magnitude as u32)
        } else {
            None
        }
    }
}

impl Number for u64 {
    const SIGNED: bool = false;

    ghost value = { λ x. pos x };

    ghost in_range = { FitsUnsignedBits 64 };

    ghost bounded = { u64_magnitude };

    #[inline(always)]
    fn of(negative: bool, magnitude: u128) -> Option<u64> {
        if negative {
            None
        } else if magnitude <= u64::MAX as u128 {
            Some(magnitude as u64)
        } else {
            None
        }
    }
}

impl Number for u128 {
    const SIGNED: bool = false;

    ghost value = { λ x. pos x };

    ghost in_range = { FitsUnsignedBits 128 };

    ghost bounded = { u128_magnitude };

    #[inline(always)]
    fn of(negative: bool, magnitude: u128) -> Option<u128> {
        if negative { None } else { Some(magnitude) }
    }
}

impl Number for i8 {
    const SIGNED: bool = true;

    ghost value = { λ x. x };

    ghost in_range = { FitsSigned w8 };

    ghost bounded = { i8_magnitude };

    #[inline(always)]
    fn of(negative: bool, magnitude: u128) -> Option<i8> {
        if magnitude > i8::MAX as u128 {
            None
        } else if negative {
            Some(!(magnitude as i8))
        } else {
            Some(magnitude as i8)
        }
    }
}

impl Number for i16 {
    const SIGNED: bool = true;

    ghost value = { λ x. x };

    ghost in_range = { FitsSigned w16 };

    ghost bounded = { i16_magnitude };

    #[inline(always)]
    fn of(negative: bool, magnitude: u128) -> Option<i16> {
        if magnitude > i16::MAX as u128 {
            None
        } else if negative {
            Some(!(magnitude as i16))
        } else {
            Some(magnitude as i16)
        }
    }
}

impl Number for i32 {
    const SIGNED: bool = true;

    ghost value = { λ x. x };

    ghost in_range = { FitsSigned w32 };

    ghost bounded = { i32_magnitude };

    #[inline(always)]
    fn of(negative: bool, magnitude: u128) -> Option<i32> {
        if magnitude > i32::MAX as u128 {
            None
        } else if negative {
            Some(!(magnitude as i32))
        } else {
            Some(magnitude as i32)
        }
    }
}

impl Number for i64 {
    const SIGNED: bool = true;

    ghost value = { λ x. x };

    ghost in_range = { FitsSigned w64 };

    ghost bounded = { i64_magnitude };

    #[inline(always)]
    fn of(negative: bool, magnitude: u128) -> Option<i64> {
        if magnitude > i64::MAX as u128 {
            None
        } else if negative {
            Some(!(magnitude as i64))
        } else {
            Some(magnitude as i64)
        }
    }
}

impl Number for i128 {
    const SIGNED: bool = true;

    ghost value = { λ x. x };

    ghost in_range = { FitsSigned w128 };

    ghost bounded = { i128_magnitude };

    #[inline(always)]
    fn of(negative: bool, magnitude: u128) -> Option<i128> {
        if magnitude > i128::MAX as u128 {
            None
        } else if negative {
            Some(!(magnitude as i128))
        } else {
            Some(magnitude as i128)
        }
    }
}
