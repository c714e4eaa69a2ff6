//! Laws: what is proved of definitions.
ghost use Rattle.std.specs.Prelude.{◌≡◌, ℕ, Bool, true, List};
ghost use Rattle.real.specs.declared.value.Real.{Real as RealValue};
ghost use Rattle.real.specs.Contents.{IsHeld, IsReal, real_octets};

/// A law: contents octets mean one value at most, in CER and DER one list of octets means it
/// (X.690, 11.3), and what is written is read back in each mode.
pub fn contents_are_one()
    ensures one { (canonical : Bool) (w : List ℕ) (x y : RealValue) → IsReal canonical w x
        → IsReal canonical w y → x ≡ y }
    ensures once { (x y : RealValue) (v w : List ℕ) → IsReal true v x → IsReal true w y
        → x ≡ y → v ≡ w }
    ensures back { (canonical : Bool) (x : RealValue) → IsHeld x
        → IsReal canonical (real_octets x) x }
{}
