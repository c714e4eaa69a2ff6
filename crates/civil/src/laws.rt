//! Laws: what is proved of definitions.
ghost use Rattle.std.specs.Prelude.{◌≡◌};
ghost use Rattle.civil.specs.Time.{Time, IsTime, IsUtcTime};
ghost use Rattle.civil.specs.Octets.{generalized_octets, utc_octets};

/// A law: times whose contents octets are the same are the same.
pub fn octets_tell_times_apart()
    ensures utc { (t u : Time) → IsUtcTime t → IsUtcTime u
        → utc_octets t ≡ utc_octets u → t ≡ u }
    ensures generalized { (t u : Time) → IsTime t → IsTime u
        → generalized_octets t ≡ generalized_octets u → t ≡ u }
{}
