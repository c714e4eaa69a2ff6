//! Values of extensions of certificates and of lists of revoked ones (RFC 5280) that hold names or
//! character strings, as types of `asn1`: where lists and services are, whose keys were used, which
//! names are allowed, and what is said of a policy. Simpler ones are in `pkix`, alternative names in
//! `general_names`.
//!
//! Each reads and writes itself. Its reader is exact, because those of its parts are: it accepts
//! the encodings of the type, and no others. What a text says isn't looked at.
#![tactic(auto, using(bcder::specs::laws::Moved::untouched_is_moved))]

mod access;
mod distribution_point;
mod issuing_point;
mod key_identifiers;
mod name_constraints;
mod notices;
mod point_name;

pub use access::{AccessDescription, AuthorityInfoAccess, SubjectInfoAccess};
pub use distribution_point::{CrlDistributionPoints, DistributionPoint, FreshestCrl, ReasonFlags};
pub use issuing_point::{IssuingDistributionPoint, No};
pub use key_identifiers::AuthorityKeyIdentifier;
pub use name_constraints::{GeneralSubtree, GeneralSubtrees, NameConstraints, NoDistance};
pub use notices::{CpsUri, DisplayText, NoticeReference, UserNotice};
pub use point_name::DistributionPointName;
