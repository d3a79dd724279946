//! FFA_FEATURES.

ghost use Rattle.std.specs.Prelude.{◌≡◌, ℕ, false, IfOk, IfErr};
ghost use Rattle.base.specs.State as spec;
ghost use Rattle.rules.specs.Calls.Features.{features_rule};
ghost use Rattle.spm.specs.Granted.{IsGranted, IsStopped};

use crate::change::{Answer, Change, Stop};
use base::Status;
use wire::is_feature;

/// The caller asks for the feature or the interface with this identifier.
pub(crate) fn features(identifier: u32) -> Result<Change, Stop>
    ensures granted { (s : spec.State) → (p : ℕ) → IfOk result
        (λ change. IsGranted s p (features_rule s identifier) false change) }
    ensures stopped { (s : spec.State) → IfErr result
        (λ stop. IsStopped (features_rule s identifier) false stop) }
{
    if is_feature(identifier) {
        Ok(Change::nothing(Answer::Success(0, 0)))
    } else {
        Err(Stop::Refused(Status::NotSupported))
    }
}
