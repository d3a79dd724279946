//! FFA_ID_GET.

ghost use Rattle.std.specs.Prelude.{false};
ghost use Rattle.base.specs.State as spec;
ghost use Rattle.rules.specs.Calls.IdGet.{id_get_rule};
ghost use Rattle.spm.specs.Granted.{IsGranted};

use crate::call::LentCall;
use crate::change::{Answer, Change};

/// The caller asks for its identifier.
pub(crate) fn id_get(call: &LentCall<'_>) -> Change
    ensures { (s : spec.State) → IsGranted s call.now.caller (id_get_rule s call.now) false result }
{
    Change::nothing(Answer::Success(u32::from(call.caller), 0))
}
