ghost use Rattle.std.specs.Prelude.{◌^◌, ℕ, List};
ghost use Rattle.base.specs.Access.{View, is_same};
ghost use Rattle.base.specs.Manifest.{ManifestRows};
ghost use Rattle.base.specs.Runs.{AreMaximal};
ghost use Rattle.base.specs.Transactions.{Donation};
ghost use Rattle.audit.specs.Runs.{is_same_ownership, owned_runs, ownership, reached_runs};

/// The runs of `maps` are upward, and no two that touch have one access. Together they have exactly the pages that
/// the partition reaches, each with its access.
pub fn reached_runs_are_maximal()
    ensures { (view : ℕ → View) → AreMaximal is_same view (2 ^ 27) (reached_runs view) }
{}

/// The runs of `owners` are upward, and no two that touch have one owner and one home. Together they have exactly the
/// pages that have an owner, each with its owner and its home.
pub fn owned_runs_are_maximal()
    ensures { (m : ManifestRows) → (ds : List Donation) →
        AreMaximal is_same_ownership (ownership m ds) (2 ^ 27) (owned_runs m ds) }
{}
