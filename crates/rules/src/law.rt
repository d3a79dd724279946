ghost use Rattle.rules.specs.Laws.OneOwner.{IsOwnedOnce};
ghost use Rattle.rules.specs.Laws.History.{IsOwnedAsGiven};
ghost use Rattle.rules.specs.Laws.Handles.{AreHandlesUsedOnce};
ghost use Rattle.rules.specs.Laws.BuffersApart.{AreBuffersApart};
ghost use Rattle.rules.specs.Laws.Writers.{AreWritersAllowed};
ghost use Rattle.rules.specs.Laws.Isolation.{AreAlikeTo, IsIsolated, transactions_of};
ghost use Rattle.rules.specs.Laws.SentPages.{AreTransactionsKept};
ghost use Rattle.rules.specs.Laws.EditsTheView.{PassesTests, EditsTheView};
ghost use Rattle.rules.specs.Laws.Clears.{AreClearedUnreached};
ghost use Rattle.rules.specs.Call.{CallWords};
ghost use Rattle.rules.specs.Run.{IsReached, rule_of, step};
ghost use Rattle.std.specs.Prelude.{◌≡◌, ◌≢◌, ℕ, List};
ghost use Rattle.base.specs.Manifest.{ManifestRows};
ghost use Rattle.base.specs.State.{State};
ghost use Rattle.wire.specs.declared.request.Request.{Request};

/// In every state that some list of calls reaches, a page has an owner exactly where a region covers
/// it, each live transaction's sender owns its pages, and no two live transactions share a page.
pub fn pages_have_one_owner()
    ensures { (s : State) → IsReached s → IsOwnedOnce s }
{}

/// After any run of calls each page has the owner that the last completed donation of it gave, and is to its owner what
/// that donation gave; a page of no donation is as the manifest has it.
pub fn last_donation_decides()
    ensures { (m : ManifestRows) → (calls : List CallWords) → (n : ℕ) → IsOwnedAsGiven m calls n }
{}

/// In every state that some list of calls reaches, what every partition reaches of every page after a
/// call that passes its tests is what it reached before, with the one edit that the call's rule names, whether or not
/// the edit's tables fit the quota.
pub fn edits_the_view()
    ensures { (s : State) → (c : CallWords) → (r : Request) → IsReached s → PassesTests s c r →
        EditsTheView s c r }
{}

/// In every state that some list of calls reaches, no partition but the one whose view a call edits
/// reaches a page that the call clears.
pub fn cleared_pages_are_unreached()
    ensures { (s : State) → (c : CallWords) → (r : Request) → IsReached s → PassesTests s c r →
        AreClearedUnreached s (rule_of s c r).edit }
{}

/// In every state that some list of calls reaches, no two live transactions have one handle, and no
/// handle is above the count of its sender's accepted sends.
pub fn handles_are_used_once()
    ensures { (s : State) → IsReached s → AreHandlesUsedOnce s }
{}

/// In every state that some list of calls reaches, no page of a live transaction lies in a registered
/// buffer.
pub fn buffers_are_apart()
    ensures { (s : State) → IsReached s → AreBuffersApart s }
{}

/// In every state that some list of calls reaches, the sender of a live transaction owns its pages,
/// which lie in normal memory with one grant, and their home is that of the transaction. No two of its
/// ranges share a page.
pub fn transactions_keep_their_pages()
    ensures { (s : State) → IsReached s → AreTransactionsKept s }
{}

/// In every state that some list of calls reaches, two partitions write a page only where the manifest
/// grants it read-write to both and no transaction or donation covers it, or where one live transaction
/// covers it by which each of the two writes it: the sender of a share whose home is read-write, or a
/// receiver that has retrieved it read-write.
pub fn writers_are_allowed()
    ensures { (s : State) → IsReached s → AreWritersAllowed s }
{}

/// A partition that cannot tell two reached states apart is answered alike in both, and cannot tell the
/// states after its call apart.
pub fn partitions_are_isolated()
    ensures { (s : State) → (t : State) → (c : CallWords) → IsReached s → IsReached t →
        AreAlikeTo c.caller s t → IsIsolated s t c }
{}

/// In every state that some list of calls reaches, a call of another partition leaves all that a
/// partition may learn as it was, where it leaves the transactions that name the partition.
pub fn others_leave_a_partition()
    ensures { (p : ℕ) → (s : State) → (c : CallWords) → IsReached s → c.caller ≢ p →
        transactions_of p (step s c).live ≡ transactions_of p s.live → AreAlikeTo p s (step s c) }
{}
