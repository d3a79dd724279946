//! What a call changes that has passed its tests.

ghost use Rattle.std.specs.Prelude.{◌≡◌, true, None, IfOk};
ghost use Rattle.base.specs.Pages.{are_disjoint};
ghost use Rattle.spm.specs.Granted.{IsOrderly, IsSameEdit, replied};

use base::{Access, Handle, OutOfMemory, PartitionId, Run, Status, normal};
use ledger::Live;
use mailbox::Pair;
use std::alloc::Global;
use std::marker::Model;
use wire::Reply;

/// What a partition is to reach of pages: this access, or nothing. They may be cleared, while nobody reaches them.
#[derive(Clone, Copy)]
pub(crate) struct Reach {
    pub(crate) who: PartitionId,
    pub(crate) to: Option<Access>,
    pub(crate) clears: bool,
}

/// What a partition reaches of these pages changes: to this access, or to nothing. The runs are maximal
/// and stand upward. The pages may be cleared, while nobody reaches them.
#[derive(Drop)]
pub(crate) struct Edit {
    pub(crate) who: PartitionId,
    pub(crate) runs: Vec<Run>,
    pub(crate) to: Option<Access>,
    pub(crate) clears: bool,
}

impl Model for Edit {
    ghost use Rattle.rules.specs.Rule as rules;

    ghost Value = { rules.Edit };

    ghost view = { λ e. record {
      who = e.who;
      runs = e.runs.items;
      to = e.to;
      clears = e.clears;
    } };
}

impl Edit {
    /// The edit of a transaction's pages, in the memory of the spare runs.
    #[inline(always)]
    pub(crate) fn of(
        alloc: Global,
        spare: &mut Vec<Run>,
        transaction: &Live,
        reach: Reach,
    ) -> Result<Self, OutOfMemory>
        requires apart { are_disjoint transaction.now.ranges ≡ true }
        ensures same { IfOk result (IsSameEdit (record {
          who = reach.who;
          runs = transaction.now.ranges;
          to = reach.to;
          clears = reach.clears;
        })) }
        ensures orderly { IfOk result (IsOrderly reach.who) }
    {
        let Reach { who, to, clears } = reach;
        Ok(Edit {
            who,
            runs: normal(alloc, spare, &transaction.terms.ranges)?,
            to,
            clears,
        })
    }
}

/// A change of the state, made by the calling partition.
#[derive(Drop)]
pub(crate) enum Update {
    /// The state stays as it is.
    Nothing,
    /// The partition named this version.
    SetVersion(u32),
    /// This is the partition's pair.
    MapBuffers(Pair),
    /// The partition has no pair.
    UnmapBuffers,
    /// The partition does not hold RX.
    ReleaseRx,
    /// The partition sent this.
    Open(Live),
    /// The transaction of this handle has ended.
    Close(Handle),
    /// The partition has retrieved the transaction of this handle, with this access, and holds RX.
    Retrieve(Handle, Access),
    /// The partition has retrieved nothing any more of the transaction of this handle.
    Relinquish(Handle),
}

/// What a call is answered that passes its tests. Its registers are made when all is done: these few words are
/// less to hand on.
#[derive(Drop)]
pub(crate) enum Answer {
    /// FFA_SUCCESS, with these words in w2 and w3.
    Success(u32, u32),
    /// What FFA_VERSION answers.
    Version(u32),
    /// FFA_MEM_RETRIEVE_RESP, with the length of the response, which RX is filled with.
    Response(u32, Vec<u8>),
}

impl Answer {
    /// The registers, and what RX is filled with.
    pub(crate) fn into_reply(self) -> Reply
        ensures { result ≡ replied self }
    {
        match self {
            Answer::Success(w2, w3) => Reply::success(w2, w3),
            Answer::Version(word) => Reply::version(word),
            Answer::Response(length, bytes) => {
                let regs = Reply::response(length).regs;
                Reply {
                    regs,
                    rx: Some(bytes),
                }
            }
        }
    }
}

/// What a call changes, and what it is answered. It has taken the memory that it needs but for the
/// room in the lists of the tables and of the ledger.
#[derive(Drop)]
pub(crate) struct Change {
    pub(crate) edit: Option<Edit>,
    pub(crate) update: Update,
    pub(crate) answer: Answer,
}

impl Change {
    /// The call changes nothing.
    pub(crate) fn nothing(answer: Answer) -> Self
        ensures { result ≡ record { edit = None; update = Update.Nothing; answer = answer } }
    {
        Change::of_state(Update::Nothing, answer)
    }

    /// The call changes the state, and nothing of what is reached.
    pub(crate) fn of_state(update: Update, answer: Answer) -> Self
        ensures { result ≡ record { edit = None; update = update; answer = answer } }
    {
        Change {
            edit: None,
            update,
            answer,
        }
    }
}

/// Why a call changes nothing.
#[derive(Clone, Copy, Debug, PartialEq, Eq)]
pub(crate) enum Stop {
    /// A test of the call failed.
    Refused(Status),
    /// A growth of the heap was refused.
    NoMemory(OutOfMemory),
}
