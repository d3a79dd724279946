//! The manager, with all that it was asked.

ghost use Rattle.std.specs.Prelude.{◌≡◌, ◌<◌, [], ◌∷◌, ◌++◌, length, IfOk, OnOk, OnErr};
ghost use Rattle.base.specs.State as state;
ghost use Rattle.spm.specs.Machine.{unchanged};
ghost use Rattle.rules.specs.Run as rules;
ghost use Rattle.desk.specs.Books.{IsRun, manifest_of};
ghost use Rattle.desk.specs.Receipts.{IsReceiptIn, entry, next_receipt};

use crate::entry::Entry;
use crate::receipt::Receipt;
use base::OutOfMemory;
use manifest::Manifest;
use pool::ListPool;
use spm::{Call, Spm};
use std::alloc::Global;
use std::marker::Model;

/// The manager, and the calls that it has answered since it was booted, in order, each with its
/// seat. In every value of the type the manager's state is that of the run of its manifest over the
/// calls.
#[derive(Drop)]
pub struct Book {
    spm: Spm<ListPool>,
    calls: Vec<Entry>,
}

impl Model for Book {
    ghost use Rattle.desk.specs.Books.{BookView, IsRun};

    ghost Value = { BookView };

    ghost view = { λ b. record { calls = b.calls.items; machine = b.spm } };

    ghost invariant = { λ b. IsRun (record { calls = b.calls.items; machine = b.spm }) };
}

impl Book {
    /// The book of a manager that was just booted: no call was answered.
    pub fn new(alloc: Global, manifest: Manifest) -> Result<Self, OutOfMemory>
        ensures calls { IfOk result (λ b. b.calls ≡ []) }
        ensures state { IfOk result (λ b. b.machine.state ≡ state.start manifest) }
        ensures run { IfOk result IsRun }
    {
        let spm = Spm::boot(alloc, manifest)?;
        Ok(Book {
            spm,
            calls: Vec::new(alloc),
        })
    }

    /// The calls that were answered, in order, each with its seat, whose number is below 8.
    pub fn calls(&self) -> &[Entry]
        ensures same { result.now ≡ self.now.calls }
        ensures run { IsRun self.now }
    {
        &self.calls
    }

    /// The manager, in the state of the run of its manifest over the calls.
    pub fn spm(&self) -> &Spm<ListPool>
        ensures same { result.now ≡ self.now.machine }
        ensures run { IsRun self.now }
    {
        &self.spm
    }

    /// Answers a call of a seat, and appends it. Want of memory leaves the calls, the state and the
    /// translation tables as they were; the list of the tables' last operations may then be empty.
    pub fn submit(&mut self, seat: u8, call: Call) -> Result<Receipt, OutOfMemory>
        requires { seat < 8 }
        ensures appended { OnOk result (self.new.calls ≡ self.old.calls ++ entry seat call ∷ []) }

        // The receipt is that of the call, at its place in the run over all calls so far.
        ensures receipt { IfOk result (λ r. r
            ≡ next_receipt (manifest_of self.old) self.old.calls call) }
        ensures in_run { IfOk result (IsReceiptIn (manifest_of self.new) self.new.calls seat) }
        ensures manifest { manifest_of self.new ≡ manifest_of self.old }
        ensures run { IsRun self.new }

        // Want of memory changes nothing.
        ensures err_calls { OnErr result (self.new.calls ≡ self.old.calls) }
        ensures err_machine { OnErr result (unchanged self.new.machine
            ≡ unchanged self.old.machine) }
    {
        self.calls.reserve(1)?;
        let reply = self.spm.handle(&call)?;
        let receipt = Receipt {
            place: self.calls.len() as u64,
            caller: call.caller,
            regs: call.regs,
            reply,
        };
        self.calls.push_reserved(Entry { seat, call });
        Ok(receipt)
    }
}
