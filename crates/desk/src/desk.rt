//! One book under a lock, and the seats around it.

ghost use Rattle.std.specs.Prelude.{◌≡◌, ◌<◌, ◌+◌, [], ◌∷◌, ◌++◌, length, IfOk, OnOk, OnErr, All};
ghost use Rattle.desk.specs.declared.pass.View.TheVariants.{Keeper, Seated};
ghost use Rattle.std.specs.List.{AllByRecursion};
ghost use Rattle.desk.specs.Books.{manifest_of, IsRun};
ghost use Rattle.desk.specs.Receipts.{next_receipt, receipts_at};
ghost use Rattle.desk.specs.Passes.{known, newcomer, known_of, seen_of, AreDistinct, IsKeeper, IsSeat};
ghost use Rattle.desk.specs.Seats.{IsServed, Sees, AreSettled, numbers_of, receipts_of, items_of, first_numbers};

use crate::book::Book;
use crate::naming::Naming;
use crate::pass::{Pass, Passes, note, open};
use crate::receipt::Receipt;
use crate::seat::Seat;
use base::OutOfMemory;
use manifest::Manifest;
use spm::Call;
use std::alloc::Global;
use std::marker::{Model, PhantomData};
use std::sync::{Mutex, Wait};

/// What lies under the lock: the book, and the pass that knows all of its calls.
#[derive(Drop)]
struct Shelf<J: Naming> {
    book: Book,
    keeper: Pass,
    of: PhantomData<J>,
}

impl<J: Naming> Model for Shelf<J> {
    ghost use Rattle.std.specs.Prelude.{◌≡◌, []};
    ghost use Rattle.desk.specs.Books.{BookView, manifest_of, IsRun};
    ghost use Rattle.desk.specs.declared.pass.View.TheVariants.{Keeper};
    ghost use Rattle.desk.specs.Passes.{known};

    ghost Value = { BookView };

    ghost view = { λ s. s.book };

    ghost invariant = { λ s. (s.keeper.table_id ≡ J.table)
        × (s.keeper.me ≡ (Keeper (known s.book.calls [] 8), []))
        × (manifest_of s.book ≡ J.manifest) × IsRun s.book };
}

impl<J: Naming> Shelf<J> {
    /// Answers a call of a seat, and lets the seat's pass know of it.
    fn answer(
        &mut self,
        passes: &Passes,
        seat: u8,
        pass: &mut Pass,
        call: Call,
    ) -> Result<Receipt, OutOfMemory>
        requires below { seat < 8 }
        requires words { passes.now.shared.table_id.words ≡ 1 }
        requires table { passes.now.shared.table_id ≡ J.table }
        requires same { pass.old.table_id ≡ J.table }
        requires seat { IsSeat seat pass.old.me }
        ensures same { pass.new.table_id ≡ J.table }
        ensures told { IfOk result (Sees J.manifest seat call
            (seen_of pass.old.me.0) pass.new.me) }
        ensures err { OnErr result (pass.new ≡ pass.old) }
    {
        let receipt = self.book.submit(seat, call)?;
        let calls = self.book.calls();
        note(passes, &mut self.keeper, pass, &calls[calls.len() - 1]);
        Ok(receipt)
    }
}

/// A book under a lock, for the threads that sit at the seats with its name.
#[derive(Drop)]
pub struct Desk<J: Naming> {
    passes: Passes,
    shelf: Mutex<Shelf<J>>,
    ghost table: { passes.shared.table_id ≡ J.table },
    ghost words: { passes.shared.table_id.words ≡ 1 },
}

/// A book with no calls, which has no name yet. Contracts see its passes' table and its manifest.
#[derive(Drop)]
pub struct Opened {
    passes: Passes,
    keeper: Pass,
    book: Book,
    alloc: Global,
}

impl Model for Opened {
    ghost use Rattle.std.specs.Prelude.{◌≡◌, []};
    ghost use Rattle.desk.specs.Names.{Name};
    ghost use Rattle.desk.specs.Books.{manifest_of, IsRun};
    ghost use Rattle.desk.specs.Passes.{newcomer};

    ghost Value = { Name };

    ghost view = { λ o. record {
      table = o.passes.shared.table_id;
      manifest = manifest_of o.book;
    } };

    ghost invariant = { λ o. (o.passes.shared.table_id.words ≡ 1)
        × (o.keeper.table_id ≡ o.passes.shared.table_id)
        × (o.keeper.me ≡ (newcomer, []))
        × (o.book.calls ≡ []) × IsRun o.book };
}

impl Opened {
    /// Boots the manager of a manifest. Where memory runs out there is no desk.
    pub fn new(alloc: Global, manifest: Manifest) -> Result<Self, OutOfMemory>
        ensures { IfOk result (λ o. o.manifest ≡ manifest) }
    {
        let book = Book::new(alloc, manifest)?;
        let (passes, keeper) = open(alloc)?;
        Ok(Opened {
            passes,
            keeper,
            book,
            alloc,
        })
    }

    /// The desk under a name, and its seats, with the numbers 0 to 7 and no receipts.
    pub fn named<J: Naming>(self) -> (Desk<J>, [Seat<J>; 8])
        requires table { self.table ≡ J.table }
        requires manifest { self.manifest ≡ J.manifest }
        ensures numbers { numbers_of result.1 ≡ first_numbers }
        ensures receipts { All (λ s. s.receipts ≡ []) result.1 }
    {
        let Opened {
            passes,
            mut keeper,
            book,
            alloc,
        } = self;
        let seats = [
            Seat::new(alloc, &passes, &mut keeper, 0),
            Seat::new(alloc, &passes, &mut keeper, 1),
            Seat::new(alloc, &passes, &mut keeper, 2),
            Seat::new(alloc, &passes, &mut keeper, 3),
            Seat::new(alloc, &passes, &mut keeper, 4),
            Seat::new(alloc, &passes, &mut keeper, 5),
            Seat::new(alloc, &passes, &mut keeper, 6),
            Seat::new(alloc, &passes, &mut keeper, 7),
        ];
        let shelf = Mutex::new(Shelf {
            book,
            keeper,
            of: PhantomData,
        });
        (Desk { passes, shelf }, seats)
    }
}

impl<J: Naming> Desk<J> {
    /// Answers a call, for which the seat then has a receipt. It waits until no other seat's call
    /// is being answered. Want of memory leaves the seat as it was.
    pub fn submit<R: Wait>(&self, rt: &R, seat: &mut Seat<J>, call: Call) -> Result<(), OutOfMemory>
        ensures number { seat.new.number ≡ seat.old.number }

        // The seat has one receipt more, by the run of a list of calls that ends with this one.
        ensures answered { OnOk result (IsServed J.manifest call seat.old seat.new) }
        ensures err { OnErr result (seat.new ≡ seat.old) }
    {
        seat.receipts.reserve(1)?;
        let number = seat.number;
        let receipt = self
            .shelf
            .lock(rt)
            .answer(&self.passes, number, &mut seat.pass, call)?;
        seat.receipts.push_reserved(receipt);
        Ok(())
    }

    /// The book, and the receipts of the seats, in the order in which the seats are handed in.
    pub fn close(self, seats: [Seat<J>; 8]) -> (Book, [Vec<Receipt>; 8])
        ensures manifest { manifest_of result.0 ≡ J.manifest }
        ensures receipts { items_of result.1 ≡ receipts_of seats }

        // Each call of the book has exactly one receipt, at its own seat, and there are no others.
        ensures settled { AreSettled J.manifest result.0.calls seats }
    {
        let Desk { passes, shelf } = self;
        let Shelf {
            book,
            mut keeper,
            of: _,
        } = shelf.into_inner();
        let receipts = bring_home(&passes, &mut keeper, seats);
        (book, receipts)
    }
}

/// The receipts of all seats, as they come home.
fn bring_home<J: Naming>(
    passes: &Passes,
    keeper: &mut Pass,
    seats: [Seat<J>; 8],
) -> [Vec<Receipt>; 8]
    requires words { passes.now.shared.table_id.words ≡ 1 }
    requires table { passes.now.shared.table_id ≡ J.table }
    requires same { keeper.old.table_id ≡ J.table }
    requires keeper { IsKeeper keeper.old.me }
    requires nobody_home { (known_of keeper.old.me.0).home ≡ [] }
    ensures receipts { items_of result ≡ receipts_of seats }
    ensures whole { AllByRecursion (λ s. s.receipts
        ≡ receipts_at J.manifest s.number (known_of keeper.old.me.0).history) seats }
    ensures below { AllByRecursion (λ n. n < 8) (numbers_of seats) }
    ensures apart { AreDistinct (numbers_of seats) }
{
    let [a, b, c, d, e, f, g, h] = seats;
    [
        a.go_home(passes, keeper),
        b.go_home(passes, keeper),
        c.go_home(passes, keeper),
        d.go_home(passes, keeper),
        e.go_home(passes, keeper),
        f.go_home(passes, keeper),
        g.go_home(passes, keeper),
        h.go_home(passes, keeper),
    ]
}
