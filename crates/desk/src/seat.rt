//! Seats, and their receipts.

ghost use Rattle.std.specs.Prelude.{◌≡◌, ◌<◌, [], ◌++◌, ◌∷◌};
ghost use Rattle.desk.specs.declared.pass.View.TheVariants.{Keeper};
ghost use Rattle.desk.specs.Receipts.{AreReceiptsOf, receipts_at};
ghost use Rattle.desk.specs.Passes.{known_of, with_seat, known, IsKeeper, AreDistinct};

use crate::naming::Naming;
use crate::pass::{Pass, Passes, deal, take_home};
use crate::receipt::Receipt;
use std::alloc::Global;
use std::marker::{Model, PhantomData};

/// A seat at a desk, from which one thread at a time makes calls. It keeps the receipts of its
/// calls, in order. Contracts see its number, its receipts, and the calls of the desk up to its own
/// last one.
#[derive(Drop)]
pub struct Seat<J: Naming> {
    pub(crate) number: u8,
    pub(crate) receipts: Vec<Receipt>,
    pub(crate) pass: Pass,
    of: PhantomData<J>,
}

impl<J: Naming> Model for Seat<J> {
    ghost use Rattle.std.specs.Prelude.{◌≡◌};
    ghost use Rattle.desk.specs.Seats.{SeatView, IsSettled};
    ghost use Rattle.desk.specs.Passes.{seen_of, IsSeat};

    ghost Value = { SeatView };

    ghost view = { λ s. record {
      number = s.number;
      seen = seen_of s.pass.me.0;
      receipts = s.receipts.items;
    } };

    ghost invariant = { λ s. (s.pass.table_id ≡ J.table) × IsSeat s.number s.pass.me
        × IsSettled J.manifest (record {
          number = s.number;
          seen = seen_of s.pass.me.0;
          receipts = s.receipts.items;
        }) };
}

impl<J: Naming> Seat<J> {
    /// The next seat of a desk with an empty book.
    pub(crate) fn new(alloc: Global, passes: &Passes, keeper: &mut Pass, number: u8) -> Self
        requires words { passes.now.shared.table_id.words ≡ 1 }
        requires table { passes.now.shared.table_id ≡ J.table }
        requires same { keeper.old.table_id ≡ J.table }
        requires keeper { keeper.old.me ≡ (Keeper (known [] [] number), []) }
        requires below { number < 8 }
        ensures same { keeper.new.table_id ≡ J.table }
        ensures keeper { keeper.new.me ≡ (Keeper (with_seat (known [] [] number)), []) }
        ensures number { result.number ≡ number }
        ensures receipts { result.receipts ≡ [] }
        ensures seen { result.seen ≡ [] }
    {
        let pass = deal(passes, keeper);
        Seat {
            number,
            receipts: Vec::new(alloc),
            pass,
            of: PhantomData,
        }
    }

    /// The number of the seat, below 8.
    pub fn number(&self) -> u8
        ensures same { result ≡ self.now.number }
        ensures below { result < 8 }
    {
        self.number
    }

    /// The receipts of the seat's calls, in order: those of the run of the desk's manifest over the
    /// calls up to the seat's last one.
    pub fn receipts(&self) -> &[Receipt]
        ensures same { result.now ≡ self.now.receipts }
        ensures settled { AreReceiptsOf J.manifest self.now.seen self.now.number result.now }
    {
        &self.receipts
    }

    /// The receipts, as the seat comes home. They are those of all its calls.
    pub(crate) fn go_home(self, passes: &Passes, keeper: &mut Pass) -> Vec<Receipt>
        requires words { passes.now.shared.table_id.words ≡ 1 }
        requires table { passes.now.shared.table_id ≡ J.table }
        requires same { keeper.old.table_id ≡ J.table }
        requires keeper { IsKeeper keeper.old.me }
        requires apart { AreDistinct (known_of keeper.old.me.0).home }
        ensures same { keeper.new.table_id ≡ J.table }
        ensures keeper { IsKeeper keeper.new.me }
        ensures history { (known_of keeper.new.me.0).history ≡ (known_of keeper.old.me.0).history }
        ensures home { (known_of keeper.new.me.0).home
            ≡ (known_of keeper.old.me.0).home ++ self.number ∷ [] }
        ensures apart { AreDistinct (known_of keeper.new.me.0).home }
        ensures same_receipts { result.items ≡ self.receipts }
        ensures receipts { self.receipts
            ≡ receipts_at J.manifest self.number (known_of keeper.old.me.0).history }
        ensures below { self.number < 8 }
    {
        let Seat {
            number: _,
            receipts,
            pass,
            of: _,
        } = self;
        take_home(passes, keeper, pass);
        receipts
    }
}
