//! What ties the seats to the book: passes, which take no bytes, and what each knows of the
//! history.

ghost use Rattle.std.specs.Prelude.{◌≡◌, [], ◌∷◌, ◌++◌, IfOk};
ghost use Rattle.desk.specs.declared.pass.View.TheVariants.{Keeper, Seated, Meeting};
ghost use Rattle.desk.specs.Passes.{newcomer, known_of, number_of, seen_of, with_call, with_home, with_seat, IsOut, IsKeeper, IsSeat};

use crate::entry::Entry;
use atomic_table::{Join, Play, Seat, Split, Table, TableRule};
use std::alloc::{AllocError, Global};
use std::collections::LinkedList;
use std::mem;

/// What the keeper knows: the whole history, the seats that came home, and how many seats there
/// are.
pub struct Known {
    pub history: LinkedList<Entry>,
    pub home: LinkedList<u8>,
    pub seats: u8,
}

/// What a pass knows. No value of it is made.
pub enum View {
    Nothing,
    Keeper(Known),
    Seated(u8, LinkedList<Entry>),
    /// The keeper, with what a seat knows.
    Meeting(Known, u8, LinkedList<Entry>),
}

/// The rule of the passes.
pub struct Law;

impl TableRule<Entry, View, ()> for Law {
    ghost use Rattle.desk.specs.Passes.{Kept, newcomer};

    ghost holds = { λ _ s. Kept s.views };

    ghost first = { λ _. newcomer };
}

/// The passes of one desk.
pub type Passes = Table<Entry, View, (), Law, Global>;

/// A view of the history.
pub type Pass = Seat<Entry, View>;

/// The keeper makes a seat.
struct Issue;

impl Split<View> for Issue {
    ghost use Rattle.desk.specs.Passes.{issuing, issued};

    ghost left = { issuing };

    ghost right = { issued };
}

/// A pass that knows nothing.
struct Spare;

impl Split<View> for Spare {
    ghost use Rattle.desk.specs.Passes.{nothing};

    ghost left = { λ v. v };

    ghost right = { λ _. nothing };
}

/// The keeper takes in what a seat knows, or leaves it.
struct Meet;

impl Join<View> for Meet {
    ghost use Rattle.desk.specs.Passes.{met, nothing};

    ghost both = { met };

    ghost spent = { nothing };
}

impl Split<View> for Meet {
    ghost use Rattle.desk.specs.Passes.{keeper_of, seat_of};

    ghost left = { keeper_of };

    ghost right = { seat_of };
}

/// The keeper and a seat add a call.
struct Add;

impl Play<Entry, View> for Add {
    ghost use Rattle.desk.specs.Passes.{Adds};

    ghost then = { Adds };
}

/// A seat comes home.
struct Home;

impl Play<Entry, View> for Home {
    ghost use Rattle.desk.specs.Passes.{ComesHome};

    ghost then = { ComesHome };
}

/// The passes of a desk with an empty history, and the keeper's.
pub(crate) fn open(alloc: Global) -> Result<(Passes, Pass), AllocError>
    ensures words { IfOk result (λ t. t.0.shared.table_id.words ≡ 1) }
    ensures same { IfOk result (λ t. t.1.table_id ≡ t.0.shared.table_id) }
    ensures keeper { IfOk result (λ t. t.1.me ≡ (newcomer, [])) }
{
    Passes::of_words(alloc, &[0], &())
}

/// The pass of the next seat.
pub(crate) fn deal(passes: &Passes, keeper: &mut Pass) -> Pass
    requires words { passes.now.shared.table_id.words ≡ 1 }
    requires same { keeper.old.table_id ≡ passes.now.shared.table_id }
    requires keeper { IsKeeper keeper.old.me }
    requires nobody_home { (known_of keeper.old.me.0).home ≡ [] }
    ensures same { (keeper.new.table_id ≡ keeper.old.table_id) × (result.table_id
        ≡ keeper.old.table_id) }
    ensures keeper { keeper.new.me ≡ (Keeper (with_seat (known_of keeper.old.me.0)), []) }
    ensures seat { result.me
        ≡ (Seated (known_of keeper.old.me.0).seats (known_of keeper.old.me.0).history, []) }
{
    passes.shared.split_seat::<Issue>(keeper)
}

/// Adds a call of a seat to what the keeper and the seat know.
pub(crate) fn note(passes: &Passes, keeper: &mut Pass, seat: &mut Pass, entry: &Entry)
    requires words { passes.now.shared.table_id.words ≡ 1 }
    requires same { (keeper.old.table_id ≡ passes.now.shared.table_id) × (seat.old.table_id
        ≡ passes.now.shared.table_id) }
    requires keeper { IsKeeper keeper.old.me }
    requires seat { IsSeat entry.now.seat seat.old.me }
    ensures same { (keeper.new.table_id ≡ keeper.old.table_id) × (seat.new.table_id
        ≡ seat.old.table_id) }
    ensures keeper { keeper.new.me ≡ (Keeper (with_call (known_of keeper.old.me.0) entry.now), []) }
    ensures seat { seat.new.me
        ≡ (Seated entry.now.seat ((known_of keeper.old.me.0).history ++ entry.now ∷ []), []) }
    ensures known { IsOut (known_of keeper.old.me.0) entry.now.seat (seen_of seat.old.me.0) }
{
    let spare = passes.shared.split_seat::<Spare>(keeper);
    let guest = mem::replace(seat, spare);
    passes.shared.join_seat::<Meet>(keeper, guest);
    passes
        .shared
        .compare_exchange_with::<Add>(keeper, 0, 0, 0, entry);
    *seat = passes.shared.split_seat::<Meet>(keeper);
}

/// Takes a seat's pass home.
pub(crate) fn take_home(passes: &Passes, keeper: &mut Pass, seat: Pass)
    requires words { passes.now.shared.table_id.words ≡ 1 }
    requires same { (keeper.old.table_id ≡ passes.now.shared.table_id) × (seat.table_id
        ≡ passes.now.shared.table_id) }
    requires keeper { IsKeeper keeper.old.me }
    requires seat { IsSeat (number_of seat.me.0) seat.me }
    ensures same { keeper.new.table_id ≡ keeper.old.table_id }
    ensures keeper { keeper.new.me
        ≡ (Keeper (with_home (known_of keeper.old.me.0) (number_of seat.me.0)), []) }
    ensures known { IsOut (known_of keeper.old.me.0) (number_of seat.me.0) (seen_of seat.me.0) }
{
    passes.shared.join_seat::<Meet>(keeper, seat);
    passes.shared.load::<Home>(keeper, 0);
}
