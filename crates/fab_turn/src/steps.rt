//! One private function for each kind of step.
ghost use Rattle.std.specs.Prelude.{◌≡◌, ◌≢◌, ◌++◌, ◌∷◌, ◌%◌, ◌^◌, ◌<◌, [], ℕ, List, true, false, Some, None, IfSome, length, drop};
ghost use mathlib.Core.List.{IsPrefix};
ghost use Rattle.fab_turn.specs.declared.view.Role.TheVariants.{Of};
ghost use Rattle.fab_turn.specs.Views.{has_port, of_port};
ghost use Rattle.fab_turn.specs.Steps.{Serves, MayEnd, entries_in, with_ticket, after_turn, gave, worker, joined};
ghost use Rattle.fab_turn.specs.Lock.{first_of, view, taken, seen, own, given, kept, IsPassOf, IsRootOf, IsIdle, InTurn, Moved};

use crate::board::{Pass, TurnLock};
use crate::plays::{Compare, Draw, Finish, Give, Look, Naming, TakeIn};
use crate::rule::Chronicle;
use fab_base::PortNo;

/// Word 0 counts the tickets.
const TICKETS: usize = 0;

/// Word 1 is the serving number.
const SERVING: usize = 1;

impl<V: Chronicle> TurnLock<V> {
    // Draws a ticket.
    pub(crate) fn draw(&self, pass: &mut Pass<V>) -> u64
        requires { IsPassOf self.now pass.old × IsIdle pass.old }
        ensures { (t : ℕ) × (result ≡ t % 2 ^ 64)
            × Moved pass.old pass.new (with_ticket (view pass.old) t, []) }
    {
        self.table
            .shared
            .fetch_add::<Draw>(&mut pass.seat, TICKETS, 1)
    }

    // The serving number. Where it is the ticket, the slot came to the pass.
    pub(crate) fn look(&self, pass: &mut Pass<V>) -> u64
        requires { IsPassOf self.now pass.old × ((view pass.old).served ≡ false)
            × (pass.old.seat.me.1 ≡ []) × ((t : ℕ) × ((view pass.old).ticket ≡ Some t)) }
        ensures pass { (pass.new.port ≡ pass.old.port)
            × (pass.new.seat.table_id ≡ pass.old.seat.table_id) }
        ensures served { (t : ℕ) → (view pass.old).ticket ≡ Some t → result ≡ t % 2 ^ 64 →
            Serves V.entries V.grown pass.old.seat.me pass.new.seat.me }
        ensures waits { (t : ℕ) → (view pass.old).ticket ≡ Some t → result ≢ t % 2 ^ 64 →
            pass.new.seat.me ≡ pass.old.seat.me }
    {
        self.table.shared.load::<Look<V>>(&mut pass.seat, SERVING)
    }

    // Takes the value out of the slot.
    pub(crate) fn take(&self, pass: &mut Pass<V>) -> V
        requires { (pass.old.seat.table_id ≡ self.now.table.shared.table_id)
            × ((value : V) × (pass.old.seat.me.1 ≡ (0, Some value) ∷ [])) }
        ensures value { pass.old.seat.me.1 ≡ (0, Some result) ∷ [] }
        ensures pass { Moved pass.old pass.new (view pass.old, (0, None) ∷ []) }
    {
        self.table.shared.exchange(&mut pass.seat, 0, None).unwrap()
    }

    // Puts the value into the slot.
    pub(crate) fn put_back(&self, pass: &mut Pass<V>, value: V)
        requires { (pass.old.seat.table_id ≡ self.now.table.shared.table_id)
            × (pass.old.seat.me.1 ≡ (0, None) ∷ []) }
        ensures { Moved pass.old pass.new (view pass.old, (0, Some value) ∷ []) }
    {
        match self.table.shared.exchange(&mut pass.seat, 0, Some(value)) {
            None => {}
            Some(_) => unreachable!(),
        }
    }

    // Gives the slot back, and raises the serving number. The value has some more entries, all of
    // the pass's port.
    pub(crate) fn end(&self, pass: &mut Pass<V>)
        requires pass { IsPassOf self.now pass.old }
        requires turn { MayEnd V.entries V.port_of V.grown (first_of self.now) pass.old.seat.me }
        ensures { Moved pass.old pass.new (
          after_turn (view pass.old)
              (entries_in V.entries pass.old.seat.me.1),
          [],
        ) }
    {
        self.table
            .shared
            .fetch_add::<Finish<V>>(&mut pass.seat, SERVING, 1);
    }

    // Cuts off a pass for a port.
    pub(crate) fn give<N: Naming>(&self, root: &mut Pass<V>, port: PortNo) -> Pass<V>
        requires root { IsRootOf self.now root.old × IsIdle root.old }
        requires new_port { has_port port (given root.old) ≡ false }
        requires named { port ≡ N.port }
        ensures root { Moved root.old root.new (gave port (view root.old), []) }
        ensures pass { IsPassOf self.now result × (result.port ≡ Some port)
            × (result.seat.me ≡ (worker port (view root.old), [])) }
    {
        // For the proof: the range of the port's number is known once it is read.
        let _number = port.value();
        let seat = self.table.shared.split_seat::<Give<N>>(&mut root.seat);
        Pass {
            seat,
            port: Some(port),
        }
    }

    // Tells how the two histories of the last join lay.
    pub(crate) fn compare(&self, root: &mut Pass<V>)
        requires { IsPassOf self.now root.old }
        ensures same { Moved root.old root.new root.old.seat.me }
        ensures met { IsPrefix (view root.old).met (seen root.old) }
    {
        self.read(root, TICKETS);
    }

    // Whether nobody has or awaits a turn, as far as two words show that are read one after the
    // other.
    pub(crate) fn seems_free(&self, pass: &mut Pass<V>) -> bool
        requires { IsPassOf self.now pass.old }
        ensures { Moved pass.old pass.new pass.old.seat.me }
    {
        let serving = self.read(pass, SERVING);
        serving == self.read(pass, TICKETS)
    }

    // A word, by a step that changes nothing.
    fn read(&self, pass: &mut Pass<V>, word: usize) -> u64
        requires pass { IsPassOf self.now pass.old }
        requires word { word < 2 }
        ensures same { Moved pass.old pass.new pass.old.seat.me }
        ensures met { IsPrefix (view pass.old).met (seen pass.old) }
    {
        self.table.shared.load::<Compare>(&mut pass.seat, word)
    }

    // Takes a pass in.
    pub(crate) fn take_in(&self, root: &mut Pass<V>, pass: Pass<V>)
        requires root { IsRootOf self.now root.old }
        requires pass { IsPassOf self.now pass × IsIdle pass }
        ensures { Moved root.old root.new (joined (view root.old) (view pass), root.old.seat.me.1) }
    {
        let Pass { seat, port: _ } = pass;
        self.table.shared.join_seat::<TakeIn>(&mut root.seat, seat);
    }
}
