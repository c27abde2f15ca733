//! The calls of the lock.
ghost use Rattle.std.specs.Prelude.{◌≡◌, ◌++◌, ◌∷◌, [], ℕ, List, true, false, Some, None, IfOk, IfErr};
ghost use mathlib.Core.List.{IsPrefix};
ghost use Rattle.fab_turn.specs.Views.{has_port, kept_list, of_port};
ghost use Rattle.fab_turn.specs.Steps.{longer};
ghost use Rattle.fab_turn.specs.Lock.{first_of, taken, seen, own, given, kept, IsPassOf, IsRootOf, IsIdle, InTurn, IsSamePass, IsInSameTurn, AllJoined, Moved};

use crate::board::{Pass, TurnLock};
use crate::rule::Chronicle;
use atomic_table::{Refused, Table};
use fab_base::{NoMemory, PortNo};
use std::alloc::Global;
use std::marker::Brand;
use std::snapshot::Snapshot;
use std::sync::Wait;
use std::thread;

/// How often a thread looks for a pause between turns before it draws a ticket all the same.
const PAUSE_LOOKS: u32 = 3200;

/// After so many of these looks it yields its processor.
const YIELD_EVERY: u32 = 32;

/// How often a thread with a ticket looks before it yields its processor at each look.
const TICKET_LOOKS: u32 = 300;

impl<V: Chronicle> Pass<V> {
    /// None for the root pass.
    pub fn port(&self) -> Option<PortNo>
        ensures { result ≡ self.now.port }
    {
        self.port
    }
}

impl<V: Chronicle> TurnLock<V> {
    /// The lock over `value`, and its root pass. All memory of the lock is asked for here: where it
    /// is refused, the value comes back.
    pub fn open(alloc: Global, value: V) -> Result<(TurnLock<V>, Pass<V>), (V, NoMemory)>
        ensures root { IfOk result (λ r. IsRootOf r.0 r.1 × IsIdle r.1) }
        ensures first { IfOk result (λ r. first_of r.0 ≡ value) }
        ensures lists { IfOk result (λ r. (seen r.1 ≡ V.entries value) × (given r.1 ≡ [])
            × (kept r.1 ≡ [])) }
        ensures err { IfErr result (λ e. e.0 ≡ value) }
    {
        let Ok(mut slots) = Vec::with_capacity(alloc, 1) else {
            return Err((value, NoMemory));
        };
        let about = Snapshot::of(&value);
        slots.push_reserved(Some(value));
        match Table::new(alloc, &[0, 0], slots, &about) {
            Ok((table, seat)) => {
                let lock = TurnLock { table };
                Ok((lock, Pass { seat, port: None }))
            }
            Err(Refused { mut slots }) => match slots.pop() {
                Some(Some(value)) => {
                    slots.destroy_empty();
                    Err((value, NoMemory))
                }
                _ => unreachable!(),
            },
        }
    }

    /// A pass for a port, which takes no memory. A pass that is dropped can never be joined, and
    /// then the lock can never be closed: ask for the memory of whoever works with the passes
    /// before the first split.
    pub fn split(&self, root: &mut Pass<V>, port: PortNo) -> Pass<V>
        requires root { IsRootOf self.now root.old × IsIdle root.old }
        requires new_port { has_port port (given root.old) ≡ false }
        ensures root { IsRootOf self.now root.new × IsIdle root.new }
        ensures lists { (seen root.new ≡ seen root.old) × (given root.new ≡ port ∷ given root.old)
            × (kept root.new ≡ kept root.old) }
        ensures pass { IsPassOf self.now result × IsIdle result × (result.port ≡ Some port) }
        ensures new_lists { (seen result ≡ seen root.old) × (own result ≡ []) }
    {
        self.give::<Brand>(root, port)
    }

    /// Waits some time for a pause between turns, draws a ticket, waits until those before it are
    /// over, and hands out the value. Nothing is said of how long that is.
    pub fn turn(&self, rt: &impl Wait, pass: &mut Pass<V>) -> V
        requires { IsPassOf self.now pass.old × IsIdle pass.old }
        ensures pass { IsPassOf self.now pass.new × InTurn pass.new × IsSamePass pass.old pass.new }
        ensures history { V.entries result ≡ taken pass.new }
        ensures seen { IsPrefix (seen pass.old) (V.entries result) }
        ensures own { own pass.new ≡ own pass.old }
        ensures grown { V.grown (first_of self.now) result }
    {
        self.wait_for_pause(pass);
        self.turn_by_ticket(rt, pass)
    }

    // Waits, at most some time, until nobody has or awaits a turn. A thread that waits with a
    // ticket and has no processor holds up all behind it, one that waits here holds up nobody.
    fn wait_for_pause(&self, pass: &mut Pass<V>)
        requires { IsPassOf self.now pass.old }
        ensures { Moved pass.old pass.new pass.old.seat.me }
    {
        for looks in 0..PAUSE_LOOKS {
            if self.seems_free(pass) {
                return;
            }
            if looks % YIELD_EVERY == 0 {
                thread::yield_now();
            }
        }
    }

    // A turn in the order of the tickets.
    fn turn_by_ticket(&self, rt: &impl Wait, pass: &mut Pass<V>) -> V
        requires { IsPassOf self.now pass.old × IsIdle pass.old }
        ensures pass { IsPassOf self.now pass.new × InTurn pass.new × IsSamePass pass.old pass.new }
        ensures history { V.entries result ≡ taken pass.new }
        ensures seen { IsPrefix (seen pass.old) (V.entries result) }
        ensures own { own pass.new ≡ own pass.old }
        ensures grown { V.grown (first_of self.now) result }
    {
        let ticket = self.draw(pass);
        let mut looks = 0u32;
        for _ in rt.forever() {
            if self.look(pass) == ticket {
                return self.take(pass);
            }
            if looks < TICKET_LOOKS {
                looks += 1;
            } else {
                thread::yield_now();
            }
        }
        unreachable!()
    }

    /// Ends a turn in which the value got one more entry, of the pass's port.
    pub fn finish(&self, pass: &mut Pass<V>, value: V)
        requires pass { IsPassOf self.now pass.old × InTurn pass.old }
        requires grown { V.grown (first_of self.now) value }
        requires entry { (entry : V.Entry) × (V.entries value ≡ taken pass.old ++ entry ∷ [])
            × (pass.old.port ≡ Some (V.port_of entry)) }
        ensures pass { IsPassOf self.now pass.new × IsIdle pass.new × IsSamePass pass.old pass.new }
        ensures seen { seen pass.new ≡ V.entries value }
        ensures own { (entry : V.Entry) → V.entries value ≡ taken pass.old ++ entry ∷ [] →
            own pass.new ≡ own pass.old ++ entry ∷ [] }
    {
        self.put_back(pass, value);
        self.end(pass);
    }

    /// Ends a turn in which the value got no entry.
    pub fn finish_without(&self, pass: &mut Pass<V>, value: V)
        requires pass { IsPassOf self.now pass.old × InTurn pass.old }
        requires grown { V.grown (first_of self.now) value }
        requires same { V.entries value ≡ taken pass.old }
        ensures pass { IsPassOf self.now pass.new × IsIdle pass.new × IsSamePass pass.old pass.new }
        ensures seen { seen pass.new ≡ V.entries value }
        ensures own { own pass.new ≡ own pass.old }
    {
        self.put_back(pass, value);
        self.end(pass);
    }

    /// Takes a pass back, and the root keeps its own list. The root may be in a turn of its own.
    pub fn join(&self, root: &mut Pass<V>, pass: Pass<V>)
        requires root { IsRootOf self.now root.old }
        requires pass { IsPassOf self.now pass × IsIdle pass }
        ensures root { IsRootOf self.now root.new × IsInSameTurn root.old root.new }
        ensures seen { seen root.new ≡ longer (seen root.old) (seen pass) }
        ensures begins { IsPrefix (seen root.old) (seen root.new)
            × IsPrefix (seen pass) (seen root.new) }
        ensures given { given root.new ≡ given root.old }
        ensures kept { (port : ℕ) → pass.port ≡ Some port →
            kept root.new ≡ (port, own pass) ∷ kept root.old }
    {
        self.take_in(root, pass);
        self.compare(root);
    }

    /// The value, once each pass was joined: its entries since the opening are those of the ports,
    /// each port's in the order of its turns.
    pub fn close(self, root: Pass<V>) -> V
        requires root { IsRootOf self root × IsIdle root }
        requires joined { AllJoined root }
        ensures grown { V.grown (first_of self) result }
        ensures seen { IsPrefix (seen root) (V.entries result) }
        ensures history { (since : List V.Entry)
            × (V.entries result ≡ V.entries (first_of self) ++ since)
            × ((port : ℕ) → of_port V.port_of port since ≡ kept_list port (kept root)) }
    {
        let TurnLock { table } = self;
        let Pass { seat, port: _ } = root;
        let mut closed = table.close_with(seat);
        let value = closed.take(0);
        closed.free();
        value.unwrap()
    }
}
