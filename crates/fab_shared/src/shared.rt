//! The calls of a shared fabric.
ghost use Rattle.std.specs.Prelude.{◌≡◌, ◌∷◌, [], ℕ, Some, IsSome, IfOk, IfErr, OnErr, false};
ghost use mathlib.Core.List.{IsPrefix};
ghost use Rattle.fab_policy.specs.declared.event.Event.TheVariants.{Frame};
ghost use Rattle.fab_turn.specs.Views.{has_port};
ghost use Rattle.fab_turn.specs.Steps.{longer};
ghost use Rattle.fab_turn.specs.Lock.{seen, own, given, kept, IsPassOf, IsRootOf, IsIdle, IsSamePass, IsInSameTurn, AllJoined};
ghost use Rattle.fab_shared.specs.Frames.{frames_of};
ghost use Rattle.fab_shared.specs.Shared.{opened, IsStep, Closes};

use crate::locked::{LockedFabric, Pass};
use fab_base::{NoMemory, PortNo};
use fab_policy::Verdict;
use fab_states::fabrics_go_on;
use fab_turn::TurnLock;
use forward_core::{Fabric, StepFault};
use heard_frames::Heard;
use std::alloc::Global;
use std::sync::Wait;

/// A fabric under a lock of turns.
#[derive(Drop)]
pub struct SharedFabric {
    pub(crate) lock: TurnLock<LockedFabric>,
}

impl SharedFabric {
    /// The fabric under a lock, and the root pass. All memory of the lock is asked for here: where
    /// it is refused, the fabric comes back.
    pub fn open(alloc: Global, fabric: Fabric) -> Result<(SharedFabric, Pass), (Fabric, NoMemory)>
        ensures root { IfOk result (λ r. IsRootOf r.0.lock r.1 × IsIdle r.1) }
        ensures first { IfOk result (λ r. opened r.0 ≡ fabric) }
        ensures lists { IfOk result (λ r. (seen r.1 ≡ frames_of fabric.events)
            × (given r.1 ≡ []) × (kept r.1 ≡ [])) }
        ensures err { IfErr result (λ e. e.0 ≡ fabric) }
    {
        match TurnLock::open(alloc, LockedFabric { fabric }) {
            Ok((lock, root)) => Ok((SharedFabric { lock }, root)),
            Err((locked, refused)) => Err((locked.fabric, refused)),
        }
    }

    /// A pass for a port, which takes no memory. A pass that is dropped can never be joined, and
    /// then the fabric never comes back: ask for the memory of whoever works with the passes
    /// before the first split.
    pub fn split(&self, root: &mut Pass, port: PortNo) -> Pass
        requires root { IsRootOf self.now.lock root.old × IsIdle root.old }
        requires new_port { has_port port (given root.old) ≡ false }
        ensures root { IsRootOf self.now.lock root.new × IsIdle root.new }
        ensures lists { (seen root.new ≡ seen root.old) × (given root.new ≡ port ∷ given root.old)
            × (kept root.new ≡ kept root.old) }
        ensures pass { IsPassOf self.now.lock result × IsIdle result × (result.port ≡ Some port) }
        ensures new_lists { (seen result ≡ seen root.old) × (own result ≡ []) }
    {
        self.lock.split(root, port)
    }

    /// Has the fabric handle a frame of the pass's port, the one of that index, in one turn, for
    /// which it may wait. Where memory is refused the turn has passed without an entry.
    pub fn submit(
        &self,
        rt: &impl Wait,
        alloc: Global,
        pass: &mut Pass,
        index: u64,
        heard: &Heard<'_>,
    ) -> Result<Verdict, NoMemory>
        requires pass { IsPassOf self.now.lock pass.old × IsIdle pass.old }
        requires port { IsSome pass.old.port }
        requires clock { IsSome (opened self.now).state.tables.clock }
        ensures pass { IsPassOf self.now.lock pass.new × IsIdle pass.new
            × IsSamePass pass.old pass.new }
        ensures step { IfOk result (λ v. (port : ℕ) → pass.old.port ≡ Some port → IsStep
            (opened self.now) (Frame port index heard.now.caught.now v) pass.old pass.new) }
        ensures seen { IsPrefix (seen pass.old) (seen pass.new) }
        ensures refused { OnErr result (own pass.new ≡ own pass.old) }
    {
        // Law: a fabric grows by a frame that it takes with a right verdict, as a turn's end wants.
        fabrics_go_on();
        let Some(port) = pass.port() else {
            unreachable!()
        };
        let mut locked = self.lock.turn(rt, pass);
        match locked.fabric.step(alloc, port, index, heard, None) {
            Ok(verdict) => {
                self.lock.finish(pass, locked);
                Ok(verdict)
            }
            Err(StepFault::Memory) => {
                self.lock.finish_without(pass, locked);
                Err(NoMemory)
            }
            Err(StepFault::WishTaken) => unreachable!(),
        }
    }

    /// Takes a pass back, and the root keeps its own list.
    pub fn join(&self, root: &mut Pass, pass: Pass)
        requires root { IsRootOf self.now.lock root.old }
        requires pass { IsPassOf self.now.lock pass × IsIdle pass }
        ensures root { IsRootOf self.now.lock root.new × IsInSameTurn root.old root.new }
        ensures seen { seen root.new ≡ longer (seen root.old) (seen pass) }
        ensures begins { IsPrefix (seen root.old) (seen root.new)
            × IsPrefix (seen pass) (seen root.new) }
        ensures given { given root.new ≡ given root.old }
        ensures kept { (port : ℕ) → pass.port ≡ Some port →
            kept root.new ≡ (port, own pass) ∷ kept root.old }
    {
        self.lock.join(root, pass);
    }

    /// The fabric, once each pass was joined.
    pub fn close(self, root: Pass) -> Fabric
        requires root { IsRootOf self.lock root × IsIdle root }
        requires joined { AllJoined root }
        ensures { Closes (opened self) root result }
    {
        let SharedFabric { lock } = self;
        let LockedFabric { fabric } = lock.close(root);
        fabric
    }
}
