//! Frames: one step each.
ghost use Rattle.std.specs.Prelude.{◌≡◌, ℕ, ◌∷◌, IfOk, OnOk, OnErr, IsErrOf, IsSome, Some};
ghost use Rattle.fab_judge.specs.Judged.{judgement_of, Grounds, HasValues};
ghost use Rattle.fab_policy.specs.Journal.{Journal};
ghost use Rattle.fab_policy.specs.Legal.{Legal};
ghost use Rattle.fab_policy.specs.Ranged.{IsRangedVerdict};
ghost use Rattle.fab_policy.specs.Standing.{Stands, Takes};
ghost use Rattle.fab_policy.specs.Verdicts as policy;
ghost use Rattle.fab_policy.specs.Verdicts.{IsRight};
ghost use Rattle.fab_policy.specs.declared.event.Event.TheVariants.{Frame};
ghost use Rattle.fab_policy.specs.declared.verdict.Verdict.TheVariants.{Granted};
ghost use Rattle.forward_core.specs.Arrived.{caught_of, entry_of};
ghost use Rattle.forward_core.specs.Fabric.{IsTaken};

use crate::Fabric;
use crate::arrived::Arrived;
use crate::granting::WishTaken;
use fab_base::{FcId, NoMemory, PortNo};
use fab_judge::{Judged, judge};
use fab_policy::{Verdict, fabric_steps, known_verdict};
use heard_frames::Heard;
use std::alloc::Global;

/// Why a step changed nothing.
#[derive(Clone, Copy, Debug, PartialEq, Eq)]
pub enum StepFault {
    /// The wished address isn't free for this login.
    WishTaken,
    /// Memory was refused.
    Memory,
}

impl From<NoMemory> for StepFault {
    ghost use Rattle.std.specs.Prelude.{◌≡◌};
    ghost use Rattle.forward_core.specs.declared.step.StepFault.TheVariants.{Memory};

    ghost from_gives = { λ _ e. e ≡ Memory };

    fn from(_refused: NoMemory) -> StepFault {
        StepFault::Memory
    }
}

impl From<WishTaken> for StepFault {
    ghost use Rattle.std.specs.Prelude.{◌≡◌};
    ghost use Rattle.forward_core.specs.declared.step.StepFault.TheVariants as fault;

    ghost from_gives = { λ _ e. e ≡ fault.WishTaken };

    fn from(_wish: WishTaken) -> StepFault {
        StepFault::WishTaken
    }
}

impl Fabric {
    /// Handles a frame of a port, the one of that index, and answers its verdict. A wish is the
    /// address that a login is to get; without one it gets any free address. After an error nothing
    /// has changed.
    pub fn step(
        &mut self,
        alloc: Global,
        port: PortNo,
        index: u64,
        heard: &Heard<'_>,
        wish: Option<FcId>,
    ) -> Result<Verdict, StepFault>
        requires clock { IsSome self.old.state.tables.clock }
        ensures right { IfOk result (λ v. IsRight self.old.settings self.old.state.tables port
            heard.now.caught.now v) }
        ensures takes { IfOk result (λ v.
            Takes self.old (Frame port index heard.now.caught.now v) self.new) }
        ensures journal { IfOk result (λ v. (J : Journal) → Legal self.old.settings J
            → Stands self.old J → let K = Frame port index heard.now.caught.now v ∷ J in
            Legal self.old.settings K × Stands self.new K) }
        ensures ranged { IfOk result IsRangedVerdict }
        ensures wished { IfOk result (λ v. (a b : ℕ) → wish ≡ Some a → v ≡ Granted b → b ≡ a) }
        ensures taken { IsErrOf result StepFault.WishTaken → IsTaken self.old.settings
            self.old.state.tables port heard.now.caught.now wish }
        ensures granted { OnOk result (IsTaken self.old.settings self.old.state.tables port
            heard.now.caught.now wish → ⊥) }
        ensures err { OnErr result (self.new ≡ self.old) }
    {
        // Law: with an entry that is right by its tables a fabric represents the longer journal,
        // which is legal if the one before was; the clause journal says so.
        fabric_steps();
        let Ok(judged) = judge(alloc, &self.config, &self.zones, &self.roster, port, heard) else {
            return Err(StepFault::Memory);
        };
        let arrived = Arrived { port, index, heard };
        self.take(alloc, &arrived, &judged, wish)
    }

    // Carries out what was judged, and answers its verdict.
    fn take(
        &mut self,
        alloc: Global,
        arrived: &Arrived<'_>,
        judged: &Judged<'_>,
        wish: Option<FcId>,
    ) -> Result<Verdict, StepFault>
        requires clock { IsSome self.old.state.tables.clock }
        requires judged { judgement_of judged.now ≡ policy.judged self.old.settings
            self.old.state.tables arrived.now.port (caught_of arrived.now) }
        requires grounds { Grounds self.old.settings self.old.state.tables arrived.now.port
            (caught_of arrived.now) judged.now }
        requires values { HasValues arrived.now.port (caught_of arrived.now) judged.now }
        ensures right { IfOk result (λ v. IsRight self.old.settings self.old.state.tables
            arrived.now.port (caught_of arrived.now) v) }
        ensures takes { IfOk result (λ v. Takes self.old (entry_of arrived.now v) self.new) }
        ensures ranged { IfOk result IsRangedVerdict }
        ensures wished { IfOk result (λ v. (a b : ℕ) → wish ≡ Some a → v ≡ Granted b → b ≡ a) }
        ensures taken { IsErrOf result StepFault.WishTaken → IsTaken self.old.settings
            self.old.state.tables arrived.now.port (caught_of arrived.now) wish }
        ensures granted { OnOk result (IsTaken self.old.settings self.old.state.tables
            arrived.now.port (caught_of arrived.now) wish → ⊥) }
        ensures err { OnErr result (self.new ≡ self.old) }
    {
        match judged {
            Judged::Must(verdict) => {
                self.settle(alloc, arrived, verdict)?;
                Ok(ranged(verdict.verdict()))
            }
            Judged::Replied { verdict, to } => {
                self.reply(alloc, arrived, verdict, *to)?;
                Ok(ranged(verdict.verdict()))
            }
            Judged::MayGrant(login) => {
                let address = self.address_for(&login.request, login.free, wish)?;
                self.log_in(alloc, arrived, login, address)?;
                Ok(Verdict::Granted(address))
            }
            Judged::Registers { to, ask } => {
                self.register(alloc, arrived, *to, ask)?;
                Ok(Verdict::Registered)
            }
            Judged::Answers { to, tell, size } => {
                self.answer(alloc, arrived, *to, tell, *size)?;
                Ok(Verdict::Answered)
            }
        }
    }
}

// This verdict, whose numbers are in range.
fn ranged(verdict: Verdict) -> Verdict
    ensures same { result ≡ verdict }
    ensures ranged { IsRangedVerdict result }
{
    // For the proof: the numbers of a verdict are in range.
    known_verdict(&verdict);
    verdict
}
