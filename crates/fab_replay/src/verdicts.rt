//! A frame with the verdict of a line.
ghost use Rattle.std.specs.Prelude.{◌≡◌, ◌∷◌, IsSome, IfErr, IfOk, IsErrOf, MatchBool, MatchResult, OnErr, OnOk};
ghost use Rattle.fab_policy.specs.Journal.{Journal};
ghost use Rattle.fab_policy.specs.Legal.{Legal};
ghost use Rattle.fab_policy.specs.Standing.{Stands, Takes};
ghost use Rattle.fab_policy.specs.State.{tables_of};
ghost use Rattle.fab_policy.specs.Verdicts.{IsRight};
ghost use Rattle.fab_policy.specs.declared.event.Event.TheVariants.{Frame};
ghost use Rattle.fab_replay.specs.Verdicts.{IsAfter, IsJudged, IsMisjudged, IsWished};

use fab_base::{FcId, PortNo};
use fab_policy::{Verdict, verdicts_are_one};
use forward_core::{Fabric, StepFault, granted_address};
use heard_frames::Heard;
use std::alloc::Global;

/// Why a frame isn't taken with the verdict of its line.
#[derive(Clone, Copy, Debug, PartialEq, Eq)]
pub enum Misjudged {
    /// No forwarder gives that verdict here; this one it may give.
    Wrong { made: Verdict },
    /// Memory was refused.
    Memory,
}

/// Has a fabric take a frame of a port, the one of that index, with the verdict that was found, if
/// that is right: a grant may be of any free address. Where it is wrong the fabric has taken the
/// frame with the verdict that was made; where memory is refused nothing has changed.
pub fn step_as(
    alloc: Global,
    fabric: &mut Fabric,
    port: PortNo,
    index: u64,
    heard: &Heard<'_>,
    found: Verdict,
) -> Result<(), Misjudged>
    requires clock { IsSome fabric.old.state.tables.clock }
    ensures right { OnOk result (IsRight fabric.old.settings fabric.old.state.tables port
        heard.now.caught.now found) }
    ensures takes { OnOk result
        (Takes fabric.old (Frame port index heard.now.caught.now found) fabric.new) }
    ensures journal { OnOk result ((J : Journal) → Legal fabric.old.settings J
        → Stands fabric.old J → let K = Frame port index heard.now.caught.now found ∷ J in
        Legal fabric.old.settings K × Stands fabric.new K) }
    ensures wrong { IfErr result (IsMisjudged fabric.old.settings fabric.old.state.tables port
        heard.now.caught.now found) }
    ensures after { (J : Journal) → Stands fabric.old J → IfErr result (IsMisjudged
        fabric.old.settings (tables_of fabric.old.settings J) port heard.now.caught.now found) }
    ensures left { IfErr result (λ e.
        IsAfter fabric.old port index heard.now.caught.now e fabric.new) }
    ensures settings { (fabric.new.settings ≡ fabric.old.settings)
        × (fabric.new.count ≡ fabric.old.count) }
{
    // Law: a frame has one right verdict but for a granted address; so another one is wrong.
    verdicts_are_one();
    let wish = granted_address(&found);
    let step = step_or_freely(alloc, fabric, port, index, heard, wish);
    judged_by(found, step)
}

// A step with a wish, or without one where that is taken: it is refused for want of memory alone.
fn step_or_freely(
    alloc: Global,
    fabric: &mut Fabric,
    port: PortNo,
    index: u64,
    heard: &Heard<'_>,
    wish: Option<FcId>,
) -> Result<Verdict, StepFault>
    requires clock { IsSome fabric.old.state.tables.clock }
    ensures right { IfOk result (λ v. IsRight fabric.old.settings fabric.old.state.tables port
        heard.now.caught.now v) }
    ensures takes { IfOk result (λ v.
        Takes fabric.old (Frame port index heard.now.caught.now v) fabric.new) }
    ensures journal { IfOk result (λ v. (J : Journal) → Legal fabric.old.settings J
        → Stands fabric.old J → let K = Frame port index heard.now.caught.now v ∷ J in
        Legal fabric.old.settings K × Stands fabric.new K) }
    ensures wished { IfOk result (λ v. IsWished fabric.old.settings fabric.old.state.tables port
        heard.now.caught.now wish v) }
    ensures tried { IsErrOf result StepFault.WishTaken → ⊥ }
    ensures err { OnErr result (fabric.new ≡ fabric.old) }
{
    let wished = fabric.step(alloc, port, index, heard, wish);
    if is_wish_taken(&wished) {
        return fabric.step(alloc, port, index, heard, None);
    }
    wished
}

// Whether a step was refused for its wish.
fn is_wish_taken(step: &Result<Verdict, StepFault>) -> bool
    ensures { MatchBool result (IsErrOf step.now StepFault.WishTaken)
        (IsErrOf step.now StepFault.WishTaken → ⊥) }
{
    matches!(step, Err(StepFault::WishTaken))
}

// Whether the verdict that was found is the one that a step made.
fn judged_by(found: Verdict, step: Result<Verdict, StepFault>) -> Result<(), Misjudged>
    requires tried { IsErrOf step StepFault.WishTaken → ⊥ }
    ensures { IsJudged found step result }
{
    match step {
        Ok(made) => same_or_wrong(found, made),
        Err(StepFault::Memory) => Err(Misjudged::Memory),
        Err(StepFault::WishTaken) => unreachable!(),
    }
}

// Whether the verdict that was found is the one that was made.
fn same_or_wrong(found: Verdict, made: Verdict) -> Result<(), Misjudged>
    ensures { MatchResult result (λ _. made ≡ found)
        (λ e. (e ≡ Misjudged.Wrong made) × (made ≡ found → ⊥)) }
{
    if made == found {
        return Ok(());
    }
    Err(Misjudged::Wrong { made })
}
