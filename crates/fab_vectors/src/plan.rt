//! The frames of a port, in the order of their moments.
ghost use Rattle.std.specs.Prelude.{◌≡◌, ◌++◌, ◌+◌, ◌<◌, OnOk, IfOk, length};
ghost use Rattle.fab_vectors.specs.Load as spec;

use crate::LOGINS;
use crate::drawing::Draws;
use crate::frame::{LoadFrame, Step};
use fab_base::{NoMemory, PortNo};
use std::alloc::{AllocError, Global};

/// The frames of a port.
#[tactic(auto, unfolding(crate::specs::Load::frames))]
pub(crate) fn frames_of(
    alloc: Global,
    number: u64,
    port: PortNo,
) -> Result<Vec<LoadFrame>, AllocError>
    ensures { IfOk result (λ v. v.items ≡ spec.frames number port) }
{
    let mut frames = Vec::new(alloc);
    frames.push(LoadFrame::VlanRequest)?;
    frames.push(LoadFrame::Solicitation)?;
    add_logins(Step::Fabric, &mut frames)?;
    add_logins(Step::Server, &mut frames)?;
    add_logins(Step::Watch, &mut frames)?;
    add_logins(Step::Register, &mut frames)?;
    add_logins(Step::Query, &mut frames)?;
    let mut draws = Draws::new(number, port.value());
    frames.push(LoadFrame::KeepAlive(1))?;
    add_data(&mut draws, 600, &mut frames)?;
    frames.push(LoadFrame::KeepAlive(2))?;
    add_data(&mut draws, 800, &mut frames)?;
    frames.push(LoadFrame::KeepAlive(3))?;
    add_data(&mut draws, 800, &mut frames)?;
    frames.push(LoadFrame::KeepAlive(4))?;
    add_data(&mut draws, 144, &mut frames)?;
    Ok(frames)
}

// Adds a frame of each login of a port.
#[tactic(auto, unfolding(crate::specs::Load::logins))]
fn add_logins(step: Step, frames: &mut Vec<LoadFrame>) -> Result<(), AllocError>
    ensures { OnOk result (frames.new.items ≡ frames.old.items ++ spec.logins step) }
{
    for login in 0..LOGINS {
        frames.push(LoadFrame::Login(step, login))?;
    }
    Ok(())
}

// Adds so many data frames.
#[tactic(auto, unfolding(crate::specs::Load::data_frames))]
fn add_data(draws: &mut Draws, count: u16, frames: &mut Vec<LoadFrame>) -> Result<(), AllocError>
    requires { draws.old.turn + count < 65536 }
    ensures frames { OnOk result (frames.new.items ≡ frames.old.items
        ++ spec.data_frames draws.old.number draws.old.port draws.old.turn count) }
    ensures number { draws.new.number ≡ draws.old.number }
    ensures port { draws.new.port ≡ draws.old.port }
    ensures turn { OnOk result (draws.new.turn ≡ draws.old.turn + count) }
{
    for _ in 0..count {
        frames.push(draws.draw())?;
    }
    Ok(())
}
