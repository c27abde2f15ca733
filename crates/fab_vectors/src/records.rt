//! Frames as the records of a capture.
ghost use Rattle.std.specs.Prelude.{◌≡◌, ◌≤◌, ◌++◌, length, flat_map, OnOk};
ghost use Rattle.fab_vectors.specs.Frames as bytes_of;
ghost use Rattle.fab_vectors.specs.Load as spec;

use crate::fcoe::{write_data, write_query, write_registration, write_server_login, write_watch};
use crate::fip::{write_fabric_login, write_keep_alive, write_solicitation, write_vlan_request};
use crate::frame::{LoadFrame, Step};
use fab_base::{NoMemory, PortNo};
use pcap_file::write_record;
use std::alloc::Global;

/// Appends the records of frames of a port. `counted` has the bytes of all payloads, and `bytes` is
/// a buffer for one frame.
pub(crate) fn write_records(
    alloc: Global,
    port: PortNo,
    frames: &[LoadFrame],
    counted: &[u8],
    bytes: &mut Vec<u8>,
    out: &mut Vec<u8>,
) -> Result<(), NoMemory>
    requires { counted.now ≡ bytes_of.counted bytes_of.COUNTED }
    ensures { OnOk result (out.new.items
        ≡ out.old.items ++ flat_map (spec.record_of port) frames.now) }
{
    for frame in frames {
        write_one(alloc, port, *frame, counted, bytes, out)?;
    }
    Ok(())
}

// Appends the record of a frame.
#[tactic(auto, unfolding(crate::specs::Load::record_of))]
fn write_one(
    alloc: Global,
    port: PortNo,
    frame: LoadFrame,
    counted: &[u8],
    bytes: &mut Vec<u8>,
    out: &mut Vec<u8>,
) -> Result<(), NoMemory>
    requires { counted.now ≡ bytes_of.counted bytes_of.COUNTED }
    ensures { OnOk result (out.new.items ≡ out.old.items ++ spec.record_of port frame) }
{
    bytes.clear();
    write_frame(alloc, port, frame, counted, bytes)?;
    write_record(alloc, frame.moment(port), bytes, out)
}

// Appends the bytes of a frame.
#[tactic(auto, unfolding(crate::specs::Frames::frame_bytes))]
fn write_frame(
    alloc: Global,
    port: PortNo,
    frame: LoadFrame,
    counted: &[u8],
    out: &mut Vec<u8>,
) -> Result<(), NoMemory>
    requires { counted.now ≡ bytes_of.counted bytes_of.COUNTED }
    ensures ok { OnOk result (out.new.items ≡ out.old.items ++ bytes_of.frame_bytes port frame) }
    ensures size { OnOk result (length (bytes_of.frame_bytes port frame) ≤ 65535) }
{
    match frame {
        LoadFrame::VlanRequest => write_vlan_request(alloc, port, out),
        LoadFrame::Solicitation => write_solicitation(alloc, port, out),
        LoadFrame::Login(step, login) => write_login(alloc, port, step, login, out),
        LoadFrame::KeepAlive(_) => write_keep_alive(alloc, port, out),
        LoadFrame::Data(ox_id, drawn) => write_data(alloc, port, ox_id, drawn, counted, out),
    }
}

// Appends a frame of a login.
fn write_login(
    alloc: Global,
    port: PortNo,
    step: Step,
    login: u8,
    out: &mut Vec<u8>,
) -> Result<(), NoMemory>
    ensures ok { OnOk result (out.new.items
        ≡ out.old.items ++ bytes_of.login_frame port step login) }
    ensures size { OnOk result (length (bytes_of.login_frame port step login) ≤ 65535) }
{
    match step {
        Step::Fabric => write_fabric_login(alloc, port, login, out),
        Step::Server => write_server_login(alloc, port, login, out),
        Step::Watch => write_watch(alloc, port, login, out),
        Step::Register => write_registration(alloc, port, login, out),
        Step::Query => write_query(alloc, port, login, out),
    }
}
