//! What holds of programs that are joined. Each function does nothing: its contract is the law.
ghost use Rattle.joined_runs.specs.Box.{JoinedIsGranted, BridgedIsGranted};
ghost use Rattle.joined_runs.specs.Sent.{RunSends, SnoopSends, EnodeSends};

use fip_snoop::enodes_are_apart;
use side_runs::what_is_taken_are_captures;

/// Each frame in a capture of `run` is one that its journal sends on the port, each in one of
/// `snoop` came where its way leads to the port, and each in that of `enode` is one that the node
/// sent.
pub fn what_is_left_was_sent()
    ensures run { RunSends }
    ensures snoop { SnoopSends }
    ensures enode { EnodeSends }
{
    // Law: what comes from an ENode goes to the forwarder's port or nowhere.
    enodes_are_apart();
}

/// A node that is up was granted its address by the forwarder that it is joined to.
pub fn a_joined_node_is_granted()
    ensures { JoinedIsGranted }
{
    // Law: what was taken of files is all of their captures.
    what_is_taken_are_captures();
}

/// The same with a bridge between them.
pub fn a_node_behind_a_bridge_is_granted()
    ensures { BridgedIsGranted }
{
    // Law: what was taken of files is all of their captures.
    what_is_taken_are_captures();
    // Law: what comes from an ENode goes to the forwarder's port or nowhere.
    enodes_are_apart();
}
