//! What the definitions imply. Each function does nothing: its contract is the law.
ghost use Rattle.std.specs.Prelude.{◌<◌};
ghost use Rattle.enode_core.specs.declared.node.Identity.{Identity};
ghost use Rattle.enode_core.specs.declared.node.State.{State};
ghost use Rattle.enode_core.specs.Machine.{due, timer};
ghost use Rattle.enode_core.specs.Sound.{IsSound};
ghost use Rattle.enode_core.specs.RunLaws.{RunsAreGranted, RunsAreOne};
ghost use Rattle.enode_core.specs.Laws.{UpIsAccepted, AcceptIsGrant, UpIsGranted};
ghost use Rattle.enode_core.specs.Alive.{UpIsHeard, UpBegins, UpSendsAlives, OnlyUpIsGranted};

/// A node that is up was accepted, an accept that a forwarder sends is the reply to a grant, and so
/// a node that hears one forwarder and is up was granted its address there.
pub fn up_is_granted()
    ensures accepted { UpIsAccepted }
    ensures grant { AcceptIsGrant }
    ensures granted { UpIsGranted }
{}

/// One list of inputs at most is a run of a node over records, and what holds of a node that hears
/// one forwarder holds of the run over the records that this sends.
pub fn runs_are_one()
    ensures one { RunsAreOne }
    ensures granted { RunsAreGranted }
{}

/// Each timer of a node comes later than the one before.
pub fn timers_are_later()
    ensures { (own : Identity) (s : State) → IsSound s
        → due s.stage < due (timer own s).state.stage }
{}

/// A node is up no longer than two and a half periods behind the accept, or the last advertisement
/// of its forwarder.
pub fn up_is_heard()
    ensures { UpIsHeard }
{}

/// While a node is up it sends its keep alives alone, a period apart from a period behind the
/// accept on, and those of its VN_Port 90 s apart.
pub fn up_sends_alives()
    ensures begins { UpBegins }
    ensures sends { UpSendsAlives }
{}

/// A node sends from a granted MAC only while it is up with it.
pub fn only_up_is_granted()
    ensures { OnlyUpIsGranted }
{}
