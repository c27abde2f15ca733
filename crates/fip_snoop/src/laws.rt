//! What the definitions imply. Each function does nothing: its contract is the law.
ghost use Rattle.fip_snoop.specs.Bridge.{HistoryGoesOn, AllAreCounted, ArrivalsAreInOrder};
ghost use Rattle.fip_snoop.specs.Laws.{HomeGrows, BoundGrows, HomeIs, BoundIs, MovedIs};
ghost use Rattle.fip_snoop.specs.Laws.{ENodesAreApart, DataGoesUp, DataGoesDown};
ghost use Rattle.fip_snoop.specs.Queue.{LeastIsNext, NoneIsEnd, PortsKeepTheirOrder};

/// How homes and bindings change with one more frame.
pub fn histories_grow()
    ensures home { HomeGrows }
    ensures bound { BoundGrows }
{}

/// A MAC is bound where its last grant stands, and an ENode has moved where some MAC is bound to it
/// on another port.
pub fn bindings_stand()
    ensures bound { BoundIs }
    ensures moved { MovedIs }
{}

/// An ENode is on a port exactly where the last message from its MAC that went up came on it.
pub fn homes_stand()
    ensures { HomeIs }
{}

/// No ENode gets what another one sent.
pub fn enodes_are_apart()
    ensures { ENodesAreApart }
{}

/// An FC frame goes up exactly where a login that stands allows it.
pub fn data_goes_up()
    ensures { DataGoesUp }
{}

/// An FC frame goes down exactly to the port to which its destination MAC is bound.
pub fn data_goes_down()
    ensures { DataGoesDown }
{}

/// The frame that is handled next is the first of those that come next in each capture.
pub fn frames_come_in_order()
    ensures next { LeastIsNext }
    ensures end { NoneIsEnd }
{}

/// What is handled later comes behind what was handled before, and each frame is counted once.
pub fn frames_go_on()
    ensures history { HistoryGoesOn }
    ensures counted { AllAreCounted }
{}

/// The frames of several captures are handled by moment and then by port, and those of each port in
/// the order of its capture.
pub fn captures_are_merged()
    ensures ordered { ArrivalsAreInOrder }
    ensures ports { PortsKeepTheirOrder }
{}
