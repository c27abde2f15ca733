//! What the definitions imply. Each function does nothing: its contract is the law.
ghost use Rattle.fab_policy.specs.Steps.{Steps, StepsLogin, FoundByAddress, LivesAreFound};
ghost use Rattle.fab_policy.specs.Steps.{OthersAreNone};
ghost use Rattle.fab_policy.specs.Changes.{ChangesAreAfter, TickSteps, PortsStay, FrameSteps};
ghost use Rattle.fab_policy.specs.Changes.{EndsOfTicks, LogoutSteps, GrantSteps, GrantPorts};
ghost use Rattle.fab_policy.specs.Changes.{GrantPast};
ghost use Rattle.fab_policy.specs.Carried.{SourcesAreRead, LoginsAreCarried, BodiesAreCarried};
ghost use Rattle.fab_policy.specs.Carried.{ParmsAreAsked, AnswersAreAsked};
ghost use Rattle.fab_policy.specs.Due.{DueIsOne, NextTickIsLesser, NextTickByIsLesser};
ghost use Rattle.fab_policy.specs.Forwarding.{ForwardsExactly, LegalForwards};
ghost use Rattle.fab_policy.specs.Live.{LegalNamesTheLive};
ghost use Rattle.fab_policy.specs.Laws.{RequestsAreAnswered, SolicitationsAreAnswered};
ghost use Rattle.fab_policy.specs.Right.{RightIsOne};
ghost use Rattle.fab_policy.specs.Written.{TablesAscend, LegalIsQuiet, LegalIsSound};
ghost use Rattle.fab_policy.specs.Sound.{MacsTellAddresses, LiveMacsDiffer, GrantsAreFree};
ghost use Rattle.fab_policy.specs.Sound.{LoginsAreInPool};
ghost use Rattle.fab_policy.specs.Fits.{RegistrationsFit, LoginsFit, FeaturesAreAll};
ghost use Rattle.fab_policy.specs.Standing.{StandsNew, StandsOlder, DueAfter, StandsAfter};
ghost use Rattle.fab_policy.specs.Standing.{StandsDrained, LegalAfter};

/// What a journal with one more entry says follows from what the journal said, and tables that are
/// found address by address are the whole tables.
pub fn journal_steps()
    ensures login { StepsLogin }
    ensures tables { Steps }
    ensures found { FoundByAddress }
{}

/// The tables of a journal have the live N_Port of each address of the pool, and of no other
/// address.
pub fn lookups()
    ensures lives { LivesAreFound }
    ensures others { OthersAreNone }
{}

/// What each kind of entry does to the tables, address by address: tables that change so are the
/// tables after it.
pub fn tables_change()
    ensures any { ChangesAreAfter }
    ensures tick { TickSteps }
    ensures ends { EndsOfTicks }
    ensures port { PortsStay }
    ensures frame { FrameSteps }
    ensures logout { LogoutSteps }
    ensures grant { GrantSteps }
    ensures ports { GrantPorts }
    ensures past { GrantPast }
{}

/// A registration changes what a journal says of its N_Port as the name server's table says, and a
/// new login has what the table gives one: so a registry can keep what a journal says.
pub fn registrations_fit()
    ensures after { RegistrationsFit }
    ensures fresh { LoginsFit }
    ensures features { FeaturesAreAll }
{}

/// What a decoded frame says is what a journal reads from its bytes: who sent it, which login it is
/// and which FC frame it carries, what that asks for, and how it wants to be answered.
pub fn frames_are_carried()
    ensures source { SourcesAreRead }
    ensures login { LoginsAreCarried }
    ensures body { BodiesAreCarried }
    ensures parms { ParmsAreAsked }
    ensures answer { AnswersAreAsked }
{}

/// A fabric before anything happened represents the empty journal. One that takes an entry which is
/// right by its own tables represents each journal that it represented with that entry, and this
/// journal is legal if the one before was. What it has sent since the last drain is what its events
/// send after the journal that they follow, and a tick that is due by its tables is due by the
/// journal.
pub fn fabric_steps()
    ensures first { StandsNew }
    ensures after { StandsAfter }
    ensures older { StandsOlder }
    ensures due { DueAfter }
    ensures drained { StandsDrained }
    ensures legal { LegalAfter }
{}

/// A captured frame of bytes is answered by a list of VLANs exactly where the layout of Ethernet
/// and the grammar of FIP make it a VLAN request to this forwarder, whoever is logged in.
pub fn requests_are_answered()
    ensures { RequestsAreAnswered }
{}

/// The same of a solicitation and the advertisement that answers it.
pub fn solicitations_are_answered()
    ensures { SolicitationsAreAnswered }
{}

/// One moment at most is due, and after the first tick the next one is the lesser of it and of the
/// window of the next frames: by what a journal says, and by what a fabric keeps.
pub fn ticks_are_due()
    ensures one { DueIsOne }
    ensures next { NextTickIsLesser }
    ensures state { NextTickByIsLesser }
{}

/// A data frame goes on exactly where its source MAC, its port, both logins and a zone allow it, to
/// the port of its destination's login, and is dropped by the first rule of the table elsewhere. So
/// it is in each legal journal.
pub fn forwarding_rule()
    ensures judged { ForwardsExactly }
    ensures journal { LegalForwards }
{}

/// A frame has one right verdict over the same tables, but for the address of a grant.
pub fn verdicts_are_one()
    ensures { RightIsOne }
{}

/// The live addresses of each journal ascend, and their granted MACs differ. After each legal
/// journal the names of live N_Ports differ too, there are at most as many as the limit, and nobody
/// is overdue at the clock. An address is granted only where nobody holds it, or where it is given
/// back to its ENode, and whoever is logged in has one of the pool. Whom the forwarder's messages
/// are about is logged in: who asks the name server and whom the answer is about, both ends of a
/// frame that goes on, and who is notified of a state change and of whom, but for those whose login
/// the entry ends.
pub fn legal_journals()
    ensures ascend { TablesAscend }
    ensures quiet { LegalIsQuiet }
    ensures sound { LegalIsSound }
    ensures addresses { MacsTellAddresses }
    ensures macs { LiveMacsDiffer }
    ensures grants { GrantsAreFree }
    ensures pool { LoginsAreInPool }
    ensures named { LegalNamesTheLive }
{}
