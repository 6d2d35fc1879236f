//! Routers without a controller as full reversal. Each clause is a law of `specs/Announcements.antt`, proved. The
//! functions do nothing.

ghost use Rattle.fr_laws.specs.Announcements.{AnnouncementsAreARun, HeightsFollowTheRun, TurnsAreAnnouncements};
ghost use Rattle.fr_laws.specs.Announcements.{EachAnnouncesFew, AllAnnounceFew, QuietRoutersAreSettled};
ghost use Rattle.fr_laws.specs.Announcements.{SomeRouterAnnounces};
ghost use Rattle.fr_laws.specs.Announcements.{ActingIsACall, HearingIsACall, KnowingIsACall, RepeatingIsACall};
ghost use Rattle.fr_laws.specs.Announcements.{LinksStayAsSaid, SayingIsACall, TickingIsACall, WritingIsACall};

/// With `Rise::Full`, in a network that stays as it is, the announcements are a run of full reversal. So they are
/// whatever messages are lost, delayed, repeated and overtaken. Suppose that each router is connected to the one
/// gateway. Then no router announces more heights than its settled count, and all together announce at most n * (n -
/// 1) / 2. Once all messages have arrived and no router raises its height, the numbers of announcements are the
/// settled counts. Two routers meet these premises, and one of them announces a height before they are quiet.
pub fn announcements_law()
    ensures run { AnnouncementsAreARun }
    ensures heights { HeightsFollowTheRun }
    ensures turns { TurnsAreAnnouncements }
    ensures each { EachAnnouncesFew }
    ensures all { AllAnnounceFew }
    ensures settled { QuietRoutersAreSettled }
    ensures possible { SomeRouterAnnounces }
{}

/// While no link goes up or down and no router restarts, each call of a `Node` is a step of these laws. A message is heard
/// over a link that is as the caller has said: so each link is until a tick loses one.
pub fn calls_law()
    ensures hear { HearingIsACall }
    ensures act { ActingIsACall }
    ensures tick { TickingIsACall }
    ensures as_said { LinksStayAsSaid }
    ensures repeat { RepeatingIsACall }
    ensures write { WritingIsACall }
    ensures say { SayingIsACall }
    ensures know { KnowingIsACall }
{}
