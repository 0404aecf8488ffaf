//! The names of parking's events, as traces have them.

ghost use Rattle.std.specs.Prelude.{◌≡◌, IfSome, IsNone};
ghost use Rattle.nt_park_traces.specs.ParkNames.{kind_text, IsNoName};

use crate::park::ParkKind;

/// Each kind, in the order in which a name is compared with them.
const KINDS: [ParkKind; 30] = [
    ParkKind::Counts,
    ParkKind::TakesToLook,
    ParkKind::TakesToLeave,
    ParkKind::TakesToUnpark(false),
    ParkKind::TakesToUnpark(true),
    ParkKind::GivesToGo,
    ParkKind::GivesToSleep,
    ParkKind::GivesToWake,
    ParkKind::LooksSame,
    ParkKind::LooksOther,
    ParkKind::Parks,
    ParkKind::FallsAsleep,
    ParkKind::Stirs,
    ParkKind::Restarts,
    ParkKind::Reads,
    ParkKind::TimesOut,
    ParkKind::Leaves,
    ParkKind::Changes,
    ParkKind::Calls,
    ParkKind::SeesNobody(false),
    ParkKind::SeesNobody(true),
    ParkKind::SeesSome(false),
    ParkKind::SeesSome(true),
    ParkKind::TakesOff(false),
    ParkKind::TakesOff(true),
    ParkKind::Unparks,
    ParkKind::Finishes(false),
    ParkKind::Finishes(true),
    ParkKind::Wakes,
    ParkKind::Returns,
];

impl ParkKind {
    /// The kind's name.
    pub fn text(self) -> &'static str
        ensures { result.now ≡ kind_text self }
    {
        match self {
            ParkKind::Counts => "Counts",
            ParkKind::TakesToLook => "TakesToLook",
            ParkKind::TakesToLeave => "TakesToLeave",
            ParkKind::TakesToUnpark(false) => "TakesToUnpark",
            ParkKind::TakesToUnpark(true) => "TakesToUnparkAll",
            ParkKind::GivesToGo => "GivesToGo",
            ParkKind::GivesToSleep => "GivesToSleep",
            ParkKind::GivesToWake => "GivesToWake",
            ParkKind::LooksSame => "LooksSame",
            ParkKind::LooksOther => "LooksOther",
            ParkKind::Parks => "Parks",
            ParkKind::FallsAsleep => "FallsAsleep",
            ParkKind::Stirs => "Stirs",
            ParkKind::Restarts => "Restarts",
            ParkKind::Reads => "Reads",
            ParkKind::TimesOut => "TimesOut",
            ParkKind::Leaves => "Leaves",
            ParkKind::Changes => "Changes",
            ParkKind::Calls => "Calls",
            ParkKind::SeesNobody(false) => "SeesNobody",
            ParkKind::SeesNobody(true) => "SeesNobodyAll",
            ParkKind::SeesSome(false) => "SeesSome",
            ParkKind::SeesSome(true) => "SeesSomeAll",
            ParkKind::TakesOff(false) => "TakesOff",
            ParkKind::TakesOff(true) => "TakesOffAll",
            ParkKind::Unparks => "Unparks",
            ParkKind::Finishes(false) => "Finishes",
            ParkKind::Finishes(true) => "FinishesAll",
            ParkKind::Wakes => "Wakes",
            ParkKind::Returns => "Returns",
        }
    }

    /// The kind with this name.
    pub fn of(name: &[u8]) -> Option<ParkKind>
        ensures some { IfSome result (λ kind. kind_text kind ≡ name.now) }
        ensures none { IsNone result → IsNoName name.now }
    {
        for kind in &KINDS {
            if name == kind.text().as_bytes() {
                return Some(*kind);
            }
        }
        None
    }
}
