//! The names of the words' events, as traces have them.

ghost use Rattle.std.specs.Prelude.{◌≡◌, IfSome, IsNone};
ghost use Rattle.nt_traces.specs.WordNames.{kind_text, IsNoName};

use crate::word::WordKind;

/// Each kind, in the order in which a name is compared with them: those of most events first.
const KINDS: [WordKind; 15] = [
    WordKind::Enters,
    WordKind::Returns,
    WordKind::Begins,
    WordKind::TurnsToSleep,
    WordKind::Marks,
    WordKind::FallsAsleep,
    WordKind::Wakes,
    WordKind::Grants,
    WordKind::Stirs,
    WordKind::Reads,
    WordKind::LooksAtTime,
    WordKind::Rearms,
    WordKind::FindsItLate,
    WordKind::Restarts,
    WordKind::Calls,
];

impl WordKind {
    /// The kind's name.
    pub fn text(self) -> &'static str
        ensures { result.now ≡ kind_text self }
    {
        match self {
            WordKind::Enters => "Enters",
            WordKind::Returns => "Returns",
            WordKind::Begins => "Begins",
            WordKind::TurnsToSleep => "TurnsToSleep",
            WordKind::Marks => "Marks",
            WordKind::FallsAsleep => "FallsAsleep",
            WordKind::Stirs => "Stirs",
            WordKind::Restarts => "Restarts",
            WordKind::FindsItLate => "FindsItLate",
            WordKind::Reads => "Reads",
            WordKind::LooksAtTime => "LooksAtTime",
            WordKind::Rearms => "Rearms",
            WordKind::Grants => "Grants",
            WordKind::Calls => "Calls",
            WordKind::Wakes => "Wakes",
        }
    }

    /// The kind with this name.
    pub fn of(name: &[u8]) -> Option<WordKind>
        ensures some { IfSome result (λ kind. kind_text kind ≡ name.now) }
        ensures none { IsNone result → IsNoName name.now }
    {
        for kind in &KINDS {
            if name == kind.text().as_bytes() {
                return Some(*kind);
            }
        }
        None
    }
}
