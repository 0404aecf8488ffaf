//! The places of each call's line.

ghost use Rattle.std.specs.Prelude.{◌≡◌, map};
ghost use Rattle.nt_grammar.specs.Grammar as grammar;
ghost use Rattle.nt_faults.specs.Shapes.{after_meant, place_meant};

use crate::place::Place;
use nt_grammar::{Keyword, MANUAL, OWNED, SET};

/// What may stand after the places of a line.
#[derive(Clone, Copy)]
pub(crate) enum After {
    /// These words in this order, each or not.
    Options(&'static [&'static [u8]]),
    /// Any number of objects.
    Objects,
    /// A routine and its argument, or neither.
    Routine,
}

const NOTHING: After = After::Options(&[]);

/// The places of a keyword's line, after the keyword.
pub(crate) fn places_of(keyword: Keyword) -> &'static [Place]
    ensures { map place_meant result.now ≡ grammar.places_of keyword }
{
    match keyword {
        Keyword::Event | Keyword::Mutex | Keyword::Timer => &[Place::Name],
        Keyword::Semaphore => &[Place::Name, Place::Int("INIT"), Place::Int("MAX")],
        Keyword::Duplicate => &[Place::Name, Place::Object, Place::Access],
        Keyword::Set
        | Keyword::Reset
        | Keyword::Pulse
        | Keyword::Unlock
        | Keyword::Cancel
        | Keyword::Close => &[Place::Object],
        Keyword::Release => &[Place::Object, Place::Int("COUNT")],
        Keyword::Arm => &[Place::Object, Place::Due, Place::Int("PERIOD")],
        Keyword::Apc => &[Place::Object, Place::Value("ROUTINE"), Place::Value("ARG")],
        Keyword::Any | Keyword::All | Keyword::Sleep => &[Place::Time, Place::Mode],
        Keyword::Swap => &[Place::Object, Place::Object, Place::Time, Place::Mode],
        Keyword::Next | Keyword::Exit => &[],
    }
}

/// What may stand after them.
pub(crate) fn after_of(keyword: Keyword) -> After
    ensures { after_meant result ≡ grammar.after_of keyword }
{
    match keyword {
        Keyword::Event => After::Options(&[MANUAL, SET]),
        Keyword::Mutex => After::Options(&[OWNED]),
        Keyword::Timer => After::Options(&[MANUAL]),
        Keyword::Arm => After::Routine,
        Keyword::Any | Keyword::All => After::Objects,
        _ => NOTHING,
    }
}
