//! Holds on their way to other threads.
ghost use Rattle.std.specs.Prelude.{◌≡◌};

use crate::hold::{Ended, Held, Pass, Sleeper};
use crate::named::Named;

/// A hold that can be let go. It is then missing at `finish`, which says nothing of its thread.
pub trait LetGo {
    fn let_go(self);
}

impl<N: Named> LetGo for Pass<N> {
    fn let_go(self) {
        Held::Pass(self).let_go();
    }
}

impl<N: Named> LetGo for Sleeper<N> {
    fn let_go(self) {
        Held::Sleeping(self).let_go();
    }
}

impl<N: Named> LetGo for Ended<N> {
    fn let_go(self) {
        Held::Ended(self).let_go();
    }
}

impl<N: Named> LetGo for Held<N> {
    fn let_go(self) {
        let _ = self.into_seat();
    }
}

/// A hold that a closure may own, and so a thread, since it can be let go.
pub struct Carried<H: LetGo> {
    pub hold: H,
}

impl<H: LetGo> Drop for Carried<H> {
    fn drop(self) {
        let Carried { hold } = self;
        hold.let_go();
    }
}

impl<H: LetGo> Carried<H> {
    /// The hold itself, which must be spent.
    pub fn into_hold(self) -> H
        ensures { result ≡ self.hold }
    {
        let Carried { hold } = self;
        hold
    }
}
