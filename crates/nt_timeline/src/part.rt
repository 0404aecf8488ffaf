//! Which part of a run is shown.

use crate::steps::{EndOfWait, Step};

/// Which part of a run is shown; all of it, where nothing is asked for.
#[derive(Clone, Copy, Debug)]
pub struct Selection<'a> {
    /// From which line to which.
    pub lines: Option<(u64, u64)>,
    /// The object that a line names, or for which a wait pended that the line ended.
    pub object: Option<&'a str>,
    /// The thread that calls, or whose wait the line ended.
    pub thread: Option<u32>,
}

impl Selection<'_> {
    /// Whether the line with this number is in the part.
    pub(crate) fn has_line(&self, line: u64) -> bool {
        match self.lines {
            Some((first, last)) => first <= line && line <= last,
            None => true,
        }
    }

    /// Whether the step is of the thread that is shown, or ended its wait.
    fn has_thread(&self, step: &Step, ended: &[EndOfWait]) -> bool {
        match self.thread {
            Some(thread) => step.who == Some(thread) || ended.iter().any(|it| it.thread == thread),
            None => true,
        }
    }

    /// Whether the step names the object that is shown, or ended a wait for it.
    fn has_object(&self, step: &Step, ended: &[EndOfWait]) -> bool {
        self.object.is_none() || step.is_asked_for || ended.iter().any(|it| it.is_asked_for)
    }

    /// Whether a step, which ended these waits, is shown.
    pub fn shows(&self, step: &Step, ended: &[EndOfWait]) -> bool {
        self.has_line(step.line) && self.has_thread(step, ended) && self.has_object(step, ended)
    }
}
