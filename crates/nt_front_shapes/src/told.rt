//! What a shape did, and why it could not.
use nt_status::Refusal;
use std::alloc::AllocError;

/// Why a bench can't go on.
#[derive(Clone, Copy, Debug)]
pub enum FrontBenchFault {
    Memory,
    Refused(Refusal),
    /// A call answered something else than the shape expects.
    Wrong,
    Usage,
    Output,
}

impl From<AllocError> for FrontBenchFault {
    fn from(_: AllocError) -> FrontBenchFault {
        FrontBenchFault::Memory
    }
}

impl From<Refusal> for FrontBenchFault {
    fn from(refusal: Refusal) -> FrontBenchFault {
        FrontBenchFault::Refused(refusal)
    }
}

/// How many calls were made and how many grants taken, how many answers were others than expected, and how long it took.
#[derive(Clone, Copy, Default)]
pub struct Measurement {
    pub calls: u64,
    pub grants: u64,
    pub wrong: u64,
    pub nanos: u128,
}

impl Measurement {
    /// A call that answered as expected, or not.
    pub fn called(&mut self, is_right: bool) {
        self.calls = self.calls.wrapping_add(1);
        if !is_right {
            self.wrong = self.wrong.wrapping_add(1);
        }
    }

    pub fn granted(&mut self) {
        self.grants = self.grants.wrapping_add(1);
    }

    pub fn wrong(&mut self) {
        self.wrong = self.wrong.wrapping_add(1);
    }

    /// Forgets the calls that set the stage, but not the wrong answers.
    pub fn begin(&mut self) {
        self.calls = 0;
        self.grants = 0;
    }

    /// Adds what another thread did in the same time.
    pub fn join(&mut self, other: Measurement) {
        self.calls = self.calls.wrapping_add(other.calls);
        self.grants = self.grants.wrapping_add(other.grants);
        self.wrong = self.wrong.wrapping_add(other.wrong);
    }
}
