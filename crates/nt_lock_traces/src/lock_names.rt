//! The names of the lock's events, as traces have them.

ghost use Rattle.std.specs.Prelude.{◌≡◌, IfSome, IsNone};
ghost use Rattle.nt_lock_traces.specs.LockNames.{arriving_text, favoured_text, handling_text, interrupts_text, kind_text, owning_text, resumes_text, revoking_text, sleeping_text, taking_text, IsNoName};

use crate::lock::Frame;
use crate::lock_kinds::{
    ArrivingStep, FavouredStep, HandlingStep, LockKind, OwningStep, RevokingStep, SleepingStep,
    TakingStep,
};

/// Each kind, in the order in which a name is compared with them: those of most events first.
const KINDS: [LockKind; 59] = [
    LockKind::Taking(TakingStep::Asks),
    LockKind::Owning(OwningStep::GivesBack),
    LockKind::Taking(TakingStep::TakesFree),
    LockKind::Arriving(ArrivingStep::SetArrives),
    LockKind::Favoured(FavouredStep::StepsOut),
    LockKind::Favoured(FavouredStep::KeepsFavour),
    LockKind::Favoured(FavouredStep::StoresInside),
    LockKind::Favoured(FavouredStep::SeesFavour),
    LockKind::Favoured(FavouredStep::Enters),
    LockKind::Sleeping(SleepingStep::PaysNobody),
    LockKind::Taking(TakingStep::MarksHeld),
    LockKind::Sleeping(SleepingStep::FallsAsleep),
    LockKind::Owning(OwningStep::WakesOne),
    LockKind::Taking(TakingStep::StopsLooking),
    LockKind::Taking(TakingStep::MarksFree),
    LockKind::Favoured(FavouredStep::MissesFavour),
    LockKind::Favoured(FavouredStep::StepsBack),
    LockKind::Favoured(FavouredStep::FindsRevoked),
    LockKind::Favoured(FavouredStep::WakesRevoker),
    LockKind::Favoured(FavouredStep::WakesNoRevoker),
    LockKind::Taking(TakingStep::TriesFree),
    LockKind::Taking(TakingStep::Revokes),
    LockKind::Taking(TakingStep::TriesFavoured),
    LockKind::Taking(TakingStep::MarksFavoured),
    LockKind::Sleeping(SleepingStep::PaysOne),
    LockKind::Sleeping(SleepingStep::FindsUnwanted),
    LockKind::Sleeping(SleepingStep::Stirs),
    LockKind::Sleeping(SleepingStep::Restarts),
    LockKind::Revoking(RevokingStep::PassesBarrier),
    LockKind::Revoking(RevokingStep::PassesBarrierOnce),
    LockKind::Revoking(RevokingStep::FindsOutside),
    LockKind::Revoking(RevokingStep::FindsOutsideOnce),
    LockKind::Revoking(RevokingStep::FindsInside),
    LockKind::Revoking(RevokingStep::Declines),
    LockKind::Revoking(RevokingStep::FallsAsleepOn),
    LockKind::Revoking(RevokingStep::FindsLeft),
    LockKind::Revoking(RevokingStep::StirsOn),
    LockKind::Revoking(RevokingStep::RestartsOn),
    LockKind::Revoking(RevokingStep::PutsBack),
    LockKind::Owning(OwningStep::StoresFirst),
    LockKind::Owning(OwningStep::GainsFavour),
    LockKind::Owning(OwningStep::MissesTaken),
    LockKind::Owning(OwningStep::UnstoresInside),
    LockKind::Owning(OwningStep::WakesNobody),
    LockKind::Arriving(ArrivingStep::ClearArrives),
    LockKind::Handling(HandlingStep::Interrupts(Frame::AtStore)),
    LockKind::Handling(HandlingStep::Interrupts(Frame::AtReload)),
    LockKind::Handling(HandlingStep::Interrupts(Frame::AtWakeRevoker)),
    LockKind::Handling(HandlingStep::Interrupts(Frame::AtMark)),
    LockKind::Handling(HandlingStep::Interrupts(Frame::AtPay)),
    LockKind::Handling(HandlingStep::Interrupts(Frame::AtSleep)),
    LockKind::Handling(HandlingStep::Interrupts(Frame::AtWake)),
    LockKind::Handling(HandlingStep::Resumes(Frame::AtStore)),
    LockKind::Handling(HandlingStep::Resumes(Frame::AtReload)),
    LockKind::Handling(HandlingStep::Resumes(Frame::AtWakeRevoker)),
    LockKind::Handling(HandlingStep::Resumes(Frame::AtMark)),
    LockKind::Handling(HandlingStep::Resumes(Frame::AtPay)),
    LockKind::Handling(HandlingStep::Resumes(Frame::AtSleep)),
    LockKind::Handling(HandlingStep::Resumes(Frame::AtWake)),
];

impl FavouredStep {
    fn text(self) -> &'static str
        ensures { result.now ≡ favoured_text self }
    {
        match self {
            FavouredStep::SeesFavour => "SeesFavour",
            FavouredStep::StoresInside => "StoresInside",
            FavouredStep::Enters => "Enters",
            FavouredStep::MissesFavour => "MissesFavour",
            FavouredStep::StepsBack => "StepsBack",
            FavouredStep::StepsOut => "StepsOut",
            FavouredStep::KeepsFavour => "KeepsFavour",
            FavouredStep::FindsRevoked => "FindsRevoked",
            FavouredStep::WakesRevoker => "WakesRevoker",
            FavouredStep::WakesNoRevoker => "WakesNoRevoker",
        }
    }
}

impl TakingStep {
    fn text(self) -> &'static str
        ensures { result.now ≡ taking_text self }
    {
        match self {
            TakingStep::Asks => "Asks",
            TakingStep::TakesFree => "TakesFree",
            TakingStep::TriesFree => "TriesFree",
            TakingStep::Revokes => "Revokes",
            TakingStep::TriesFavoured => "TriesFavoured",
            TakingStep::StopsLooking => "StopsLooking",
            TakingStep::MarksFree => "MarksFree",
            TakingStep::MarksFavoured => "MarksFavoured",
            TakingStep::MarksHeld => "MarksHeld",
        }
    }
}

impl SleepingStep {
    fn text(self) -> &'static str
        ensures { result.now ≡ sleeping_text self }
    {
        match self {
            SleepingStep::PaysOne => "PaysOne",
            SleepingStep::PaysNobody => "PaysNobody",
            SleepingStep::FallsAsleep => "FallsAsleep",
            SleepingStep::FindsUnwanted => "FindsUnwanted",
            SleepingStep::Stirs => "Stirs",
            SleepingStep::Restarts => "Restarts",
        }
    }
}

impl RevokingStep {
    fn text(self) -> &'static str
        ensures { result.now ≡ revoking_text self }
    {
        match self {
            RevokingStep::PassesBarrier => "PassesBarrier",
            RevokingStep::PassesBarrierOnce => "PassesBarrierOnce",
            RevokingStep::FindsOutside => "FindsOutside",
            RevokingStep::FindsOutsideOnce => "FindsOutsideOnce",
            RevokingStep::FindsInside => "FindsInside",
            RevokingStep::Declines => "Declines",
            RevokingStep::FallsAsleepOn => "FallsAsleepOn",
            RevokingStep::FindsLeft => "FindsLeft",
            RevokingStep::StirsOn => "StirsOn",
            RevokingStep::RestartsOn => "RestartsOn",
            RevokingStep::PutsBack => "PutsBack",
        }
    }
}

impl OwningStep {
    fn text(self) -> &'static str
        ensures { result.now ≡ owning_text self }
    {
        match self {
            OwningStep::StoresFirst => "StoresFirst",
            OwningStep::GainsFavour => "GainsFavour",
            OwningStep::MissesTaken => "MissesTaken",
            OwningStep::UnstoresInside => "UnstoresInside",
            OwningStep::GivesBack => "GivesBack",
            OwningStep::WakesOne => "WakesOne",
            OwningStep::WakesNobody => "WakesNobody",
        }
    }
}

impl ArrivingStep {
    fn text(self) -> &'static str
        ensures { result.now ≡ arriving_text self }
    {
        match self {
            ArrivingStep::SetArrives => "SetArrives",
            ArrivingStep::ClearArrives => "ClearArrives",
        }
    }
}

impl Frame {
    /// The name of a handler that begins where its thread was so.
    fn interrupts(self) -> &'static str
        ensures { result.now ≡ interrupts_text self }
    {
        match self {
            Frame::AtStore => "InterruptsAtStore",
            Frame::AtReload => "InterruptsAtReload",
            Frame::AtWakeRevoker => "InterruptsAtWakeRevoker",
            Frame::AtMark => "InterruptsAtMark",
            Frame::AtPay => "InterruptsAtPay",
            Frame::AtSleep => "InterruptsAtSleep",
            Frame::AtWake => "InterruptsAtWake",
        }
    }

    /// And of one that ends.
    fn resumes(self) -> &'static str
        ensures { result.now ≡ resumes_text self }
    {
        match self {
            Frame::AtStore => "ResumesAtStore",
            Frame::AtReload => "ResumesAtReload",
            Frame::AtWakeRevoker => "ResumesAtWakeRevoker",
            Frame::AtMark => "ResumesAtMark",
            Frame::AtPay => "ResumesAtPay",
            Frame::AtSleep => "ResumesAtSleep",
            Frame::AtWake => "ResumesAtWake",
        }
    }
}

impl HandlingStep {
    fn text(self) -> &'static str
        ensures { result.now ≡ handling_text self }
    {
        match self {
            HandlingStep::Interrupts(frame) => frame.interrupts(),
            HandlingStep::Resumes(frame) => frame.resumes(),
        }
    }
}

impl LockKind {
    /// The kind's name.
    pub fn text(self) -> &'static str
        ensures { result.now ≡ kind_text self }
    {
        match self {
            LockKind::Favoured(step) => step.text(),
            LockKind::Taking(step) => step.text(),
            LockKind::Sleeping(step) => step.text(),
            LockKind::Revoking(step) => step.text(),
            LockKind::Owning(step) => step.text(),
            LockKind::Arriving(step) => step.text(),
            LockKind::Handling(step) => step.text(),
        }
    }

    /// The kind with this name.
    pub fn of(name: &[u8]) -> Option<LockKind>
        ensures some { IfSome result (λ kind. kind_text kind ≡ name.now) }
        ensures none { IsNone result → IsNoName name.now }
    {
        for kind in &KINDS {
            if name == kind.text().as_bytes() {
                return Some(*kind);
            }
        }
        None
    }
}
