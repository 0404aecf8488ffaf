//! A part of the journal, made again.
use crate::fault::FrontExampleFault;
use crate::host::Host;
use nt_front::{Front, History, Named, Pass};
use nt_replay::replay;

/// Takes the entries since the last part, and makes their calls and ticks again: each answer is the same.
pub fn replay_part<N: Named>(
    front: &Front<N>,
    rt: &impl Host,
    pass: &mut Pass<N>,
) -> Result<(), FrontExampleFault> {
    let part = front.rotate(rt, pass)?;
    let (base, entries) = part.into_run();
    let after = replay(base, entries.as_slice())?;
    drop(after);
    Ok(())
}

/// Makes the calls and ticks of the journal's rest again: each answer is the same.
pub fn replay_rest(history: History) -> Result<(), FrontExampleFault> {
    let (base, entries) = history.into_run();
    let after = replay(base, entries.as_slice())?;
    drop(after);
    Ok(())
}
