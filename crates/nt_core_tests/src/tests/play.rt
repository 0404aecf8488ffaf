//! The walk over the steps of a scenario. A step that fails is reported with what the scenario shows, and with its number, from 1.
use crate::tests::calls::{answer_of, are_ended};
use crate::tests::memory::{
    CoreHost, answer_at_once, answer_by_slice, answer_to, copy_at_last, is_refusing, let_go, open,
};
use crate::tests::renewing::{expect_closed, expect_vacant, renewed};
use crate::tests::script::{Answer, EndedWait, Request, Scenario, ScenarioStep};
use nt_core::Core;
use nt_status::{Moment, Refusal};
use std::fmt::Debug;
use std::test::Fail;

/// Which step of which scenario.
#[derive(Clone, Copy)]
struct Place {
    shows: &'static str,
    step: usize,
}

/// Fails the test, and tells the step, unless what is found there is what is expected.
fn expect_there<T: Copy + PartialEq + Debug>(
    rt: &impl CoreHost,
    found: T,
    expected: T,
    place: Place,
) {
    let Place { shows, step } = place;
    assert_eq!(rt; found, expected, "{shows}, step {step}");
}

/// Looks whether these waits ended, in this order.
fn expect_ended(rt: &impl CoreHost, core: &Core, ended: &[EndedWait], place: Place) {
    let Place { shows, step } = place;
    let grants = core.grants();
    assert!(rt;
        are_ended(grants, ended),
        "{shows}, step {step}: these ended: {grants:?}"
    );
}

/// Looks whether each of these threads waits, or none.
fn expect_waiting(rt: &impl CoreHost, core: &Core, threads: &[u32], waits: bool, place: Place) {
    for thread in threads {
        let found = (*thread, core.is_waiting(*thread));
        expect_there(rt, found, (*thread, waits), place);
    }
}

/// Creates events with these handles, in turn.
fn create_events(
    rt: &impl CoreHost,
    core: &mut Core,
    who: u32,
    first: u32,
    last: u32,
    place: Place,
) {
    for handle in first..=last {
        let found = answer_to(rt, core, who, Request::Event(0), &[]);
        expect_there(rt, found, Answer::Handle(handle), place);
    }
}

/// Creates an object with this handle, asks this of it, and closes it.
fn close_one(
    rt: &impl CoreHost,
    core: &mut Core,
    who: u32,
    create: Request,
    asks: &[Request],
    handle: u32,
    place: Place,
) {
    let created = answer_to(rt, core, who, create, &[]);
    expect_there(rt, created, Answer::Handle(handle), place);
    for ask in asks {
        let found = answer_to(rt, core, who, *ask, &[handle]);
        expect_there(rt, found, Answer::Done, place);
    }
    let closed = answer_at_once(rt, core, who, Request::Close, &[handle]);
    expect_there(rt, closed, Answer::Done, place);
}

/// The next moment up to this one at which something is due.
fn due(core: &Core, up_to: u64) -> Option<u64> {
    let moment = core.due(Moment::new(up_to)?)?;
    Some(moment.get())
}

fn expect_due(rt: &impl CoreHost, core: &Core, up_to: u64, expected: Option<u64>, place: Place) {
    expect_there(rt, due(core, up_to), expected, place);
}

/// Lets all moments up to this one pass.
fn tick_to(core: &mut Core, moment: u64) -> Answer {
    match Moment::new(moment) {
        Some(moment) => answer_of(core.tick(moment)),
        None => Answer::NotAsked,
    }
}

/// Takes a step that is answered: what it answers, what it is to answer, and the waits that are to end. None for any other.
fn answered(
    rt: &impl CoreHost,
    core: &mut Core,
    step: ScenarioStep,
) -> Option<(Answer, Answer, &'static [EndedWait])> {
    match step {
        ScenarioStep::Call(who, ask, objects, answer, ended) => {
            Some((answer_to(rt, core, who, ask, objects), answer, ended))
        }
        ScenarioStep::Slice(who, ask, objects, answer, ended) => {
            Some((answer_by_slice(rt, core, who, ask, objects), answer, ended))
        }
        ScenarioStep::NoGrowth(who, ask, objects, answer, ended) => {
            Some((answer_at_once(rt, core, who, ask, objects), answer, ended))
        }
        ScenarioStep::Tick(moment, answer, ended) => Some((tick_to(core, moment), answer, ended)),
        _ => renewed(rt, core, step),
    }
}

/// Takes a step that looks at the dispatcher, or that creates many objects.
fn look(rt: &impl CoreHost, core: &mut Core, step: ScenarioStep, place: Place) {
    match step {
        ScenarioStep::CreateEvents(who, first, last) => create_events(
            rt, core, who, first, last, place,
        ),
        ScenarioStep::CloseEach(who, create, asks, first, last) => {
            for handle in first..=last {
                close_one(rt, core, who, create, asks, handle, place);
            }
        }
        ScenarioStep::Vacant(objects, may) => expect_vacant(rt, core, objects, may),
        ScenarioStep::Closed(handles, may) => expect_closed(rt, core, handles, may),
        ScenarioStep::Due(up_to, moment) => expect_due(rt, core, up_to, moment, place),
        ScenarioStep::Tested(count) => expect_there(rt, core.tested(), count, place),
        ScenarioStep::Now(moment) => expect_there(rt, core.now().get(), moment, place),
        ScenarioStep::Living(count) => expect_there(rt, core.living() as u64, count, place),
        ScenarioStep::Waiting(threads) => {
            expect_there(rt, core.pending() as u64, threads.len() as u64, place);
            expect_waiting(rt, core, threads, true, place);
        }
        ScenarioStep::Idle(threads) => expect_waiting(rt, core, threads, false, place),
        _ => {}
    }
}

fn take_step(rt: &impl CoreHost, core: &mut Core, step: ScenarioStep, place: Place) {
    match answered(rt, core, step) {
        Some((found, expected, ended)) => {
            expect_there(rt, found, expected, place);
            expect_ended(rt, core, ended, place);
        }
        None => look(rt, core, step, place),
    }
}

/// Takes these steps in turn.
pub fn take_steps(
    rt: &impl CoreHost,
    core: &mut Core,
    shows: &'static str,
    steps: &[ScenarioStep],
) {
    for (i, step) in steps.iter().enumerate() {
        take_step(rt, core, *step, Place { shows, step: i + 1 });
    }
}

/// Takes the steps of the scenario from a new dispatcher on.
fn play(rt: &impl CoreHost, scenario: &Scenario) -> Result<(), Refusal> {
    let mut core = open(rt, scenario.threads)?;
    take_steps(rt, &mut core, scenario.shows, scenario.steps);
    let_go(core);
    Ok(())
}

/// Plays these scenarios in turn.
pub fn play_all(rt: &impl CoreHost, scenarios: &[Scenario]) -> Result<(), Fail> {
    for scenario in scenarios {
        play(rt, scenario)?;
    }
    Ok(())
}

/// Takes each of these steps in the one dispatcher and then in the other. They come after the first `taken` steps of the scenario.
fn take_steps_in_both(
    rt: &impl CoreHost,
    core: &mut Core,
    copy: &mut Core,
    shows: &'static str,
    taken: usize,
    steps: &[ScenarioStep],
) {
    let mut number = taken;
    for step in steps {
        number = number.saturating_add(1);
        let place = Place {
            shows,
            step: number,
        };
        take_step(rt, core, *step, place);
        take_step(rt, copy, *step, place);
    }
}

/// Makes a copy, and takes the steps after the first `taken` in both dispatchers, which go on alike.
fn go_on_in_both(
    rt: &impl CoreHost,
    core: &mut Core,
    scenario: &Scenario,
    taken: usize,
) -> Result<(), Refusal> {
    let steps = scenario.steps.get(taken..).unwrap_or(&[]);
    let mut copy = copy_at_last(rt, core)?;
    take_steps_in_both(rt, core, &mut copy, scenario.shows, taken, steps);
    let_go(copy);
    Ok(())
}

/// Takes the steps of the scenario from a new dispatcher on, those after the first `taken` in a copy too.
fn play_in_both_after(
    rt: &impl CoreHost,
    scenario: &Scenario,
    taken: usize,
) -> Result<(), Refusal> {
    let mut core = open(rt, scenario.threads)?;
    let steps = scenario.steps.get(..taken).unwrap_or(&[]);
    take_steps(rt, &mut core, scenario.shows, steps);
    let went_on = go_on_in_both(rt, &mut core, scenario, taken);
    let_go(core);
    went_on
}

/// Plays these scenarios in turn, each with a copy made before each step in turn, and at its end. Where growths are refused the
/// copy is made half way alone, since each growth is then one more run.
pub fn play_all_in_both(rt: &impl CoreHost, scenarios: &[Scenario]) -> Result<(), Fail> {
    for scenario in scenarios {
        play_in_both(rt, scenario)?;
    }
    Ok(())
}

/// Plays one scenario with copies, as `play_all_in_both` does.
fn play_in_both(rt: &impl CoreHost, scenario: &Scenario) -> Result<(), Refusal> {
    let steps = scenario.steps.len();
    if is_refusing(rt) {
        return play_in_both_after(rt, scenario, steps / 2);
    }
    for taken in 0..=steps {
        play_in_both_after(rt, scenario, taken)?;
    }
    Ok(())
}
