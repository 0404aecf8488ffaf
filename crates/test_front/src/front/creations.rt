//! Growths of memory that are refused: an opening is made again; a creation that is refused stands in the journal, where the same
//! creation, made again, succeeds; and a part that is refused is taken at the next try, with all its entries. A front that lasts gives the
//! numbers again with no growth.
//! `tests/growths/tests` refuses each allocation in turn.
ghost use Rattle.std.specs.Prelude.{◌≡◌, ◌+◌, ◌≤◌, vec_len, vec_capacity, IfOk};

use crate::expect::{expect, expect_equal};
use crate::front::told::{Span, let_go};
use crate::refused::{FrontHost, tell_refused};
use nt_core::{Act, Reply};
use nt_front::{Blank, Front, Held, Named, Pass, Receipt, open, prepare, prepare_lasting};
use nt_status::{Handle, Refusal};
use std::alloc::Global;
use std::marker::Brand;
use std::sync::Wait;
use std::test::Fail;

/// The first event of two threads.
const EVENT: u32 = 2;

/// A front of two threads with room for four entries, that lasts or does not.
fn blank_of(alloc: Global, lasts: bool) -> Result<Blank, Refusal>
    ensures { IfOk result (λ blank. blank.threads ≡ 2) }
{
    if lasts {
        prepare_lasting(alloc, 2, 4)
    } else {
        prepare(alloc, 2, 4)
    }
}

/// The same, with a second try where memory is refused.
fn prepared(rt: &(impl FrontHost + Wait), lasts: bool) -> Result<Blank, Refusal>
    ensures { IfOk result (λ blank. blank.threads ≡ 2) }
{
    match blank_of(rt.alloc(), lasts) {
        Err(Refusal::Memory) => {
            tell_refused(rt, "an opening");
            blank_of(rt.alloc(), lasts)
        }
        answer => answer,
    }
}

/// The results of a creation, and of the one after it where the first found no memory; then of a part that is taken, in the same way.
#[derive(Clone, Copy, Default)]
struct Created {
    refused: bool,
    is_right: bool,
    /// The event is closed, and the next one is created at once, with its handle if the front lasts.
    is_again: bool,
    /// Whether the part was refused at first.
    unparted: bool,
    part: Span,
    history: Span,
}

/// Whether an event was created under this entry.
fn is_event(answer: Result<Receipt, Refusal>, entry: u64) -> bool {
    let result = Ok(Reply::Handle(Handle::new(EVENT)));
    answer == Ok(Receipt { entry, result })
}

/// Creates an event, and does so again where memory was refused. On a front that lasts it is closed then, and the next one, which gets its
/// numbers, is never refused.
fn create<N: Named>(
    rt: &impl Wait,
    front: &Front<N>,
    pass: &mut Pass<N>,
    lasts: bool,
    created: &mut Created,
) {
    let first = front.call(rt, pass, Act::CreateEvent(0));
    let result = Err(Refusal::Memory);
    created.refused = first == Ok(Receipt { entry: 1, result });
    let entry = 1 + u64::from(created.refused);
    created.is_right = if created.refused {
        is_event(front.call(rt, pass, Act::CreateEvent(0)), entry)
    } else {
        is_event(first, entry)
    };
    if lasts {
        let result = Ok(Reply::Done);
        let closed = front.call(rt, pass, Act::Close(Handle::new(EVENT)));
        created.is_again = closed
            == Ok(Receipt {
                entry: entry + 1,
                result,
            })
            && is_event(front.call(rt, pass, Act::CreateEvent(0)), entry + 2);
    }
}

/// Which entries the next part of the journal has.
fn part_of<N: Named>(
    rt: &impl Wait,
    front: &Front<N>,
    pass: &mut Pass<N>,
) -> Result<Span, Refusal> {
    let part = front.rotate(rt, pass)?;
    let span = Span::of_part(&part);
    drop(part);
    Ok(span)
}

/// Takes a part of the journal, and does so again where memory was refused.
fn take_part<N: Named>(
    rt: &impl Wait,
    front: &Front<N>,
    pass: &mut Pass<N>,
    created: &mut Created,
) {
    let mut answer = part_of(rt, front, pass);
    if answer == Err(Refusal::Memory) {
        created.unparted = true;
        answer = part_of(rt, front, pass);
    }
    if let Ok(span) = answer {
        created.part = span;
    }
}

/// Has the first thread create an event and take a part, and puts all passes among the holds.
fn create_by<N: Named>(
    rt: &impl Wait,
    front: &Front<N>,
    passes: &mut Vec<Pass<N>>,
    holds: &mut Vec<Held<N>>,
    lasts: bool,
    created: &mut Created,
)
    requires { vec_len holds.old + vec_len passes.old ≤ vec_capacity holds.old }
    ensures { vec_len passes.new ≡ 0 }
{
    while let Some(mut pass) = passes.pop() {
        if pass.thread().get() == 0 {
            create(rt, front, &mut pass, lasts, created);
            take_part(rt, front, &mut pass, created);
        }
        holds.push_reserved(Held::Pass(pass));
    }
}

/// Opens the front, creates an event, takes a part, and tells what the history has.
fn create_on<N: Named>(
    rt: &impl Wait,
    alloc: Global,
    blank: Blank,
    lasts: bool,
) -> Result<Created, Refusal>
    requires { (blank ≡ N.front) × (blank.threads ≡ 2) }
{
    match Vec::<Held<N>>::with_capacity(alloc, 2) {
        Ok(holds) => create_with(rt, alloc, blank, holds, lasts),
        Err(_) => {
            let_go(blank);
            Err(Refusal::Memory)
        }
    }
}

/// Opens the front, creates an event, takes a part, and tells what the history has, with room for the holds.
fn create_with<N: Named>(
    rt: &impl Wait,
    alloc: Global,
    blank: Blank,
    holds: Vec<Held<N>>,
    lasts: bool,
) -> Result<Created, Refusal>
    requires front { (blank ≡ N.front) × (blank.threads ≡ 2) }
    requires holds { (vec_len holds ≡ 0) × (2 ≤ vec_capacity holds) }
{
    match open::<N>(alloc, blank) {
        Ok((front, passes)) => Ok(create_and_finish(rt, front, passes, holds, lasts)),
        Err(refused) => {
            holds.destroy_empty();
            Err(refused)
        }
    }
}

/// Has the first thread create an event and take a part, and ends the front.
fn create_and_finish<N: Named>(
    rt: &impl Wait,
    front: Front<N>,
    mut passes: Vec<Pass<N>>,
    mut holds: Vec<Held<N>>,
    lasts: bool,
) -> Created
    requires { vec_len holds + vec_len passes ≤ vec_capacity holds }
{
    let mut created = Created::default();
    create_by(rt, &front, &mut passes, &mut holds, lasts, &mut created);
    passes.destroy_empty();
    let history = front.finish(holds);
    created.history = Span::of_history(&history);
    drop(history);
    created
}

/// Opens a front of these parts, and creates an event on it.
fn create_in(rt: &impl Wait, alloc: Global, blank: Blank, lasts: bool) -> Result<Created, Refusal>
    requires { blank.threads ≡ 2 }
{
    create_on::<Brand>(rt, alloc, blank, lasts)
}

/// The same, with a second try where the opening finds no memory.
fn create_at_last(rt: &(impl FrontHost + Wait), lasts: bool) -> Result<Created, Refusal> {
    let blank = prepared(rt, lasts)?;
    match create_in(rt, rt.alloc(), blank, lasts) {
        Err(Refusal::Memory) => {
            tell_refused(rt, "an opening");
            let blank = blank_of(rt.alloc(), lasts)?;
            create_in(rt, rt.alloc(), blank, lasts)
        }
        answer => answer,
    }
}

/// Looks whether the part has all entries, and the history none.
fn expect_spans(rt: &impl FrontHost, created: &Created, entries: u64) {
    expect_equal(rt, created.part, Span { first: 1, entries }, "the part");
    let rest = Span {
        first: entries.saturating_add(1),
        entries: 0,
    };
    expect_equal(rt, created.history, rest, "the history");
}

#[test]
fn a_refused_creation_stands_in_the_journal(rt: HostRuntime) -> Result<(), Fail> {
    for lasts in [false, true] {
        let created = create_at_last(&rt, lasts)?;
        if created.refused {
            tell_refused(&rt, "a call");
        }
        if created.unparted {
            tell_refused(&rt, "a part");
        }
        let is_right = created.is_right && created.is_again == lasts;
        expect(&rt, is_right, "a second try");
        let entries = 1 + u64::from(created.refused) + 2 * u64::from(lasts);
        expect_spans(&rt, &created, entries);
    }
    Ok(())
}
