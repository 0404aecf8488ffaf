//! What two threads of a front ask for in turn, what each is answered, and what the journal has of it, numbers given again and threads that
//! begin again too.
ghost use Rattle.std.specs.Prelude.{◌≡◌, ◌+◌, ◌≤◌, vec_len, vec_capacity};

use crate::expect::expect_equal;
use crate::front::again_rows::{Gives, LIVES, Life, Renewed};
use crate::front::asks::{FrontRequest, Makes, Row, ask_for};
use crate::front::named_rows::SCENARIOS;
use crate::front::replay::first_difference;
use crate::front::says::{FrontAnswer, Said};
use crate::front::told::let_go;
use crate::refused::{FrontHost, is_refusing};
use nt_core::{Act, Reply};
use nt_front::{
    BegunAgain, Blank, Front, Held, History, Named, PackedEntry, Part, Pass, ReadEntry, Receipt,
    open, prepare, prepare_lasting,
};
use nt_front_calls::Calls;
use nt_life::Renewal;
use nt_status::{Access, Handle, ObjectNumber, Refusal};
use std::alloc::{Alloc, Global};
use std::marker::Brand;
use std::sync::Wait;
use std::test::Fail;

/// The first row that is answered otherwise, by its place, and what it is answered.
type Other = Option<(usize, Said)>;

/// What is seen of a life beside its rows.
#[derive(Clone, Copy, PartialEq, Eq, Debug)]
struct Seen {
    other: Other,
    /// Whether what the journal tells of numbers that were given again is just what was expected.
    renewed: bool,
    /// How many entries the history has.
    rest: usize,
    /// The number of the first entry that a fresh dispatcher answers otherwise; 0 if there is none.
    difference: u64,
}

/// What a thread that began learns.
fn said_begun(receipt: &Receipt) -> Said {
    match &receipt.result {
        Ok(Reply::Handle(handle)) => Said {
            entry: receipt.entry,
            answer: FrontAnswer::Handle(handle.get()),
        },
        _ => Said::NOTHING,
    }
}

/// A thread that has ended asks to begin again.
fn begin_again<N: Named>(rt: &impl Wait, front: &Front<N>, held: Held<N>) -> (Held<N>, Said) {
    match held {
        Held::Ended(ended) => match front.begin_again(rt, ended) {
            BegunAgain::Begun(pass, receipt) => (Held::Pass(pass), said_begun(&receipt)),
            BegunAgain::Taken(ended) => (Held::Ended(ended), Said::unwritten(FrontAnswer::Taken)),
            BegunAgain::NoRoom(ended) => (Held::Ended(ended), Said::unwritten(FrontAnswer::Full)),
        },
        awake => (awake, Said::NOTHING),
    }
}

/// A thread that has its pass takes a part of the journal, which comes after the others.
fn take_part<N: Named>(
    rt: &impl Wait,
    front: &Front<N>,
    held: Held<N>,
    parts: &mut Vec<Part>,
) -> (Held<N>, Said) {
    match held {
        Held::Pass(mut pass) => {
            let said = said_part(front.rotate(rt, &mut pass), parts);
            (Held::Pass(pass), said)
        }
        other => (other, Said::NOTHING),
    }
}

/// Keeps the part: the number of its first entry, and how many there are.
fn said_part(taken: Result<Part, Refusal>, parts: &mut Vec<Part>) -> Said {
    let Ok(part) = taken else {
        return Said::NOTHING;
    };
    let entry = part.first;
    let answer = FrontAnswer::Entries(part.entries.len());
    drop(parts.push(part));
    Said { entry, answer }
}

/// A thread that has its pass reads the moment.
fn read_moment<N: Named>(front: &Front<N>, held: Held<N>) -> (Held<N>, Said) {
    match held {
        Held::Pass(mut pass) => {
            let answer = FrontAnswer::Moment(front.now(&mut pass).get());
            (Held::Pass(pass), Said::unwritten(answer))
        }
        other => (other, Said::NOTHING),
    }
}

/// What a thread is answered, and what it holds then.
fn step<N: Named, R: Wait + Alloc<A = Global>>(
    calls: &Calls<'_, '_, N, R>,
    rt: &R,
    front: &Front<N>,
    held: Held<N>,
    ask: FrontRequest,
    parts: &mut Vec<Part>,
) -> (Held<N>, Said) {
    match ask {
        FrontRequest::BeginAgain => begin_again(rt, front, held),
        FrontRequest::Part => take_part(rt, front, held, parts),
        FrontRequest::Now => read_moment(front, held),
        _ => ask_for(calls, held, ask),
    }
}

/// Has two threads ask for the rows in turn, up to the first that is answered otherwise.
fn ask_all<N: Named, R: Wait + Alloc<A = Global>>(
    rt: &R,
    front: &Front<N>,
    rows: &[Row],
    first: Held<N>,
    second: Held<N>,
    parts: &mut Vec<Part>,
) -> (Held<N>, Held<N>, Other) {
    let calls = Calls::of(front, rt);
    let mut first = first;
    let mut second = second;
    for place in 0..rows.len() {
        let Row(by, ask, entry, answer) = rows[place];
        let said = if by == 0 {
            let (held, said) = step(&calls, rt, front, first, ask, parts);
            first = held;
            said
        } else {
            let (held, said) = step(&calls, rt, front, second, ask, parts);
            second = held;
            said
        };
        if said != (Said { entry, answer }) {
            return (first, second, Some((place, said)));
        }
    }
    (first, second, None)
}

/// Has the threads of both passes ask, and puts what they hold then among the holds.
fn ask_by_both<N: Named, R: Wait + Alloc<A = Global>>(
    rt: &R,
    front: &Front<N>,
    passes: &mut Vec<Pass<N>>,
    holds: &mut Vec<Held<N>>,
    rows: &[Row],
    parts: &mut Vec<Part>,
) -> Other
    requires { (vec_len passes.old ≡ 2) × (vec_len holds.old + 2 ≤ vec_capacity holds.old) }
    ensures { vec_len passes.new ≡ 0 }
{
    let Some(second) = passes.pop() else {
        return None;
    };
    let Some(first) = passes.pop() else {
        holds.push_reserved(Held::Pass(second));
        return None;
    };
    let (first, second) = (Held::Pass(first), Held::Pass(second));
    let (first, second, other) = ask_all(rt, front, rows, first, second, parts);
    holds.push_reserved(first);
    holds.push_reserved(second);
    other
}

/// Has both threads ask, and ends the front.
fn ask_and_finish<N: Named, R: Wait + Alloc<A = Global>>(
    rt: &R,
    front: Front<N>,
    mut passes: Vec<Pass<N>>,
    mut holds: Vec<Held<N>>,
    rows: &[Row],
    parts: &mut Vec<Part>,
) -> (Other, History)
    requires { (vec_len passes ≡ 2) × (vec_len holds + 2 ≤ vec_capacity holds) }
{
    let other = ask_by_both(rt, &front, &mut passes, &mut holds, rows, parts);
    passes.destroy_empty();
    (other, front.finish(holds))
}

/// The same on a front that is opened for it, with room for the holds.
fn ask_with<N: Named, R: Wait + Alloc<A = Global>>(
    rt: &R,
    blank: Blank,
    holds: Vec<Held<N>>,
    rows: &[Row],
    parts: &mut Vec<Part>,
) -> Result<(Other, History), Refusal>
    requires front { (blank ≡ N.front) × (blank.threads ≡ 2) }
    requires holds { (vec_len holds ≡ 0) × (2 ≤ vec_capacity holds) }
{
    match open::<N>(rt.alloc(), blank) {
        Ok((front, passes)) => Ok(ask_and_finish(rt, front, passes, holds, rows, parts)),
        Err(refused) => {
            holds.destroy_empty();
            Err(refused)
        }
    }
}

fn ask_on<N: Named, R: Wait + Alloc<A = Global>>(
    rt: &R,
    blank: Blank,
    rows: &[Row],
    parts: &mut Vec<Part>,
) -> Result<(Other, History), Refusal>
    requires { (blank ≡ N.front) × (blank.threads ≡ 2) }
{
    match Vec::<Held<N>>::with_capacity(rt.alloc(), 2) {
        Ok(holds) => ask_with(rt, blank, holds, rows, parts),
        Err(_) => {
            let_go(blank);
            Err(Refusal::Memory)
        }
    }
}

/// The same on a front of two threads that lasts or does not.
fn ask_in<R: Wait + Alloc<A = Global>>(
    rt: &R,
    life: &Life,
    parts: &mut Vec<Part>,
) -> Result<(Other, History), Refusal> {
    let blank = if life.lasts {
        prepare_lasting(rt.alloc(), 2, life.room)?
    } else {
        prepare(rt.alloc(), 2, life.room)?
    };
    ask_on::<Brand, R>(rt, blank, life.rows, parts)
}

/// The creation that makes this.
fn act_of(makes: Makes) -> Act {
    match makes {
        Makes::Event => Act::CreateEvent(0),
        Makes::Semaphore(initial, maximum) => Act::CreateSemaphore { initial, maximum },
        Makes::OwnedMutex => Act::CreateMutex(1),
        Makes::Timer => Act::CreateTimer(0),
        Makes::ToWait(handle) => Act::Duplicate {
            handle: Handle::new(handle),
            access: Access::SYNCHRONIZE.bits(),
        },
        Makes::ToModify(handle) => Act::Duplicate {
            handle: Handle::new(handle),
            access: Access::MODIFY_STATE.bits(),
        },
    }
}

/// What the entry tells of these numbers; none, if it is no duplicate that is to have one.
fn renewal_of(gives: Gives) -> Option<Renewal> {
    match gives {
        Gives::Object(makes, object, handle) => Some(Renewal::Create {
            act: act_of(makes),
            object: ObjectNumber::new(object),
            handle: Handle::new(handle),
        }),
        Gives::Handle(makes, number) => match act_of(makes) {
            Act::Duplicate { handle, access } => Some(Renewal::Duplicate {
                source: handle,
                access,
                handle: Handle::new(number),
            }),
            _ => None,
        },
        Gives::Thread(handle) => Some(Renewal::Begin(Handle::new(handle))),
    }
}

/// The answer, with the number of a refusal.
fn told(answer: &Result<Handle, Refusal>) -> Result<u32, u32> {
    match answer {
        Ok(handle) => Ok(handle.get()),
        Err(refusal) => Err(refusal.number()),
    }
}

/// Whether this entry tells that numbers were given again, and if so, whether it tells just this.
fn is_told(number: u64, entry: &PackedEntry, expected: Option<&Renewed>) -> Option<bool> {
    let ReadEntry::Renewed {
        who,
        renewal,
        result,
    } = entry.read()
    else {
        return None;
    };
    let Some(Renewed(at, thread, gives, answer)) = expected else {
        return Some(false);
    };
    Some(
        *at == number
            && *thread == who.get()
            && renewal_of(*gives) == Some(*renewal)
            && told(&result) == *answer,
    )
}

/// How many of the expected renewals stand in the entries up to these, where `before` stand earlier; none if another one does.
fn read(expected: &[Renewed], before: usize, first: u64, entries: &[PackedEntry]) -> Option<usize> {
    let mut count = before;
    for i in 0..entries.len() {
        let number = first.wrapping_add(i as u64);
        match is_told(number, &entries[i], expected.get(count)) {
            None => {}
            Some(true) => count = count.saturating_add(1),
            Some(false) => return None,
        }
    }
    Some(count)
}

/// Whether the expected renewals stand in the parts and the history, and no other.
fn are_told(expected: &[Renewed], parts: &[Part], history: &History) -> bool {
    let mut count = 0;
    for part in parts {
        match read(expected, count, part.first, part.entries.as_slice()) {
            Some(next) => count = next,
            None => return false,
        }
    }
    let rest = history.entries.as_slice();
    read(expected, count, history.first, rest) == Some(expected.len())
}

/// What is seen of this life.
fn seen_of<R: Wait + Alloc<A = Global>>(rt: &R, life: &Life) -> Result<Seen, Refusal> {
    let mut parts = Vec::new(rt.alloc());
    let (other, history) = ask_in(rt, life, &mut parts)?;
    let renewed = are_told(life.renewed, parts.as_slice(), &history);
    let rest = history.entries.len();
    let difference = first_difference(rt.alloc(), 2, parts.as_slice(), &history);
    drop(history);
    drop(parts);
    Ok(Seen {
        other,
        renewed,
        rest,
        difference: difference?,
    })
}

/// Each of these lives is answered as its rows say.
fn check_all<R: FrontHost + Wait + Alloc<A = Global>>(rt: &R, lives: &[Life]) -> Result<(), Fail> {
    if is_refusing(rt) {
        return Ok(());
    }
    for life in lives {
        let expected = Seen {
            other: None,
            renewed: true,
            rest: life.rest,
            difference: 0,
        };
        expect_equal(rt, seen_of(rt, life)?, expected, life.shows);
    }
    Ok(())
}

#[test]
fn numbers_come_back_to_a_front_that_lasts(rt: HostRuntime) -> Result<(), Fail> {
    check_all(&rt, LIVES)
}

#[test]
fn each_call_by_its_name_is_answered(rt: HostRuntime) -> Result<(), Fail> {
    check_all(&rt, SCENARIOS)
}
