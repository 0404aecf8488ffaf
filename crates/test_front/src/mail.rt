//! The mail: the bits of reply words, and each step once.
ghost use Rattle.std.specs.Prelude.{◌≡◌, ◌+◌, ◌<◌, ◌≤◌, ◌++◌, ◌∷◌, [], length, true, false, IfOk, Ok};
ghost use Rattle.nt_calls.specs.declared.call.Call.{Call};
ghost use Rattle.nt_calls.specs.declared.call.Reply.{Reply};
ghost use Rattle.nt_calls.specs.declared.call.WaitCall.{WaitCall};
ghost use Rattle.nt_calls.specs.Moves.{pended};
ghost use Rattle.nt_mail.specs.declared.entry.Entry.TheVariants.{Called};
ghost use Rattle.nt_mail.specs.Entries.{is_armed};
ghost use Rattle.nt_mail.specs.Knowledge.{knows, newcomers};
ghost use Rattle.nt_mail.specs.Packed.{hands_apc};
ghost use Rattle.nt_mail.specs.Seats.{seated};

use crate::expect::{expect_at, expect_equal};
use crate::refused::{FrontHost, tell_refused};
use nt_core::{Act, Call, Reply, WaitCall, WaitMode};
use nt_mail::{
    DispatcherSeat, ENTRY_LIMIT, Mail, Opened, PackedEntry, STATES, ThreadSeat, Word, told_by,
};
use nt_status::{Handle, Handles, Moment, Status, ThreadId};
use std::alloc::AllocError;
use std::test::Fail;

// The low 10 bits are 0 for idle, 1 for armed, and 2 and the status's code for granted; the entry's number stands above them.
#[test]
fn words_have_their_bits(rt: HostRuntime) {
    let bits = [
        Word::Idle(0).bits(),
        Word::Idle(4).bits(),
        Word::Armed(2).bits(),
        Word::Granted(4, Status::object(0)).bits(),
        Word::Granted(4, Status::TIMEOUT).bits(),
        Word::Idle(18014398509481983).bits(),
    ];
    let expected = [0, 4096, 2049, 4098, 4356, 18446744073709550592];
    expect_equal(&rt, bits, expected, "the bits of words");
}

#[test]
fn bits_are_those_of_one_word(rt: HostRuntime) {
    for (bits, word) in [
        (0, Word::Idle(0)),
        (4096, Word::Idle(4)),
        (18446744073709550592, Word::Idle(18014398509481983)),
        (2049, Word::Armed(2)),
        (4098, Word::Granted(4, Status::object(0))),
        (4161, Word::Granted(4, Status::object(63))),
        (4226, Word::Granted(4, Status::abandoned(0))),
        (4289, Word::Granted(4, Status::abandoned(63))),
        (4290, Word::Granted(4, Status::IO_COMPLETION)),
        (4356, Word::Granted(4, Status::TIMEOUT)),
    ] {
        expect_at(&rt, Word::from_bits(bits) == Some(word), "bits", bits);
    }
}

// Armed and granted words with the number 0, and low bits of no state: 66 is 2 and a code that no wait ends with.
#[test]
fn other_bits_are_no_words(rt: HostRuntime) {
    for bits in [1, 2, 260, 4162, 4225, 4291, 4355, 4357, 5119] {
        let is_none = Word::from_bits(bits).is_none() && told_by(bits).is_none();
        expect_at(&rt, is_none, "bits", bits);
    }
}

// Idle and armed words tell no grant.
#[test]
fn granted_words_alone_tell(rt: HostRuntime) {
    for (bits, told) in [
        (4096, None),
        (2049, None),
        (4098, Some((4, Reply::Status(Status::object(0))))),
        (4356, Some((4, Reply::Status(Status::TIMEOUT)))),
    ] {
        expect_at(&rt, told_by(bits) == told, "bits", bits);
    }
}

/// A mail of two threads, with a second try where memory is refused.
fn open(rt: &impl FrontHost) -> Result<Opened, AllocError>
    ensures words { IfOk result (λ o. o.mail.words ≡ 3) }
    ensures seats { IfOk result (λ o. o.seats
        ≡ record { table = o.mail; written = []; published = []; parts = newcomers 0 2 }) }
{
    match Mail::new(rt.alloc(), 2) {
        Ok(opened) => Ok(opened),
        Err(_) => {
            tell_refused(rt, "the mail's");
            Mail::new(rt.alloc(), 2)
        }
    }
}

/// The handle of the event. Those of two threads are 0 and 1.
const EVENT: u32 = 2;

/// INFINITE: a timeout that never passes.
const INFINITE: u32 = 0xFFFF_FFFF;

/// What the waiter reads of its word, in order, what its takes find, and the moment that it reads.
#[derive(Clone, Copy, PartialEq, Eq, Debug)]
struct Told {
    words: [u64; 5],
    takes: [Result<(), u64>; 2],
    moment: Moment,
}

/// Writes a call of the thread that does not wait.
fn note(
    mail: &Mail,
    dispatcher: &mut DispatcherSeat,
    caller: &mut ThreadSeat,
    act: Act,
    reply: Reply,
    number: u64,
)
    requires table { (dispatcher.old.table ≡ mail.now) × (caller.old.table ≡ mail.now) }
    requires reply { (pended (Ok reply) ≡ false) × (hands_apc (Ok reply) ≡ false) }
    requires idle { is_armed caller.old.known.thread dispatcher.old.written ≡ false }
    requires number { (number ≡ length dispatcher.old.written + 1) × (number < ENTRY_LIMIT) }
    ensures written { dispatcher.new
        ≡ record dispatcher.old {
          written = dispatcher.old.written ++ Called caller.old.known.thread (Call.Act act)
              (Ok reply) ∷ [];
        } }
    ensures caller { (caller.new.table ≡ mail.now) × (caller.new.known.thread ≡ caller.old.known.thread) }
{
    let entry = PackedEntry::called(caller.thread(), Call::Act(act), Ok(reply));
    mail.note(dispatcher, caller, &entry, number);
}

/// Writes a wait of the thread, which pends.
fn arm(
    mail: &Mail,
    dispatcher: &mut DispatcherSeat,
    caller: &mut ThreadSeat,
    wait: WaitCall,
    number: u64,
)
    requires table { (dispatcher.old.table ≡ mail.now) × (caller.old.table ≡ mail.now) }
    requires idle { is_armed caller.old.known.thread dispatcher.old.written ≡ false }
    requires number { (number ≡ length dispatcher.old.written + 1) × (number < ENTRY_LIMIT) }
    ensures written { dispatcher.new
        ≡ record dispatcher.old {
          written = dispatcher.old.written ++ Called caller.old.known.thread (Call.Wait wait)
              (Ok Reply.Pended) ∷ [];
        } }
    ensures caller { (caller.new.table ≡ mail.now) × (caller.new.known.thread ≡ caller.old.known.thread) }
{
    let entry = PackedEntry::called(caller.thread(), Call::Wait(wait), Ok(Reply::Pended));
    mail.arm(dispatcher, caller, &entry, number);
}

/// The waiter reads its word, takes the grant that is there, reads again, and tries to take the grant once more.
fn take_twice(mail: &Mail, waiter: &mut ThreadSeat, told: &mut Told)
    requires { waiter.old.table ≡ mail.now }
    ensures { (waiter.new.table ≡ mail.now) × (waiter.new.known.thread ≡ waiter.old.known.thread) }
{
    let granted = mail.poll(waiter);
    told.words[2] = granted;
    if granted % STATES < 2 {
        return;
    }
    told.takes[0] = mail.take(waiter, granted);
    told.words[3] = mail.poll(waiter);
    told.takes[1] = mail.take(waiter, granted);
}

/// The setter creates an event under entry 1, and the waiter's wait for it pends at entry 2. The setter sets the event under entry
/// 3, which grants the wait at entry 4.
fn hand_over(
    mail: &Mail,
    dispatcher: &mut DispatcherSeat,
    setter: &mut ThreadSeat,
    waiter: &mut ThreadSeat,
    wait: WaitCall,
    told: &mut Told,
)
    requires words { mail.now.words ≡ 3 }
    requires dispatcher { dispatcher.old ≡ record { table = mail.now; written = []; published = [] } }
    requires setter { setter.old ≡ seated mail.now (knows 0 [] [] [] []) }
    requires waiter { waiter.old ≡ seated mail.now (knows 1 [] [] [] []) }
    ensures dispatcher { (dispatcher.new.table ≡ mail.now) × (dispatcher.new.published ≡ []) }
    ensures entries { (length dispatcher.new.written ≡ 4) × (is_armed 1 dispatcher.new.written ≡ false) }
    ensures setter { setter.new.table ≡ mail.now }
    ensures waiter { (waiter.new.table ≡ mail.now) × (waiter.new.known.thread ≡ 1) }
{
    let event = Handle::new(EVENT);
    told.words[0] = mail.poll(waiter);
    note(
        mail,
        dispatcher,
        setter,
        Act::CreateEvent(0),
        Reply::Handle(event),
        1,
    );
    arm(mail, dispatcher, waiter, wait, 2);
    told.words[1] = mail.poll(waiter);
    note(
        mail,
        dispatcher,
        setter,
        Act::SetEvent(event),
        Reply::Done,
        3,
    );
    mail.grant(dispatcher, ThreadId::new(1), Status::object(0), 4);
    take_twice(mail, waiter, told);
}

/// The waiter ticks under entry 5, and reads the moment.
fn tick(
    mail: &Mail,
    dispatcher: &mut DispatcherSeat,
    waiter: &mut ThreadSeat,
    moment: Moment,
    told: &mut Told,
)
    requires table { (dispatcher.old.table ≡ mail.now) × (waiter.old.table ≡ mail.now) }
    requires dispatcher { (dispatcher.old.published ≡ []) × (length dispatcher.old.written ≡ 4) }
    requires waiter { (waiter.old.known.thread ≡ 1) × (is_armed 1 dispatcher.old.written ≡ false) }
    ensures { (dispatcher.new.table ≡ mail.now) × (waiter.new.table ≡ mail.now) }
{
    let entry = PackedEntry::ticked(waiter.thread(), moment, Ok(Reply::Done));
    mail.note(dispatcher, waiter, &entry, 5);
    told.words[4] = mail.poll(waiter);
    mail.publish_moment(dispatcher, moment);
    told.moment = mail.read_moment(waiter);
}

/// Both threads do their parts on this mail, and it is closed.
fn told_on(opened: Opened, wait: WaitCall, moment: Moment) -> Told
    requires words { opened.mail.words ≡ 3 }
    requires seats { opened.seats
        ≡ record { table = opened.mail; written = []; published = []; parts = newcomers 0 2 } }
{
    let Opened { mail, mut seats } = opened;
    let mut setter = mail.part(&mut seats, ThreadId::new(0));
    let mut waiter = mail.part(&mut seats, ThreadId::new(1));
    let mut dispatcher = seats.into_dispatcher();
    let mut told = Told {
        words: [u64::MAX; 5],
        takes: [Err(0); 2],
        moment: Moment::ZERO,
    };
    hand_over(
        &mail,
        &mut dispatcher,
        &mut setter,
        &mut waiter,
        wait,
        &mut told,
    );
    tick(&mail, &mut dispatcher, &mut waiter, moment, &mut told);
    let mut all = dispatcher.gather();
    mail.join(&mut all, setter);
    mail.join(&mut all, waiter);
    mail.close(all);
    told
}

// The waiter's word: idle without an entry, armed by entry 2, granted by entry 4 with the status 0, and idle with that entry once the
// grant is taken. Entry 5 leaves it so.
#[test]
fn a_grant_is_taken_once(rt: HostRuntime) -> Result<(), Fail> {
    let moment = Moment::new(7).ok_or("7 is a moment")?;
    let wait = WaitCall::Objects {
        handles: Handles::from_slice(rt.alloc(), &[Handle::new(EVENT)])?,
        all: false,
        mode: WaitMode {
            ms: INFINITE,
            alertable: false,
        },
    };
    let told = told_on(open(&rt)?, wait, moment);
    let is = Told {
        words: [0, 2049, 4098, 4096, 4096],
        takes: [Ok(()), Err(4096)],
        moment,
    };
    expect_equal(&rt, told, is, "what a taken grant leaves");
    Ok(())
}
