//! How a front is made.
ghost use Rattle.std.specs.Prelude.{◌≡◌, ◌+◌, ◌≤◌, ◌&&◌, [], vec_len, vec_capacity, IfOk, IfErr, MatchBool, is_some, true, false, nat_le};
ghost use Rattle.nt_status.specs.declared.refusal.Refusal.TheVariants.{InvalidParameter, Memory};
ghost use Rattle.nt_calls.specs.State.{opening};
ghost use Rattle.nt_machine.specs.Dispatcher.{state};
ghost use Rattle.nt_machine.specs.Lawful.{IsLawful};
ghost use Rattle.nt_mail.specs.Knowledge.{newcomers};
ghost use Rattle.nt_front.specs.Books.{is_lawful_front};
ghost use Rattle.nt_front.specs.Holds.{new_threads};

use crate::book::Book;
use crate::front::Front;
use crate::hold::{Hold, LOOKS, Pass};
use crate::lock::Locked;
use crate::named::Named;
use crate::wake::Bells;
use nt_core::Core;
use nt_life::Lasting;
use nt_mail::{JoinedSeats, Mail, Opened, PackedEntry};
use nt_status::{MAX_THREADS, Moment, Refusal, ThreadId};
use std::alloc::Global;
use std::marker::{Model, PhantomData};
use std::mem::ManuallyDrop;

/// The most entries that a journal may have room for.
pub const MAX_ROOM: usize = 1_048_576;

const _: () = prove!(MAX_ROOM == 0x10_0000);

/// A front that no name stands for yet.
pub struct Blank {
    mail: Mail,
    seats: JoinedSeats,
    life: Lasting,
    journal: Vec<PackedEntry>,
    threads: u32,
    room: usize,
    lasts: bool,
}

/// Written by hand, as that of a front.
impl Drop for Blank {
    fn drop(self) {
        let Blank {
            mail: _,
            seats: _,
            life: _,
            journal: _,
            threads: _,
            room: _,
            lasts: _,
        } = self;
    }
}

impl Model for Blank {
    ghost use Rattle.std.specs.Prelude.{vec_capacity};
    ghost use Rattle.nt_front.specs.Names.{Prepared, prepared};
    ghost use Rattle.nt_front.specs.Books.{IsBlank};

    ghost Value = { Prepared };

    ghost view = { λ b. prepared b.mail b.threads b.room b.lasts };

    ghost invariant = { λ b. IsBlank (prepared b.mail b.threads b.room b.lasts) b.seats b.life b.journal.items
        (vec_capacity b.journal) };
}

/// Makes what a front for these threads needs, with this room in its journal.
///
/// Refused with 87 unless there are 1 to `MAX_THREADS` threads and room for 1 to `MAX_ROOM` entries, and with 8 where memory is
/// refused.
pub fn prepare(alloc: Global, threads: u32, journal_room: usize) -> Result<Blank, Refusal>
    ensures ok { IfOk result (λ b. (b.threads ≡ threads) × (b.room ≡ journal_room)
        × (is_lawful_front threads journal_room ≡ true)) }
    ensures once { IfOk result (λ b. b.lasts ≡ false) }
    ensures err { IfErr result (λ r. MatchBool (is_lawful_front threads journal_room) (r ≡ Memory)
        (r ≡ InvalidParameter)) }
{
    prepare_for(alloc, threads, journal_room, false)
}

/// Makes what `prepare` makes, for a front that lasts. The numbers of closed handles and of objects that are gone are given again there,
/// and a thread that has ended can begin again.
pub fn prepare_lasting(alloc: Global, threads: u32, journal_room: usize) -> Result<Blank, Refusal>
    ensures ok { IfOk result (λ b. (b.threads ≡ threads) × (b.room ≡ journal_room)
        × (is_lawful_front threads journal_room ≡ true)) }
    ensures lasts { IfOk result (λ b. b.lasts ≡ true) }
    ensures err { IfErr result (λ r. MatchBool (is_lawful_front threads journal_room) (r ≡ Memory)
        (r ≡ InvalidParameter)) }
{
    prepare_for(alloc, threads, journal_room, true)
}

/// Opens the front under its name. The passes are in the order of the threads.
///
/// Refused with 8 where memory is refused.
pub fn open<N: Named>(alloc: Global, blank: Blank) -> Result<(Front<N>, Vec<Pass<N>>), Refusal>
    requires { blank ≡ N.front }
    ensures passes { IfOk result (λ r. r.1.items ≡ new_threads blank.threads) }
    ensures count { IfOk result (λ r. vec_len r.1 ≡ blank.threads) }
    ensures memory { IfErr result (λ r. r ≡ Memory) }
{
    match make_rest(alloc, &blank) {
        Ok(made) => Ok(blank.put_together(made)),
        Err(refused) => {
            drop(blank);
            Err(refused)
        }
    }
}

impl Blank {
    /// Puts the front together. Each thread gets its pass.
    fn put_together<N: Named>(self, made: Made<N>) -> (Front<N>, Vec<Pass<N>>)
        requires name { self ≡ N.front }
        requires room { (made.passes.items ≡ []) × (self.threads ≤ vec_capacity made.passes) }
        requires base { state made.base ≡ opening self.threads }
        requires bells { made.bells ≡ self.threads }
        ensures passes { result.1.items ≡ new_threads self.threads }
        ensures count { vec_len result.1 ≡ self.threads }
    {
        let Blank {
            mail,
            mut seats,
            life,
            journal,
            threads,
            room,
            lasts: _,
        } = self;
        let Made {
            bells,
            mut passes,
            base,
        } = made;
        hand_out(&mail, &mut seats, threads as u16, &mut passes);
        let book = Book::new(life, base, threads, journal, room, seats.into_dispatcher());
        let front = Front {
            mail,
            book: Locked::new(book),
            bells,
        };
        (front, passes)
    }
}

/// What opening takes memory for: a bell for each thread, room for the passes, and the dispatcher that the journal begins at.
struct Made<N: Named> {
    bells: Bells,
    passes: Vec<Pass<N>>,
    base: Core,
}

/// Makes what opening takes memory for.
fn make_rest<N: Named>(alloc: Global, blank: &Blank) -> Result<Made<N>, Refusal>
    ensures passes { IfOk result (λ r. (r.passes.items ≡ []) × (blank.now.threads ≤ vec_capacity r.passes)) }
    ensures base { IfOk result (λ r. state r.base ≡ opening blank.now.threads) }
    ensures bells { IfOk result (λ r. r.bells ≡ blank.now.threads) }
    ensures memory { IfErr result (λ r. r ≡ Memory) }
{
    let threads = blank.threads as usize;
    let bells = Bells::new(alloc, blank.threads as u16)?;
    let passes = Vec::with_capacity(alloc, threads)?;
    match blank.life.core().copy() {
        Ok(base) => Ok(Made {
            bells,
            passes,
            base,
        }),
        Err(refused) => {
            passes.destroy_empty();
            Err(refused)
        }
    }
}

/// Whether a front may have `threads` threads, and its journal room for `room` entries.
fn is_lawful(threads: u32, room: usize) -> bool
    ensures { result ≡ is_lawful_front threads room }
{
    1 <= threads && threads <= MAX_THREADS && 1 <= room && room <= MAX_ROOM
}

/// Makes what a front needs that lasts, or does not.
fn prepare_for(alloc: Global, threads: u32, room: usize, lasts: bool) -> Result<Blank, Refusal>
    ensures ok { IfOk result (λ b. (b.threads ≡ threads) × (b.room ≡ room)
        × (is_lawful_front threads room ≡ true)) }
    ensures lasts { IfOk result (λ b. b.lasts ≡ lasts) }
    ensures err { IfErr result (λ r. MatchBool (is_lawful_front threads room) (r ≡ Memory) (r ≡ InvalidParameter)) }
{
    if !is_lawful(threads, room) {
        return Err(Refusal::InvalidParameter);
    }
    parts(alloc, threads, room, lasts)
}

/// The parts of a front.
fn parts(alloc: Global, threads: u32, room: usize, lasts: bool) -> Result<Blank, Refusal>
    requires { (1 ≤ threads) × (threads ≤ MAX_THREADS) }
    ensures ok { IfOk result (λ b. (b.threads ≡ threads) × (b.room ≡ room)) }
    ensures lasts { IfOk result (λ b. b.lasts ≡ lasts) }
    ensures memory { IfErr result (λ r. r ≡ Memory) }
{
    let Ok(Opened { mail, seats }) = Mail::new(alloc, threads) else {
        return Err(Refusal::Memory);
    };
    let journal = Vec::with_capacity(alloc, room)?;
    let life = life_of(alloc, threads, lasts)?;
    Ok(Blank {
        mail,
        seats,
        life,
        journal,
        threads,
        room,
        lasts,
    })
}

/// A dispatcher for these threads, that lasts or gives each number once.
fn life_of(alloc: Global, threads: u32, lasts: bool) -> Result<Lasting, Refusal>
    requires { (1 ≤ threads) × (threads ≤ MAX_THREADS) }
    ensures opens { IfOk result (λ life. (state life.core ≡ opening threads) × IsLawful life.core) }
    ensures lasts { IfOk result (λ life. is_some life.spare ≡ lasts) }
    ensures memory { IfErr result (λ r. r ≡ Memory) }
{
    let life = if lasts {
        Lasting::new(alloc, threads)?
    } else {
        Lasting::once(alloc, threads)?
    };
    life.stands();
    Ok(life)
}

/// Gives each thread its pass.
fn hand_out<N: Named>(mail: &Mail, seats: &mut JoinedSeats, threads: u16, passes: &mut Vec<Pass<N>>)
    requires mail { (mail.now ≡ N.front.table) × (mail.now.words ≡ threads + 1) }
    requires seats { seats.old
        ≡ record { table = mail.now; written = []; published = []; parts = newcomers 0 threads } }
    requires room { (passes.old.items ≡ []) × (threads ≤ vec_capacity passes.old) }
    ensures seats { seats.new ≡ record { table = mail.now; written = []; published = []; parts = [] } }
    ensures passes { passes.new.items ≡ new_threads threads }
    ensures count { vec_len passes.new ≡ threads }
{
    for thread in 0..threads {
        let seat = mail.part(seats, ThreadId::new(thread));
        let hold = Hold {
            seat: ManuallyDrop::new(seat),
            floor: Moment::ZERO,
            calls: 0,
            looks: LOOKS,
            of: PhantomData,
        };
        passes.push_reserved(Pass { hold });
    }
}
