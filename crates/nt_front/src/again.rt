//! Threads that begin again in the places of those that ended.
ghost use Rattle.std.specs.Prelude.{◌≡◌, ◌↔◌, true, IfOk, IfErr, OnErr, Ok, Err};
ghost use Rattle.nt_calls.specs.declared.call.Reply.{Reply};
ghost use Rattle.nt_mail.specs.declared.knowledge.Asked.{Asked};
ghost use Rattle.nt_front.specs.Again.{IsUnbegun};
ghost use Rattle.nt_front.specs.Books.{IsEntered, IsFull, WritesBegin};
ghost use Rattle.nt_front.specs.Polls.{IsBegunAgain};
ghost use Rattle.nt_front.specs.declared.again.Unbegun.TheVariants.{NoRoom};

use crate::book::Book;
use crate::front::Front;
use crate::hold::{Ended, Hold, Pass};
use crate::named::Named;
use crate::receipt::Receipt;
use crate::write::tell;
use nt_core::Reply;
use nt_life::Renewal;
use nt_mail::{Mail, PackedEntry};
use nt_status::Handle;
use std::sync::Wait;

/// What a thread is answered that is to begin again.
pub enum BegunAgain<N: Named> {
    /// It runs. The receipt tells its handle, which has all rights of a thread.
    Begun(Pass<N>, Receipt),
    /// Handles still name the ended thread, or no handle was closed, or the front does not last; nothing was done.
    Taken(Ended<N>),
    /// The journal is full, and nothing was done.
    NoRoom(Ended<N>),
}

/// Why a thread does not begin again.
pub(crate) enum Unbegun {
    /// The journal is full.
    NoRoom,
    /// The place is not free.
    Taken,
}

/// The entry of a beginning, and the thread's handle.
#[derive(Clone, Copy)]
pub(crate) struct Beginning {
    entry: u64,
    handle: Handle,
}

impl<N: Named> Book<N> {
    /// Has the thread of this hold begin again, once it has ended and its object is gone, and writes that.
    ///
    /// It needs room as a call does.
    pub(crate) fn begin_again(
        &mut self,
        mail: &Mail,
        caller: &mut Hold<N>,
    ) -> Result<Beginning, Unbegun>
        requires mail { mail.now ≡ N.front.table }
        ensures book { IfOk result (λ b. WritesBegin self.old caller.old.thread b.handle self.new) }
        ensures lasts { IfOk result (λ b. N.front.lasts ≡ true) }
        ensures entered { IfOk result (λ b. IsEntered self.old caller.old Asked.Begin
            (record { entry = b.entry; result = Ok (Reply.Handle b.handle) }) caller.new) }
        ensures full { (result ≡ Err NoRoom) ↔ IsFull self.old }
        ensures unbegun { IfErr result (IsUnbegun N.front caller.old) }
        ensures kept { OnErr result (caller.new ≡ caller.old) }
    {
        let place = self.journal.len();
        let entry = self.first + place as u64;
        if self.is_full(entry) {
            let _ = self.refusal(mail, caller);
            return Err(Unbegun::NoRoom);
        }
        let who = caller.thread();
        let number = u32::from(who.get());
        let armed = self.life.core().is_waiting(number);
        let Some(handle) = self.life.begin_this(number) else {
            mail.look(&mut self.dispatcher, &mut caller.seat);
            return Err(Unbegun::Taken);
        };
        self.journal.push_reserved(PackedEntry::renewed(who, Renewal::Begin(handle), Ok(handle)));
        tell(
            mail,
            &mut self.dispatcher,
            &mut caller.seat,
            &self.journal[place],
            entry,
            armed,
        );
        caller.calls += 1;
        Ok(Beginning { entry, handle })
    }
}

impl<N: Named> Front<N> {
    /// Has a thread that ended begin again: its pass is for a thread that begins in its place, and knows what the ended one knew. The front
    /// has to last, no handle may name the ended thread, and some handle must be closed, whose number is given again to the thread's own.
    pub fn begin_again(&self, rt: &impl Wait, ended: Ended<N>) -> BegunAgain<N>
        ensures { IsBegunAgain N.front ended result }
    {
        let Ended { mut hold } = ended;
        match self.book.lock(rt).begin_again(&self.mail, &mut hold) {
            Ok(Beginning { entry, handle }) => {
                let result = Ok(Reply::Handle(handle));
                BegunAgain::Begun(Pass { hold }, Receipt { entry, result })
            }
            Err(Unbegun::NoRoom) => BegunAgain::NoRoom(Ended { hold }),
            Err(Unbegun::Taken) => BegunAgain::Taken(Ended { hold }),
        }
    }
}
