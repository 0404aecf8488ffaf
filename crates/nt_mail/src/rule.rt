//! The rule of the mail, what each step tells, and how seats part and join.
use crate::knowledge::View;
use atomic_table::{Join, Play, Seat, Split, Table, TableRule};
use std::alloc::Global;
use std::marker::{Brand, PhantomData};

pub(crate) type Letters = Table<(), View, u64, MailRule, Global>;

pub(crate) type Place = Seat<(), View>;

/// What holds between any two steps, for a given number of threads.
pub struct MailRule;

impl TableRule<(), View, u64> for MailRule {
    ghost use Rattle.nt_mail.specs.Rule.{IsMail};
    ghost use Rattle.nt_mail.specs.Views.{first_view};

    ghost holds = { λ _. IsMail };

    ghost first = { first_view };
}

/// The entry that a step writes. Each call picks it.
pub trait Writing {
    ghost use Rattle.nt_mail.specs.declared.entry.Entry.{Entry};

    ghost entry: { Entry };
}

impl Writing for Brand {
    ghost use Rattle.nt_mail.specs.declared.entry.Entry.TheVariants.{Granted};

    ghost entry = { Granted 0 0 };
}

/// The dispatcher writes an entry. A thread that is joined to it learns of its call, under a number above all that it knew.
pub(crate) struct Writes<W> {
    of: PhantomData<W>,
}

impl<W: Writing> Play<(), View> for Writes<W> {
    ghost use Rattle.std.specs.Prelude.{◌≡◌, suc, length};
    ghost use Rattle.nt_mail.specs.Entries.{Each};
    ghost use Rattle.nt_mail.specs.Knowledge.{IsEarlier};
    ghost use Rattle.nt_mail.specs.Views.{with_entry};

    ghost then = { λ step before found after. (after ≡ (with_entry W.entry before.0, before.1))
        × Each (IsEarlier (suc (length before.0.written))) before.0.parts };
}

/// The dispatcher reads the word of the thread that is joined to it, and leaves it as it is. Where the word is idle, it writes an entry
/// as `Writes` does.
pub(crate) struct WritesIfIdle<W> {
    of: PhantomData<W>,
}

impl<W: Writing> Play<(), View> for WritesIfIdle<W> {
    ghost use Rattle.std.specs.Prelude.{◌≡◌, suc, length};
    ghost use Rattle.nt_mail.specs.Entries.{Each};
    ghost use Rattle.nt_mail.specs.Knowledge.{IsEarlier};
    ghost use Rattle.nt_mail.specs.Views.{with_entry_if_idle};

    ghost then = { λ step before found after. (after ≡ (with_entry_if_idle found W.entry before.0, before.1))
        × Each (IsEarlier (suc (length before.0.written))) before.0.parts };
}

/// A thread reads its word.
pub(crate) struct Polls;

impl Play<(), View> for Polls {
    ghost use Rattle.std.specs.Prelude.{◌≡◌};
    ghost use Rattle.nt_mail.specs.Entries.{Each};
    ghost use Rattle.nt_mail.specs.Knowledge.{with_polled};
    ghost use Rattle.nt_mail.specs.Rule.{IsWordFor};
    ghost use Rattle.nt_mail.specs.Views.{with_parts};

    ghost then = { λ step before found after. (after ≡ (with_parts (with_polled found) before.0, before.1))
        × Each (λ k. IsWordFor k found) before.0.parts };
}

/// A thread takes the grant that it read in its word, where the word is still that one.
pub(crate) struct Takes;

impl Play<(), View> for Takes {
    ghost use Rattle.std.specs.Prelude.{◌≡◌};
    ghost use Rattle.nt_mail.specs.Entries.{Each};
    ghost use Rattle.nt_mail.specs.Knowledge.{after_take};
    ghost use Rattle.nt_mail.specs.Rule.{IsWordFor};
    ghost use Rattle.nt_mail.specs.Views.{with_parts};

    ghost then = { λ step before found after. (after ≡ (with_parts (after_take step.first found) before.0, before.1))
        × Each (λ k. IsWordFor k found) before.0.parts };
}

/// The dispatcher publishes a moment.
pub(crate) struct Publishes;

impl Play<(), View> for Publishes {
    ghost use Rattle.std.specs.Prelude.{◌≡◌};
    ghost use Rattle.nt_mail.specs.Views.{with_published};

    ghost then = { λ step before found after. after ≡ (with_published step.first before.0, before.1) };
}

/// A thread reads the moment, which is never less than one that it read before.
pub(crate) struct Reads;

impl Play<(), View> for Reads {
    ghost use Rattle.std.specs.Prelude.{◌≡◌, ◌≤◌};
    ghost use Rattle.nt_status.specs.declared.limits.TheConstants.{MAX_MOMENT};
    ghost use Rattle.nt_mail.specs.Entries.{Each};
    ghost use Rattle.nt_mail.specs.Knowledge.{latest, with_moment};
    ghost use Rattle.nt_mail.specs.Views.{with_parts};

    ghost then = { λ step before found after. (after ≡ (with_parts (with_moment found) before.0, before.1))
        × Each (λ k. latest 0 k.moments ≤ found) before.0.parts × (found ≤ MAX_MOMENT) };
}

/// The dispatcher reads the moment, and nothing changes. What the threads that are joined to it know is what was written.
pub(crate) struct Looks;

impl Play<(), View> for Looks {
    ghost use Rattle.std.specs.Prelude.{◌≡◌};
    ghost use Rattle.nt_mail.specs.Entries.{Each};
    ghost use Rattle.nt_mail.specs.Rule.{IsTold};

    ghost then = { λ step before found after. (after ≡ before)
        × Each (IsTold before.0.written before.0.published) before.0.parts };
}

/// Parts a seat that knows nothing.
pub(crate) struct Spare;

impl Split<View> for Spare {
    ghost use Rattle.nt_mail.specs.Views.{nobody};

    ghost left = { λ v. v };

    ghost right = { λ _. nobody };
}

/// Parts the seat of the first thread that is joined.
pub(crate) struct Apart;

impl Split<View> for Apart {
    ghost use Rattle.nt_mail.specs.Views.{without_first, first_alone};

    ghost left = { without_first };

    ghost right = { first_alone };
}

/// Joins a seat, which is spent.
pub(crate) struct Together;

impl Join<View> for Together {
    ghost use Rattle.nt_mail.specs.Views.{together, nobody};

    ghost both = { together };

    ghost spent = { nobody };
}
