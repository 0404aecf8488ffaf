//! The lock, and the book behind it.
use crate::book::Book;
use crate::named::Named;
use std::sync::{Mutex, MutexGuard, Wait};

/// The book behind its lock. Whoever takes the lock, or tries to, brings a `Wait`. A poll and a look at the moment are given none, so
/// neither can touch the lock.
#[derive(Drop)]
pub(crate) struct Locked<N: Named> {
    book: Mutex<Book<N>>,
}

impl<N: Named> Locked<N> {
    /// This book, with the lock free.
    pub(crate) fn new(book: Book<N>) -> Locked<N> {
        Locked {
            book: Mutex::new(book),
        }
    }

    /// Takes the lock. Mostly it is free.
    #[inline(always)]
    pub(crate) fn lock(&self, rt: &impl Wait) -> MutexGuard<'_, Book<N>> {
        match self.book.try_lock() {
            Some(book) => book,
            None => self.book.lock(rt),
        }
    }

    /// The book, once no thread can take the lock any longer.
    pub(crate) fn into_inner(self) -> Book<N> {
        self.book.into_inner()
    }
}
