//! The steps that are kept of a run.

use crate::answers::{answer_in, told};
use crate::labels::{Words, put_label};
use crate::steps::{EndOfWait, Kind, ObjectChange, Step};
use crate::waiting::MOST_THREADS;
use nt_core::Grant;
use nt_lines::{caller_of, first_word, number_of, text_of};
use nt_objects::Object;
use nt_script::Session;
use std::alloc::{AllocError, Global};

/// What is kept of a run.
#[derive(Drop)]
pub struct Kept {
    /// Whether what a picture shows is kept too.
    is_drawn: bool,
    pub changes: Vec<ObjectChange>,
    /// By the places of names, the objects as they were last seen.
    seen: Vec<Object>,
    pub steps: Vec<Step>,
    pub ended: Vec<EndOfWait>,
    /// By thread, the place of the step that began its pending wait.
    began: Vec<usize>,
    /// The name that is asked for, if one is.
    object: Option<Vec<u8>>,
    /// The number of the handle with that name, once one has it.
    handle: Option<u64>,
}

/// Puts the words of the text, each after a space but the first.
fn put_words(call: &mut Vec<u8>, text: &[u8]) -> Result<(), AllocError> {
    let mut rest = text;
    for _word in 0..text.len() {
        let Some((word, others)) = first_word(rest) else {
            return Ok(());
        };
        if !call.is_empty() {
            call.push(b' ')?;
        }
        call.extend_from_slice(word)?;
        rest = others;
    }
    Ok(())
}

/// A line's first word, and what stands after it; empty where the line says nothing.
fn parts_of(line: &[u8]) -> (&[u8], &[u8]) {
    match text_of(line) {
        Some(text) => first_word(text).unwrap_or((b"", b"")),
        None => (b"", b""),
    }
}

/// Whether the word is this name, or the number of this handle.
fn is_named(word: &[u8], object: &[u8], handle: Option<u64>) -> bool {
    word == object || (handle.is_some() && number_of(word, 10) == handle)
}

/// Whether a word of the text is this name, or the number of this handle.
fn names(text: &[u8], object: &[u8], handle: Option<u64>) -> bool {
    let mut rest = text;
    for _word in 0..text.len() {
        let Some((word, others)) = first_word(rest) else {
            return false;
        };
        if is_named(word, object, handle) {
            return true;
        }
        rest = others;
    }
    false
}

/// The number of the handle that the last name stands for, if that is this name.
fn handle_of(session: &Session, object: &[u8]) -> Option<u64> {
    let last = session.names().saturating_sub(1);
    match session.name_at(last) {
        Some(name) if name == object => session.handle_at(last).map(|it| u64::from(it.get())),
        _ => None,
    }
}

impl Kept {
    /// Nothing is kept yet.
    pub(crate) fn new(alloc: Global, is_drawn: bool) -> Result<Kept, AllocError> {
        Ok(Kept {
            is_drawn,
            changes: Vec::new(alloc),
            seen: Vec::new(alloc),
            steps: Vec::new(alloc),
            ended: Vec::new(alloc),
            began: Vec::from_elem(alloc, 0, MOST_THREADS)?,
            object: None,
            handle: None,
        })
    }

    /// Notes which object is asked for, if one is.
    pub(crate) fn ask_for(
        &mut self,
        alloc: Global,
        object: Option<&str>,
    ) -> Result<(), AllocError> {
        self.object = match object {
            Some(object) => Some(Vec::from_slice(alloc, object.as_bytes())?),
            None => None,
        };
        Ok(())
    }

    /// Notes that the thread's wait began at this step.
    fn begin(&mut self, thread: u32, place: usize) {
        if let Some(began) = self.began.get_mut(thread as usize) {
            *began = place;
        }
    }

    /// Keeps a wait that the last line ended.
    fn end(&mut self, grant: &Grant) -> Result<(), AllocError> {
        let thread = u32::from(grant.thread.get());
        let began = self.began_at(thread);
        let (since, is_asked_for) = match self.steps.get(began) {
            Some(step) => (step.line, step.is_asked_for),
            None => (0, false),
        };
        self.ended.push(EndOfWait {
            thread,
            status: grant.status,
            began,
            since,
            is_asked_for,
        })?;
        Ok(())
    }

    /// Keeps the waits that the last line ended. Answers where they begin, and where they end.
    fn end_each(&mut self, grants: &[Grant]) -> Result<(usize, usize), AllocError> {
        let first = self.ended.len();
        for grant in grants {
            self.end(grant)?;
        }
        Ok((first, self.ended.len()))
    }

    /// Whether these words name the object that is asked for, if one is.
    fn is_asked_for(&mut self, session: &Session, text: &[u8]) -> bool {
        let Some(object) = &self.object else {
            return false;
        };
        if self.handle.is_none() {
            self.handle = handle_of(session, object);
        }
        names(text, object, self.handle)
    }

    /// Keeps a step of this thread, or a tick.
    fn push(
        &mut self,
        line: u64,
        who: Option<u32>,
        (call, label): (Vec<u8>, Vec<u8>),
        (kind, answer): (Kind, Vec<u8>),
        ended: (usize, usize),
        is_asked_for: bool,
    ) -> Result<(), AllocError> {
        if let (Some(thread), Kind::Pends) = (who, kind) {
            let place = self.steps.len();
            self.begin(thread, place);
        }
        self.steps.push(Step {
            line,
            who,
            call,
            label,
            kind,
            answer,
            ended,
            is_asked_for,
        })?;
        Ok(())
    }

    /// Keeps the object of the name at this place, if it is not what it was.
    fn look(&mut self, place: usize, object: Object) -> Result<(), AllocError> {
        let step = self.steps.len();
        match self.seen.get_mut(place) {
            Some(seen) if *seen == object => return Ok(()),
            Some(seen) => *seen = object,
            None => {
                self.seen.push(object)?;
            }
        }
        self.changes.push(ObjectChange {
            place,
            step,
            object,
        })?;
        Ok(())
    }

    /// Keeps which objects changed.
    fn look_at_all(&mut self, words: Words<'_>) -> Result<(), AllocError> {
        let all = words.session.core().objects();
        for (place, number) in words.objects.iter().enumerate() {
            let object = all.get(*number as usize).copied().unwrap_or(Object::Gone);
            self.look(place, object)?;
        }
        Ok(())
    }

    /// What a picture calls this call, and which objects it changed; nothing where none is drawn.
    fn draw(
        &mut self,
        alloc: Global,
        words: Words<'_>,
        call: &[u8],
    ) -> Result<Vec<u8>, AllocError> {
        let mut label = Vec::new(alloc);
        if self.is_drawn {
            put_label(alloc, &mut label, words, call)?;
            self.look_at_all(words)?;
        }
        Ok(label)
    }

    /// Keeps what a line did, which said this.
    pub(crate) fn keep(
        &mut self,
        alloc: Global,
        number: u64,
        line: &[u8],
        words: Words<'_>,
        said: &[u8],
    ) -> Result<(), AllocError> {
        let (first, text) = parts_of(line);
        if first.is_empty() || first == b"threads".as_slice() {
            return Ok(());
        }
        let is_asked_for = self.is_asked_for(words.session, text);
        let mut call = Vec::new(alloc);
        put_words(&mut call, text)?;
        let label = self.draw(alloc, words, &call)?;
        let who = caller_of(first);
        let answered = told(alloc, answer_in(said), who.is_none())?;
        let ended = self.end_each(words.session.core().grants())?;
        self.push(number, who, (call, label), answered, ended, is_asked_for)
    }

    /// The place of the step that began the thread's pending wait.
    pub fn began_at(&self, thread: u32) -> usize {
        match self.began.get(thread as usize) {
            Some(place) => *place,
            None => 0,
        }
    }
}
