//! The trace of a run: events in JSON, as Perfetto and Chrome's tracing open them.
//!
//! A wait is a slice of its thread's track, a call a slice of one microsecond, a refused call and a tick an instant. An arrow, a flow in the
//! format's words, leads from the call that ended a wait to the wait. Times are those of the ticks, but two lines are at least two
//! microseconds apart, so that their order shows.

use nt_lines::{MAX_DIGITS, number_of};
use nt_picture::Layout;
use nt_timeline::{EndOfWait, Film, Kind, Step, Words, name_of};
use nt_wording::put_thread_title;
use std::alloc::{AllocError, Global};

/// How far apart two lines are at the least, in microseconds.
const APART: u64 = 2;

/// How many units of 100 ns a microsecond has.
const UNITS: u64 = 10;

/// The events of a trace, and when each step of the run was.
#[derive(Drop)]
struct Trace {
    out: Vec<u8>,
    /// By the places of steps, in microseconds.
    times: Vec<u64>,
    /// After the last step, in microseconds.
    end: u64,
    /// How many arrows there are.
    arrows: u64,
}

/// Puts text within a JSON string: a byte that is no ASCII text becomes `?`.
fn put_string(out: &mut Vec<u8>, text: &[u8]) -> Result<(), AllocError> {
    out.push(b'"')?;
    for byte in text {
        match *byte {
            b'"' => out.extend_from_slice(b"\\\"")?,
            b'\\' => out.extend_from_slice(b"\\\\")?,
            b' '..=b'~' => out.push(*byte)?,
            _ => out.push(b'?')?,
        }
    }
    out.push(b'"')?;
    Ok(())
}

/// What a tick is called, with its moment.
fn tick_of(alloc: Global, step: &Step) -> Result<Vec<u8>, AllocError> {
    let mut name = Vec::from_slice(alloc, b"tick ")?;
    name.extend_from_slice(&step.call)?;
    Ok(name)
}

/// When each step was, in microseconds, and when the run ended.
fn times_of(alloc: Global, steps: &[Step]) -> Result<(Vec<u64>, u64), AllocError> {
    let mut times = Vec::new(alloc);
    let mut now: u64 = 0;
    for step in steps {
        if step.who.is_none() {
            now = now.max(number_of(&step.call, MAX_DIGITS).unwrap_or(0) / UNITS);
        }
        times.push(now)?;
        now = now.saturating_add(APART);
    }
    Ok((times, now))
}

impl Trace {
    fn new(alloc: Global, steps: &[Step]) -> Result<Trace, AllocError> {
        let (times, end) = times_of(alloc, steps)?;
        Ok(Trace {
            out: Vec::from_slice(alloc, b"{\"displayTimeUnit\":\"ms\",\"traceEvents\":[\n")?,
            times,
            end,
            arrows: 0,
        })
    }

    /// When the step at this place was.
    fn at(&self, place: usize) -> u64 {
        match self.times.get(place) {
            Some(time) => *time,
            None => 0,
        }
    }

    fn put(&mut self, text: &str) -> Result<(), AllocError> {
        self.out.extend_from_slice(text.as_bytes())
    }

    /// Begins an event of this kind: its name, its track, and its time.
    fn begin(
        &mut self,
        alloc: Global,
        kind: &str,
        name: &[u8],
        thread: u32,
        time: u64,
    ) -> Result<(), AllocError> {
        self.put("{\"ph\":\"")?;
        self.put(kind)?;
        self.put("\",\"name\":")?;
        put_string(&mut self.out, name)?;
        let rest = format!(in alloc; ",\"pid\":1,\"tid\":{thread},\"ts\":{time}")?;
        self.put(rest.as_str())
    }

    /// Ends an event with what is said of it: the line, and a word with its text, if there is one.
    fn end_with(
        &mut self,
        alloc: Global,
        line: u64,
        word: &str,
        text: &[u8],
    ) -> Result<(), AllocError> {
        let begins = format!(in alloc; ",\"args\":{{\"line\":{line}")?;
        self.put(begins.as_str())?;
        if !text.is_empty() {
            self.put(",\"")?;
            self.put(word)?;
            self.put("\":")?;
            put_string(&mut self.out, text)?;
        }
        self.put("}},\n")
    }

    /// Puts what a track, or all of them, is called.
    fn put_name(
        &mut self,
        alloc: Global,
        what: &str,
        thread: u32,
        name: &[u8],
    ) -> Result<(), AllocError> {
        self.begin(alloc, "M", what.as_bytes(), thread, 0)?;
        self.put(",\"args\":{\"name\":")?;
        put_string(&mut self.out, name)?;
        self.put("}},\n")
    }

    /// Puts the names of the file and of the threads.
    fn put_names(
        &mut self,
        alloc: Global,
        file: &[u8],
        layout: &Layout,
        told: &[u8],
    ) -> Result<(), AllocError> {
        self.put_name(alloc, "process_name", 0, file)?;
        for thread in &layout.lanes {
            let mut name = Vec::new(alloc);
            put_thread_title(&mut name, told, *thread)?;
            self.put_name(alloc, "thread_name", *thread, &name)?;
        }
        Ok(())
    }

    /// Puts a slice: from when to when, and what it is of.
    fn put_slice(
        &mut self,
        alloc: Global,
        class: &str,
        step: &Step,
        thread: u32,
        (from, to): (u64, u64),
        (word, text): (&str, &[u8]),
    ) -> Result<(), AllocError> {
        let lasts = to.saturating_sub(from);
        self.begin(alloc, "X", &step.label, thread, from)?;
        let rest = format!(in alloc; ",\"dur\":{lasts},\"cat\":\"{class}\"")?;
        self.put(rest.as_str())?;
        self.end_with(alloc, step.line, word, text)
    }

    /// Puts an instant: of a thread's track, or, of a tick, over all of them.
    fn put_instant(
        &mut self,
        alloc: Global,
        class: &str,
        step: &Step,
        time: u64,
    ) -> Result<(), AllocError> {
        let (scope, name) = match step.who {
            Some(_) => ("t", Vec::from_slice(alloc, &step.label)?),
            None => ("g", tick_of(alloc, step)?),
        };
        self.begin(alloc, "i", &name, step.who.unwrap_or(0), time)?;
        let rest = format!(in alloc; ",\"s\":\"{scope}\",\"cat\":\"{class}\"")?;
        self.put(rest.as_str())?;
        self.end_with(alloc, step.line, "answer", &step.answer)
    }

    /// Puts an arrow from the call that ended a wait to the wait.
    fn put_arrow(
        &mut self,
        alloc: Global,
        from: u32,
        to: u32,
        time: u64,
    ) -> Result<(), AllocError> {
        let id = self.arrows;
        self.arrows = id.saturating_add(1);
        self.begin(alloc, "s", b"ends", from, time)?;
        let rest = format!(in alloc; ",\"id\":{id},\"cat\":\"ends\"}},\n")?;
        self.put(rest.as_str())?;
        self.begin(alloc, "f", b"ends", to, time)?;
        let rest = format!(in alloc; ",\"id\":{id},\"cat\":\"ends\",\"bp\":\"e\"}},\n")?;
        self.put(rest.as_str())
    }

    /// Puts a wait that this step ended, and the arrow to it, if a call did.
    fn put_end(
        &mut self,
        alloc: Global,
        began: &Step,
        step: &Step,
        end: &EndOfWait,
        time: u64,
    ) -> Result<(), AllocError> {
        let how = name_of(alloc, end.status)?;
        let from = self.at(end.began);
        let span = (from, time.saturating_add(1));
        self.put_slice(alloc, "wait", began, end.thread, span, ("ended", &how))?;
        match step.who {
            Some(thread) => self.put_arrow(alloc, thread, end.thread, time),
            None => Ok(()),
        }
    }

    /// Puts what a shown step's line did.
    fn put_step(&mut self, alloc: Global, step: &Step, time: u64) -> Result<(), AllocError> {
        match (step.kind, step.who) {
            (Kind::Pends, _) => Ok(()),
            (Kind::Tick, _) | (_, None) => self.put_instant(alloc, "tick", step, time),
            (Kind::Refused, _) => self.put_instant(alloc, "refused", step, time),
            (_, Some(thread)) => self.put_slice(
                alloc,
                "call",
                step,
                thread,
                (time, time.saturating_add(1)),
                ("answer", &step.answer),
            ),
        }
    }
}

/// Puts the shown steps, and the waits that they ended.
fn put_steps(
    alloc: Global,
    trace: &mut Trace,
    film: &Film,
    layout: &Layout,
) -> Result<(), AllocError> {
    for (place, step) in film.kept.steps.iter().enumerate() {
        if layout.is_shown.get(place) == Some(&true) {
            let time = trace.at(place);
            trace.put_step(alloc, step, time)?;
            for end in step.ended(&film.kept.ended) {
                if let Some(began) = film.kept.steps.get(end.began) {
                    trace.put_end(alloc, began, step, end, time)?;
                }
            }
        }
    }
    Ok(())
}

/// Puts the waits that still pend, to the run's end.
fn put_pending(
    alloc: Global,
    trace: &mut Trace,
    film: &Film,
    layout: &Layout,
    words: Words<'_>,
) -> Result<(), AllocError> {
    for thread in &layout.lanes {
        let began = film.kept.began_at(*thread);
        if let (Some(_), Some(step)) = (
            words.session.core().waits_for(*thread),
            film.kept.steps.get(began),
        ) {
            let span = (trace.at(began), trace.end.saturating_add(1));
            trace.put_slice(
                alloc,
                "pending",
                step,
                *thread,
                span,
                ("ended", b"still waits"),
            )?;
        }
    }
    Ok(())
}

/// The trace of the shown steps.
pub(crate) fn trace_of(
    alloc: Global,
    file: &[u8],
    film: &Film,
    layout: &Layout,
    words: Words<'_>,
) -> Result<Vec<u8>, AllocError> {
    let mut trace = Trace::new(alloc, &film.kept.steps)?;
    trace.put_names(alloc, file, layout, words.told)?;
    put_steps(alloc, &mut trace, film, layout)?;
    put_pending(alloc, &mut trace, film, layout, words)?;
    let Trace {
        mut out,
        times: _,
        end,
        arrows: _,
    } = trace;
    // (An event closes the list, since each before it ends in a comma.)
    let last = format!(in alloc;
        "{{\"ph\":\"i\",\"name\":\"the run ends\",\"pid\":1,\"tid\":0,\"ts\":{end},\"s\":\"g\",\"cat\":\"end\"}}\n]}}\n"
    )?;
    out.extend_from_slice(last.as_bytes())?;
    Ok(out)
}
