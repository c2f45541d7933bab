//! How far a run is, told on standard error where that is a terminal.

use qc_decl::MOST_STEPS;
use qc_outside::Gate;
use std::io::IsTerminal;
use std::sync::{Mutex, Wait};
use std::thread::Threads;
use std::time::{Duration, Instant};

/// How many milliseconds a run takes at least of which something is told.
const QUIET_MILLIS: u64 = 1_000;

/// How many milliseconds a line stands at least.
const LINE_MILLIS: u64 = 200;

/// What the line tells, and when the next one may come.
#[derive(Drop)]
struct Line {
    phase: u32,
    phases: u32,
    next: Duration,
    is_shown: bool,
}

/// A gate that holds nobody back. After the first second of a run it tells how far
/// the run is, in one line that is written over itself.
#[derive(Drop)]
pub(crate) struct Progress<'a> {
    rt: &'a HostRuntime,
    began: Option<Instant>,
    line: Mutex<Line>,
}

impl<'a> Progress<'a> {
    /// A run that begins now. Nothing is told of it where standard error is no
    /// terminal.
    pub(crate) fn new(rt: &'a HostRuntime) -> Progress<'a> {
        let began = if rt.stderr().is_terminal() {
            Instant::now(rt).ok()
        } else {
            None
        };
        Progress {
            rt,
            began,
            line: Mutex::new(Line {
                phase: 0,
                phases: 0,
                next: Duration::from_millis(QUIET_MILLIS),
                is_shown: false,
            }),
        }
    }

    /// Takes the line away.
    pub(crate) fn end(self) {
        if self.line.into_inner().is_shown {
            let _told = eprint!(self.rt; "\r\x1b[K");
        }
    }
}

impl Gate for Progress<'_> {
    fn at<T: Threads + Wait + Sync>(&self, rt: &T, _actor: u8, taken: u64) {
        let Some(began) = self.began else {
            return;
        };
        let Ok(elapsed) = began.elapsed(self.rt) else {
            return;
        };
        let mut line = self.line.lock(rt);
        if elapsed < line.next {
            return;
        }
        line.next = elapsed.saturating_add(Duration::from_millis(LINE_MILLIS));
        line.is_shown = true;
        let (phase, phases) = (line.phase, line.phases);
        let _told = eprint!(self.rt;
            "\rquorum: phase {phase} of {phases}, step {taken} of at most {MOST_STEPS}\x1b[K"
        );
    }

    fn phase<T: Threads + Wait + Sync>(&self, rt: &T, number: u32, phases: u32) {
        if self.began.is_some() {
            let mut line = self.line.lock(rt);
            line.phase = number;
            line.phases = phases;
        }
    }
}
