//! How far a call is, on the error output. No contract says what is shown and when, since the kit has no
//! model of clocks and of terminals.

use crate::progress::Progress;
use std::time::{Duration, Instant};

/// Says how far a call is, once it has worked for more than two seconds.
#[derive(Drop)]
pub struct Meter<'a> {
    rt: &'a HostRuntime,
    /// When the next line is due, where any is shown.
    due: Option<Instant>,
    has_shown: bool,
}

impl<'a> Meter<'a> {
    /// One that begins now.
    pub fn new(rt: &'a HostRuntime, is_shown: bool) -> Meter<'a> {
        let due = if is_shown { later(rt, 2_000) } else { None };
        Meter {
            rt,
            due,
            has_shown: false,
        }
    }

    /// Removes what was shown.
    pub fn end(&mut self) {
        if self.has_shown {
            let _printed = eprint!(self.rt; "\x1b[K");
        }
    }
}

/// The time in so many milliseconds.
fn later(rt: &HostRuntime, milliseconds: u64) -> Option<Instant> {
    Instant::now(rt)
        .ok()?
        .checked_add(Duration::from_millis(milliseconds))
}

impl Progress for Meter<'_> {
    fn show(&mut self, done: usize, all: usize) {
        let Some(due) = self.due else {
            return;
        };
        match Instant::now(self.rt) {
            Ok(now) if now >= due => {
                self.due = later(self.rt, 100);
                self.has_shown = true;
                // what is printed next begins in its place
                let _printed = eprint!(self.rt; "wasm-check: {done} of {all} files\x1b[K\r");
            }
            _ => {}
        }
    }
}
