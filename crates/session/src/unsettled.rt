//! What was answered before it is durable.

use std::rt::Clock;
use std::time::Instant;

/// Commands that were answered and wait, and since when.
#[derive(Clone, Copy)]
pub(crate) struct Unsettled {
    pub(crate) commands: u64,
    since: Option<Instant>,
}

impl Unsettled {
    pub(crate) const NONE: Unsettled = Unsettled {
        commands: 0,
        since: None,
    };

    /// Notes that all is durable, where it is, and that one more waits, where it does.
    pub(crate) fn note(&mut self, is_settled: bool, has_grown: bool) {
        if is_settled {
            self.commands = 0;
        }
        if has_grown {
            self.commands = self.commands.saturating_add(1);
        }
    }

    /// Notes that all is durable.
    pub(crate) fn settle(&mut self) {
        *self = Unsettled::NONE;
    }

    /// Whether something waits for so many milliseconds, or the clock can't be read. What waits from
    /// now on has its time from now.
    pub(crate) fn is_due<K: Clock>(
        &mut self,
        clock: &K,
        waiting: usize,
        milliseconds: u32,
    ) -> bool {
        if waiting == 0 {
            self.since = None;
            return false;
        }
        let Ok(now) = Instant::now(clock) else {
            return true;
        };
        let since = self.since.unwrap_or(now);
        self.since = Some(since);
        now.saturating_duration_since(since).as_millis() >= u128::from(milliseconds)
    }
}
