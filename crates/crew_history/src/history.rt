//! Histories of fixed size.
ghost use Rattle.std.specs.Prelude.{◌≡◌, ℤ, pos, ◌≤ℤ◌};
ghost use Rattle.crew_history.specs.Histories.{period_after};
ghost use Rattle.crew_history.specs.Machinery.Kept.{IsKept, kept_prop};

/// The flight duty periods of a window, in order and apart: the first `len` of twelve, each (start,
/// end) in minutes since 1970-01-01T00:00 UTC. The others are zero, so that equal histories are
/// equal values.
#[derive(Clone, Copy, PartialEq, Eq, PartialOrd, Ord)]
pub struct History {
    periods: [(i32, i32); 12],
    len: usize,
    pub ghost kept: { IsKept len periods } by { kept_prop len periods },
}

/// The minutes of a period after an instant.
#[inline]
fn minutes_of(start: i32, end: i32, t: i32) -> i64
    ensures minutes { result ≡ period_after start end t }
    ensures most { result ≤ℤ pos 4_294_967_296 }
{
    (i64::from(end) - i64::from(start.max(t))).max(0)
}

impl History {
    ghost use Rattle.std.specs.Prelude.{◌↔◌, ◌<◌, ◌<ℤ◌, ◌-ℤ◌, IsTrue, FitsSigned, List, [], length, Option, option_map};
    ghost use Rattle.std.specs.Int.{w32};
    ghost use Rattle.crew_history.specs.Histories.{minutes_after, IsNoMore, EndsBefore, follows, grown, boarded_history, last_end, begins_before};
    ghost use Rattle.crew_history.specs.HistoryValues.{periods_of, history_at_most};

    /// No periods.
    pub fn new() -> Self
        ensures { periods_of result ≡ [] }
    {
        History {
            periods: [(0, 0); 12],
            len: 0,
        }
    }

    /// The duty minutes after an instant.
    pub fn minutes_after(&self, t: i32) -> i64
        ensures { result ≡ minutes_after (periods_of self.now) t }
    {
        let mut total = 0;
        for i in 0..self.len {
            let (start, end) = self.periods[i];
            total += minutes_of(start, end, t);
        }
        total
    }

    /// The end of the last period, in minutes since 1970-01-01T00:00 UTC; 0 where there is none.
    #[inline]
    pub fn end(&self) -> i32
        ensures { result ≡ last_end (pos 0) (periods_of self.now) }
    {
        if self.len == 0 {
            0
        } else {
            self.periods[self.len - 1].1
        }
    }

    /// Whether it has a period that starts before an instant.
    #[inline]
    pub fn begins_before(&self, t: i64) -> bool
        ensures { result ≡ begins_before (periods_of self.now) t }
    {
        self.len > 0 && i64::from(self.periods[0].0) < t
    }

    /// Whether it has no more duty minutes than another after every instant: asked where its periods
    /// start.
    pub fn at_most(&self, other: &History) -> bool
        ensures test { result ≡ history_at_most self.now other.now }
        ensures order { IsTrue result ↔ IsNoMore (periods_of self.now) (periods_of other.now) }
    {
        for i in 0..self.len {
            let (start, _) = self.periods[i];
            if self.minutes_after(start) > other.minutes_after(start) {
                return false;
            }
        }
        true
    }

    /// The history with one period more, cut to the window that ends with it.
    pub fn extend(&self, start: i32, end: i32, window: i32) -> History
        requires room { length (periods_of self.now) < 12 }
        requires later { EndsBefore (periods_of self.now) start }
        requires nonempty { start <ℤ end }
        requires window { pos 0 <ℤ window }
        requires begins { FitsSigned w32 (end -ℤ window) }
        ensures { periods_of result ≡ grown window (periods_of self.now) (start, end) }
    {
        let begin = end - window;
        let mut periods = [(0, 0); 12];
        let mut len = 0;
        for i in 0..self.len {
            let (from, to) = self.periods[i];
            if to > begin {
                periods[len] = (from.max(begin), to);
                len += 1;
            }
        }
        periods[len] = (start.max(begin), end);
        History {
            periods,
            len: len + 1,
        }
    }

    /// The same where the period comes after the others and the window keeps the cap; else none.
    pub fn board(&self, start: i32, end: i32, window: i32, cap: i64) -> Option<History>
        requires room { length (periods_of self.now) < 12 }
        requires window { pos 0 <ℤ window }
        requires before { FitsSigned w32 (start -ℤ pos 1) }
        requires begins { FitsSigned w32 (end -ℤ window) }
        ensures { option_map periods_of result
            ≡ boarded_history window cap (periods_of self.now) (start, end) }
    {
        if !self.is_before(start, end) {
            return None;
        }
        let longer = self.extend(start, end, window);
        if longer.minutes_after(end - window) <= cap {
            Some(longer)
        } else {
            None
        }
    }

    /// Whether a period is nonempty and comes after the others.
    pub fn is_before(&self, start: i32, end: i32) -> bool
        requires before { FitsSigned w32 (start -ℤ pos 1) }
        ensures test { result ≡ follows (periods_of self.now) (start, end) }
        ensures later { IsTrue result → EndsBefore (periods_of self.now) start }
        ensures nonempty { IsTrue result → start <ℤ end }
    {
        self.minutes_after(start - 1) <= 0 && start < end
    }
}
