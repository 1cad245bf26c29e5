//! A job.
ghost use Rattle.std.specs.Prelude.{◌≡◌, ◌↔◌, IsTrue, IfOk};
ghost use Rattle.crew_flights.specs.Timetable.{IsBasePrice};
ghost use Rattle.crew_pairing.specs.Events.{IsSound};
ghost use Rattle.crew_rules.specs.Settings.{IsChecked, SumsTellAll};

use crate::feed::Feed;
use crate::same::{are_same_settings, is_same_airport, is_same_duty};
use crew_flights::Code;
use crew_pairing::Duty;
use crew_rules::Settings;
use std::alloc::AllocError;
use std::marker::Model;
use std::sync::Arc;

/// The work on one node: a base with its price, a duty, and the duties just before it, each with
/// its front.
///
/// A contract sees all of these. The settings are checked, and such that the sums over a pairing's
/// duties tell whether it is legal; the duty is sound and may stand just
/// after each of those before it, these rise by key, and each entry of their fronts is the value of
/// its walk.
#[derive(Drop)]
pub struct Job {
    settings: Settings,
    base: Code,
    base_price: i64,
    duty: Duty,
    feed: Arc<Feed>,
}

impl Model for Job {
    ghost use Rattle.crew_step.specs.Jobs.{IsJob, Job};

    ghost Value = { Job };

    ghost view = { λ j. record {
      settings = j.settings;
      base = j.base;
      base_price = j.base_price;
      duty = j.duty;
      feed = j.feed.value;
    } };

    ghost invariant = { λ j. IsJob (record {
      settings = j.settings;
      base = j.base;
      base_price = j.base_price;
      duty = j.duty;
      feed = j.feed.value;
    }) };
}

impl Job {
    ghost use Rattle.crew_step.specs.Jobs.{AreBefore};

    /// The job of a base and a duty, from the duties just before it.
    pub fn new(settings: Settings, base: Code, base_price: i64, duty: Duty, feed: Arc<Feed>) -> Self
        requires checked { IsChecked settings }
        requires sums { SumsTellAll settings }
        requires price { IsBasePrice base_price }
        requires sound { IsSound duty }
        requires before { AreBefore settings base_price duty feed.value }
        ensures { result ≡ record {
          settings = settings;
          base = base;
          base_price = base_price;
          duty = duty;
          feed = feed.value;
        } }
    {
        Job {
            settings,
            base,
            base_price,
            duty,
            feed,
        }
    }

    /// The settings.
    pub fn settings(&self) -> &Settings
        ensures same { result.now ≡ self.now.settings }
        ensures checked { IsChecked self.now.settings }
        ensures sums { SumsTellAll self.now.settings }
    {
        &self.settings
    }

    /// The base.
    pub fn base(&self) -> Code
        ensures { result ≡ self.now.base }
    {
        self.base
    }

    /// The base's price, in points.
    pub fn base_price(&self) -> i64
        ensures same { result ≡ self.now.base_price }
        ensures price { IsBasePrice self.now.base_price }
    {
        self.base_price
    }

    /// The duty.
    pub fn duty(&self) -> &Duty
        ensures same { result.now ≡ self.now.duty }
        ensures sound { IsSound self.now.duty }
    {
        &self.duty
    }

    /// The duties just before, each with its front.
    pub fn feed(&self) -> &Feed
        ensures same { result.now ≡ self.now.feed }
        ensures before { AreBefore self.now.settings self.now.base_price self.now.duty
            self.now.feed }
    {
        &self.feed
    }

    /// Whether a pairing of the base may begin with the duty: whether it leaves the base.
    pub fn is_opening(&self) -> bool
        ensures { IsTrue result ↔ (self.now.duty.from ≡ self.now.base) }
    {
        is_same_airport(self.duty.from, self.base)
    }

    /// Whether the other holds the same: settings, base and price, the duty with all its facts, and
    /// the duties before with their fronts.
    pub fn is_same(&self, other: &Job) -> bool
        ensures { IsTrue result ↔ (self.now ≡ other.now) }
    {
        self.is_same_node(other) && self.feed.is_same(&other.feed)
    }

    // Whether settings, base, price and duty are the same.
    fn is_same_node(&self, other: &Job) -> bool
        ensures { IsTrue result ↔ ((self.now.settings ≡ other.now.settings)
            × (self.now.base ≡ other.now.base) × (self.now.base_price ≡ other.now.base_price)
            × (self.now.duty ≡ other.now.duty)) }
    {
        are_same_settings(&self.settings, &other.settings)
            & is_same_airport(self.base, other.base)
            & (self.base_price == other.base_price)
            & is_same_duty(&self.duty, &other.duty)
    }

    /// An equal job, which shares the duties before.
    pub fn copy(&self) -> Result<Job, AllocError>
        ensures { IfOk result (λ job. job ≡ self.now) }
    {
        let feed = Arc::try_clone(&self.feed)?;
        Ok(Job {
            settings: self.settings,
            base: self.base,
            base_price: self.base_price,
            duty: self.duty.copy(),
            feed,
        })
    }
}
