//! Fronts of a pass.
ghost use Rattle.std.specs.Prelude.{◌≡◌, length};
ghost use Rattle.std.specs.Iterator.{YieldsFirst, item_count};
ghost use Rattle.crew_answers.specs.Shown as Shown;
ghost use Rattle.crew_fronts.specs.Machinery.Lent as Spec;
ghost use Rattle.crew_fronts.specs.Machinery.Values.{IsReal};

use crate::passed_walk::PassedWalk;
use crate::vector::Vector;
use crate::walk_view::WalkView;
use crew_answers::{LongResource, LongValue};
use crew_label::{Label, Table};
use crew_pairing::{Duties, Duty};
use crew_rules::Settings;
use std::marker::Model;

/// The front of a duty that a pass has left, lent; or what of it is still to come.
///
/// A contract sees the list of its entries.
#[derive(Drop)]
pub(crate) struct PassedFront<'a> {
    table: &'a Table<LongResource>,
    duties: &'a Duties,
    settings: &'a Settings,
    duty: &'a Duty,
    labels: &'a [Label<LongValue>],
}

impl<'a> Model for PassedFront<'a> {
    ghost use Rattle.crew_fronts.specs.Fronts.{Entries};
    ghost use Rattle.crew_fronts.specs.Machinery.Lent.{AreRead, label_entries};

    ghost Value = { Entries };

    ghost view = { λ f. label_entries f.table.now f.duties.now f.settings.now f.duty.now
        f.labels.now };

    ghost invariant = { λ f. AreRead f.table.now f.duties.now f.labels.now };
}

// The minutes since the last long rest of a list of duties that ends with one, by its value.
#[inline]
fn since_rest(settings: &Settings, duty: &Duty, value: &LongValue) -> i64
    requires { IsReal value.now.rest_end.minute }
    ensures { result ≡ (Shown.shown settings.now duty.now value.now).since_rest }
{
    if settings.away_cap > 8_280 {
        i64::from(duty.report) - value.rest_end.minute
    } else {
        0
    }
}

// The vector of a list of duties that ends with one, by its value.
#[inline]
fn shown(settings: &Settings, duty: &Duty, value: &LongValue) -> Vector
    requires { IsReal value.now.rest_end.minute }
    ensures { result ≡ Shown.shown settings.now duty.now value.now }
{
    let since_rest = since_rest(settings, duty, value);
    Vector::new(value.sums, since_rest, value.recent.history)
}

impl<'a> PassedFront<'a> {
    // The front of a duty that labels show.
    pub(crate) fn new(
        table: &'a Table<LongResource>,
        duties: &'a Duties,
        settings: &'a Settings,
        duty: &'a Duty,
        labels: &'a [Label<LongValue>],
    ) -> PassedFront<'a>
        requires { Spec.AreRead table.now duties.now labels.now }
        ensures { result ≡ Spec.label_entries table.now duties.now settings.now duty.now labels.now }
    {
        PassedFront {
            table,
            duties,
            settings,
            duty,
            labels,
        }
    }

    // How many entries there are.
    pub(crate) fn len(&self) -> usize
        ensures { result ≡ length self.now }
    {
        self.labels.len()
    }

    // The same front.
    #[inline]
    pub(crate) fn copy(&self) -> PassedFront<'a>
        ensures { result ≡ self.now }
    {
        PassedFront::new(
            self.table,
            self.duties,
            self.settings,
            self.duty,
            self.labels,
        )
    }
}

impl<'a> Iterator for PassedFront<'a> {
    type Item = (Vector, WalkView<'a>);

    ghost next_gives = { YieldsFirst (λ s. s) };

    ghost remaining = { item_count (λ s. s) };

    fn next(&mut self) -> Option<(Vector, WalkView<'a>)> {
        let (label, rest) = self.labels.split_first()?;
        let vector = shown(self.settings, self.duty, &label.value);
        let walk = PassedWalk::new(self.table, self.duties, label);
        self.labels = rest;
        Some((vector, WalkView::passed(walk)))
    }
}
