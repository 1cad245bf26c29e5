//! A pass that has ended.
ghost use Rattle.std.specs.Prelude.{◌≡◌, IfOk};
ghost use Rattle.std.specs.Arc.{arc_value};
ghost use Rattle.crew_labelling.specs.Labellings.{labelling_of};
ghost use Rattle.crew_labelling.specs.Passes.{pass_of};
ghost use Rattle.crew_pass.specs.Machinery.Ended.{IsPassed};
ghost use Rattle.crew_pass.specs.Machinery.Seen.{AreSeen};
ghost use Rattle.crew_pass.specs.Machinery.Terms.{ArePlaces, ArePlacesOf, MayPass, terms};

use crate::base_fronts::BaseFronts;
use crate::course::Course;
use crate::ground::Ground;
use crate::places::Places;
use crate::seen::Seen;
use crate::shelf::Shelf;
use crew_flights::Code;
use crew_forgetful::Lapses;
use crew_net::Net;
use crew_pairing::Duty;
use std::alloc::{AllocError, Global};
use std::marker::Model;
use std::sync::Arc;

/// A pass that has ended, with all that a later one may take over. It owns what it goes by, so it can
/// be kept, and be shared by threads.
///
/// A contract sees the resource, the base, the numbers of the duties, what the pass shows, and by place
/// those pools of arrivals that were made, with what rests after these go by.
pub struct Passed<R: Lapses<Duty>> {
    resource: Arc<R, Global>,
    base: Code,
    course: Arc<Course, Global>,
    places: Places,
    fronts: BaseFronts<R>,
    arrivals: Shelf<R>,
    rested: Shelf<R>,
}

impl<R: Lapses<Duty> + Drop> Drop for Passed<R> {
    fn drop(self) {
        let Self {
            resource: _,
            base: _,
            course: _,
            places: _,
            fronts: _,
            arrivals: _,
            rested: _,
        } = self;
    }
}

impl<R: Lapses<Duty>> Model for Passed<R> {
    ghost use Rattle.crew_pass.specs.Machinery.Ended.{IsOver, IsPassed};
    ghost use Rattle.crew_pass.specs.Passes as Spec;

    ghost Value = { Spec.Passed R R.Value };

    ghost view = { λ p. record {
      resource = p.resource.value;
      base = p.base;
      numbers = p.places.numbers.value.items;
      pass = p.fronts;
      arrivals = p.arrivals;
      rested = p.rested;
    } };

    ghost invariant = { λ p. IsOver p.fronts.net p.course.value p.places
        × IsPassed R.Value.cmp R.Lapses R.Staged R.Forgets R.Resource (record {
          resource = p.resource.value;
          base = p.base;
          numbers = p.places.numbers.value.items;
          pass = p.fronts;
          arrivals = p.arrivals;
          rested = p.rested;
        }) };
}

impl<R: Lapses<Duty> + Drop> Passed<R> {
    // A pass of which all has been seen.
    pub(crate) fn new(
        ground: &Ground<R>,
        course: &Arc<Course, Global>,
        resource: &Arc<R, Global>,
        places: &Places,
        fronts: BaseFronts<R>,
        seen: Seen<R>,
    ) -> Result<Self, AllocError>
        requires course { arc_value course.now ≡ ground.now.net.now }
        requires resource { arc_value resource.now ≡ ground.now.resource.now }
        requires are_places { ArePlaces ground.now.net.now places.now }
        requires may { MayPass (terms R.Value.cmp R.Lapses.own R.Staged.own R.Forgets.own R.Resource.own ground.now) }
        requires places { ArePlacesOf ground.now places.now }
        requires seen { AreSeen (terms R.Value.cmp R.Lapses.own R.Staged.own R.Forgets.own R.Resource.own ground.now) seen }
        requires fronts { fronts ≡ pass_of (terms R.Value.cmp R.Lapses.own R.Staged.own R.Forgets.own R.Resource.own ground.now) (labelling_of (terms R.Value.cmp R.Lapses.own R.Staged.own R.Forgets.own R.Resource.own ground.now)) }
        ensures resource { IfOk result (λ passed. passed.resource ≡ ground.now.resource.now) }
        ensures base { IfOk result (λ passed. passed.base ≡ ground.now.base) }
        ensures pass { IfOk result (λ passed. passed.pass ≡ fronts) }
    {
        let Seen {
            departures: _,
            arrivals,
            rested,
            fronts: _,
        } = seen;
        Ok(Passed {
            resource: Arc::try_clone(resource)?,
            base: ground.base,
            course: Arc::try_clone(course)?,
            places: places.shared()?,
            fronts,
            arrivals,
            rested,
        })
    }

    /// What the pass shows, alone.
    pub fn into_fronts(self) -> BaseFronts<R>
        ensures { result ≡ self.pass }
    {
        let Passed {
            resource: _,
            base: _,
            course: _,
            places: _,
            fronts,
            arrivals: _,
            rested: _,
        } = self;
        fronts
    }
}

impl<R: Lapses<Duty>> Passed<R> {
    /// What the pass shows.
    pub fn fronts(&self) -> &BaseFronts<R>
        ensures shows { result.now ≡ self.now.pass }
        ensures right { IsPassed R.Value.cmp R.Lapses.own R.Staged.own R.Forgets.own R.Resource.own self.now }
    {
        &self.fronts
    }

    /// The base.
    pub(crate) fn base(&self) -> Code
        ensures { result ≡ self.now.base }
    {
        self.base
    }

    /// What the pass went by.
    pub fn course(&self) -> &Arc<Course, Global>
        ensures { arc_value result.now ≡ self.now.pass.net }
    {
        &self.course
    }

    /// The numbers of the duties, and where these leave.
    pub(crate) fn places(&self) -> &Places
        ensures are { ArePlaces self.now.pass.net result.now }
        ensures numbers { result.now.numbers.value.items ≡ self.now.numbers }
    {
        &self.places
    }

    /// The network.
    pub(crate) fn net(&self) -> &Net
        ensures net { result.now ≡ self.now.pass.net }
        ensures right { IsPassed R.Value.cmp R.Lapses.own R.Staged.own R.Forgets.own R.Resource.own self.now }
    {
        self.fronts.net()
    }

    /// The pools of arrivals that were made, by place.
    pub(crate) fn arrivals(&self) -> &Shelf<R>
        ensures shelf { result.now ≡ self.now.arrivals }
        ensures right { IsPassed R.Value.cmp R.Lapses.own R.Staged.own R.Forgets.own R.Resource.own self.now }
    {
        &self.arrivals
    }

    /// What rests after these arrivals go by.
    pub(crate) fn rested(&self) -> &Shelf<R>
        ensures shelf { result.now ≡ self.now.rested }
        ensures right { IsPassed R.Value.cmp R.Lapses.own R.Staged.own R.Forgets.own R.Resource.own self.now }
    {
        &self.rested
    }
}
