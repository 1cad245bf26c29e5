//! One pass over the departures of a base's network.
ghost use Rattle.std.specs.Prelude.{◌≡◌, IfOk, IfSome};
ghost use Rattle.std.specs.Arc.{arc_value};
ghost use Rattle.crew_answers.specs.Schedules.{schedule_of};
ghost use Rattle.crew_forgetful.specs.Sweeps.{network_of};
ghost use Rattle.crew_labelling.specs.Labellings.{labelling_of};
ghost use Rattle.crew_labelling.specs.Passes.{pass_of};
ghost use Rattle.crew_pairing.specs.Events.{IsSound, arrival_of, departure_of};
ghost use Rattle.crew_pairing.specs.declared.duty.Duty.{Duty};
ghost use Rattle.crew_resource.specs.Members.{Member};
ghost use Rattle.crew_pass.specs.Machinery.Beside.{AreBeside};
ghost use Rattle.crew_pass.specs.Machinery.Cells.{AreCells};
ghost use Rattle.crew_pass.specs.Machinery.Terms.{ArePlaces, ArePlacesOf, MayPass, terms};
ghost use Rattle.crew_pass.specs.Passes.{CountsDuties, IsCoveredBy};

use crate::base_fronts::BaseFronts;
use crate::beside::Beside;
use crate::cells::Cells;
use crate::course::Course;
use crate::gathering::{fronts_of, see_departures, see_fronts, table_of};
use crate::ground::Ground;
use crate::passed::Passed;
use crate::places::Places;
use crate::pooled::Pooled;
use crate::seen::Seen;
use crate::workers::fill_by_threads;
use crew_flights::Code;
use crew_labelling::laws::resources_are_lawful;
use crew_pairing::Duty;
use crew_resource::Resource;
use crew_room::Room;
use std::alloc::{AllocError, Global};
use std::sync::Arc;
use std::thread::Threads;

// What the pass of a base goes by, over a course and its places.
fn ground_over<'a, 'r, R: Pooled>(
    course: &'a Course,
    places: &'a Places,
    resource: &'r R,
    base: Code,
) -> Ground<'a, 'r, R>
    requires sound { (d : Duty) → Member course.now.duties d → IsSound d }
    requires counts { CountsDuties R.same_sums (R.count_of resource.now) (R.most resource.now)
        (R.fits resource.now) }
    requires places { ArePlaces course.now places.now }
    ensures may { MayPass
        (terms R.Value.cmp R.Lapses.own R.Staged.own R.Forgets.own R.Resource.own result) }
    ensures net { result.net.now ≡ course.now }
    ensures places { ArePlacesOf result places.now }
    ensures resource { result.resource.now ≡ resource.now }
    ensures base { result.base ≡ base }
{
    resources_are_lawful::<R>();
    Ground {
        net: course.net(),
        numbers: places.numbers.as_slice(),
        ranks: places.ranks.as_slice(),
        positions: places.positions.as_slice(),
        middles: course.middles().as_slice(),
        resource,
        base,
    }
}

// What a pass may take over, where there is an earlier one of the same base.
fn beside_of<'p, R: Pooled>(
    alloc: Global,
    ground: &Ground<R>,
    places: &Places,
    earlier: Option<&'p Passed<R>>,
) -> Result<Option<Beside<'p, R>>, AllocError>
    requires are_places { ArePlaces ground.now.net.now places.now }
    requires places { ArePlacesOf ground.now places.now }
    requires resource { IfSome earlier (λ e. e.now.resource ≡ ground.now.resource.now) }
    ensures { IfOk result (λ beside. IfSome beside (AreBeside ground.now)) }
{
    let Some(earlier) = earlier else {
        return Ok(None);
    };
    if earlier.base() != ground.base {
        return Ok(None);
    }
    Ok(Some(Beside::new(alloc, ground, places, earlier)?))
}

// What a pass leaves, whose cells may be filled already: this thread sees all pools, and makes what
// is wanting.
fn passed<R: Pooled + Drop>(
    alloc: Global,
    course: &Arc<Course, Global>,
    resource: &Arc<R, Global>,
    places: &Places,
    ground: &Ground<R>,
    cells: &Cells<R>,
) -> Result<Passed<R>, AllocError>
    requires may { MayPass (terms R.Value.cmp R.Lapses.own R.Staged.own R.Forgets.own R.Resource.own ground.now) }
    requires cells { AreCells ground.now cells.now }
    requires net { ground.now.net.now ≡ arc_value course.now }
    requires resource { ground.now.resource.now ≡ arc_value resource.now }
    requires are_places { ArePlaces ground.now.net.now places.now }
    requires places { ArePlacesOf ground.now places.now }
    ensures resource { IfOk result (λ passed. passed.resource ≡ ground.now.resource.now) }
    ensures base { IfOk result (λ passed. passed.base ≡ ground.now.base) }
    ensures pass { IfOk result (λ passed. passed.pass ≡ pass_of (terms R.Value.cmp R.Lapses.own R.Staged.own R.Forgets.own R.Resource.own ground.now) (labelling_of (terms R.Value.cmp R.Lapses.own R.Staged.own R.Forgets.own R.Resource.own ground.now))) }
{
    let mut seen = Seen::new(alloc, ground)?;
    let mut room = Room::new(alloc);
    see_departures(alloc, ground, cells, &mut seen, &mut room)?;
    see_fronts(alloc, ground, cells, &mut seen, &mut room)?;
    let table = table_of(alloc, ground, places, &seen)?;
    let fronts = fronts_of(alloc, ground, &seen)?;
    let net = Arc::try_clone(course.net())?;
    let fronts = BaseFronts::new(net, table, fronts);
    Passed::new(ground, course, resource, places, fronts, seen)
}

/// The pass of a base, over the network of a course: the pools of its departures, and the front of
/// each duty.
///
/// Each departure's pool is made of the empty label, where the base is, and of the labels of all
/// arrivals in its window; each front is what dominance leaves of the labels that board its duty. Beside
/// an earlier pass of the same base and resource it takes over what is made of the same there: much, where
/// its course goes on from that pass's.
pub fn pass<R: Pooled + Drop>(
    alloc: Global,
    course: &Arc<Course, Global>,
    earlier: Option<&Passed<R>>,
    resource: &Arc<R, Global>,
    base: Code,
) -> Result<Passed<R>, AllocError>
    requires sound { (d : Duty) → Member (arc_value course.now).duties d → IsSound d }
    requires counts { CountsDuties R.same_sums (R.count_of (arc_value resource.now)) (R.most (arc_value resource.now))
        (R.fits (arc_value resource.now)) }
    requires earlier { IfSome earlier (λ e. e.now.resource ≡ arc_value resource.now) }
    ensures net { IfOk result (λ passed. passed.pass.net ≡ arc_value course.now) }
    ensures resource { IfOk result (λ passed. passed.resource ≡ arc_value resource.now) }
    ensures base { IfOk result (λ passed. passed.base ≡ base) }
    ensures covered { IfOk result (λ passed. IsCoveredBy R.below R.same_sums (network_of
        (schedule_of (arc_value course.now).settings base (arc_value course.now).duties) departure_of arrival_of
        (R.idle_of (arc_value resource.now)) (R.waited (arc_value resource.now)) (R.boards (arc_value resource.now))) passed.pass) }
{
    let places = course.places();
    let ground = ground_over(course, places, resource.as_ref(), base);
    let beside = beside_of(alloc, &ground, places, earlier)?;
    let cells = Cells::new(alloc, &ground, places, beside)?;
    passed(alloc, course, resource, places, &ground, &cells)
}

/// The same pass in at most so many threads, this one among them: each makes what it needs of what
/// others have made, and what nobody has made yet.
pub fn pass_by_threads<T: Threads + Sync, R: Pooled + Drop + Send + Sync>(
    rt: &T,
    alloc: Global,
    threads: usize,
    course: &Arc<Course, Global>,
    earlier: Option<&Passed<R>>,
    resource: &Arc<R, Global>,
    base: Code,
) -> Result<Passed<R>, AllocError>
where
    R::Value: Send + Sync,
    requires sound { (d : Duty) → Member (arc_value course.now).duties d → IsSound d }
    requires counts { CountsDuties R.same_sums (R.count_of (arc_value resource.now)) (R.most (arc_value resource.now))
        (R.fits (arc_value resource.now)) }
    requires earlier { IfSome earlier (λ e. e.now.resource ≡ arc_value resource.now) }
    ensures net { IfOk result (λ passed. passed.pass.net ≡ arc_value course.now) }
    ensures resource { IfOk result (λ passed. passed.resource ≡ arc_value resource.now) }
    ensures base { IfOk result (λ passed. passed.base ≡ base) }
    ensures covered { IfOk result (λ passed. IsCoveredBy R.below R.same_sums (network_of
        (schedule_of (arc_value course.now).settings base (arc_value course.now).duties) departure_of arrival_of
        (R.idle_of (arc_value resource.now)) (R.waited (arc_value resource.now)) (R.boards (arc_value resource.now))) passed.pass) }
{
    let places = course.places();
    let ground = ground_over(course, places, resource.as_ref(), base);
    let beside = beside_of(alloc, &ground, places, earlier)?;
    let cells = Cells::new(alloc, &ground, places, beside)?;
    fill_by_threads(rt, alloc, threads, &ground, &cells)?;
    passed(alloc, course, resource, places, &ground, &cells)
}
