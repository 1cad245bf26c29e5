//! What is to be made for a timetable where pairings may be long.
ghost use Rattle.std.specs.Prelude.{◌≡◌, ◌<◌, ◌≤◌, IfOk, IfSome, false, length, map};
ghost use Rattle.std.specs.Arc.{arc_value};
ghost use Rattle.std.specs.FinMap as fin;
ghost use Rattle.crew_flights.specs.Timetable.{IsSound};
ghost use Rattle.crew_fronts.specs.Fronts as Fronts;
ghost use Rattle.crew_net.specs.Nets.{IsNetOf};
ghost use Rattle.crew_pairing.specs.Duties.{AreDuties};
ghost use Rattle.crew_plan.specs.Machinery.Kept.{AreAt, IsLaid};
ghost use Rattle.crew_plan.specs.Plans.{AreFrontsIn, IsPlanOf};
ghost use Rattle.crew_resource.specs.Members.{Each};
ghost use Rattle.crew_rules.specs.Settings.{IsChecked};

use crate::alike::{is_of, is_under};
use crate::dates::see_dates;
use crate::solution::Solution;
use crew_flights::{Code, Timetable};
use crew_fronts::BaseFronts;
use crew_fronts::crew_pass::Course;
use crew_net::Net;
use crew_pairing::Duties;
use crew_rules::Settings;
use std::alloc::{AllocError, Global};
use std::marker::Model;
use std::sync::Arc;
use std::thread::Threads;

/// What is to be made for a timetable where pairings may be long: the network and what passes over it
/// go by, and its bases, each of which is passed over by itself.
///
/// A contract sees the network, and the bases with their prices by code.
#[derive(Drop)]
pub(crate) struct LongPlan {
    course: Arc<Course, Global>,
    bases: Vec<(Code, i64)>,
    // Earlier fronts over the same network.
    past: Vec<Arc<BaseFronts, Global>>,
    // Earlier fronts, beside which passes go.
    earlier: Vec<Arc<BaseFronts, Global>>,
}

impl Model for LongPlan {
    ghost use Rattle.std.specs.Coded.{codes};
    ghost use Rattle.std.specs.Prelude.{◌≡◌, map};
    ghost use Rattle.crew_fronts.specs.contracts.base_fronts.BaseFronts as fronts;
    ghost use Rattle.crew_plan.specs.Machinery.Kept.{IsLaid};
    ghost use Rattle.crew_plan.specs.Plans as Spec;
    ghost use Rattle.crew_resource.specs.Members.{Each};

    ghost Value = { Spec.Plan };

    ghost coded = { Prim.hlevel (codes, fronts.the_row.coded) };

    ghost view = { λ p. record { net = p.course.value; prices = p.bases.items } };

    ghost invariant = { λ p. IsLaid p.course.value p.bases.items
        × Each (λ b. b.net ≡ p.course.value) (map (λ a. a.value) p.past.items) };
}

// The bases of a timetable with their prices, in order.
fn bases_of(alloc: Global, timetable: &Timetable) -> Result<Vec<(Code, i64)>, AllocError>
    ensures bases { IfOk result (λ bases. bases.items ≡ fin.entries timetable.now.bases) }
    ensures sound { IsSound timetable.now }
{
    timetable
        .bases()
        .map(|(code, price)| (*code, *price))
        .collect(alloc)
}

// The network of all legal duties.
fn net_anew(
    alloc: Global,
    settings: &Settings,
    timetable: &Timetable,
    duties: Duties,
) -> Result<Arc<Net, Global>, AllocError>
    requires checked { IsChecked settings.now }
    requires duties { AreDuties settings.now timetable.now duties }
    requires few { length duties ≤ 200_000 }
    ensures { IfOk result (λ net. IsNetOf settings.now timetable.now duties (arc_value net)) }
{
    let duties = Arc::new(alloc, duties)?;
    Ok(Arc::new(alloc, Net::build(alloc, settings, timetable, duties)?)?)
}

// The network of all legal duties, beside that of an earlier timetable under the same settings.
fn net_beside(
    alloc: Global,
    earlier: &Net,
    timetable: &Timetable,
    duties: Duties,
) -> Result<Arc<Net, Global>, AllocError>
    requires duties { AreDuties earlier.now.settings timetable.now duties }
    requires few { length duties ≤ 200_000 }
    ensures { IfOk result (λ net. IsNetOf earlier.now.settings timetable.now duties
        (arc_value net)) }
{
    let duties = Arc::new(alloc, duties)?;
    Ok(Arc::new(alloc, earlier.next(alloc, timetable, duties)?)?)
}

// The network of all legal duties, made for a timetable, beside an earlier one.
fn net_after(
    alloc: Global,
    settings: &Settings,
    timetable: &Timetable,
    duties: Duties,
    earlier: &Net,
) -> Result<Arc<Net, Global>, AllocError>
    requires checked { IsChecked settings.now }
    requires duties { AreDuties settings.now timetable.now duties }
    requires few { length duties ≤ 200_000 }
    ensures { IfOk result (λ net. IsNetOf settings.now timetable.now duties (arc_value net)) }
{
    if is_under(earlier, settings) {
        net_beside(alloc, earlier, timetable, duties)
    } else {
        net_anew(alloc, settings, timetable, duties)
    }
}

// The same fronts, shared.
fn shared(
    alloc: Global,
    fronts: &[Arc<BaseFronts, Global>],
) -> Result<Vec<Arc<BaseFronts, Global>>, AllocError>
    ensures { IfOk result (λ all. map arc_value all.items ≡ map arc_value fronts.now) }
{
    let mut all = Vec::with_capacity(alloc, fronts.len())?;
    for base in fronts {
        all.push(Arc::try_clone(base)?)?;
    }
    Ok(all)
}

// The network of all legal duties, and earlier fronts over it: where the earlier network is the
// timetable's own it is taken, with its fronts.
fn ground_of(
    alloc: Global,
    settings: &Settings,
    timetable: &Timetable,
    duties: Duties,
    bases: &[(Code, i64)],
    earlier: Option<&Solution>,
) -> Result<(Arc<Net, Global>, Vec<Arc<BaseFronts, Global>>), AllocError>
    requires checked { IsChecked settings.now }
    requires duties { AreDuties settings.now timetable.now duties }
    requires few { length duties ≤ 200_000 }
    requires bases { bases.now ≡ fin.entries timetable.now.bases }
    ensures net { IfOk result
        (λ ground. IsNetOf settings.now timetable.now duties (arc_value ground.0)) }
    ensures past { IfOk result (λ ground. Each (λ b. b.net ≡ arc_value ground.0)
        (map arc_value ground.1.items)) }
{
    let Some((net, fronts)) = passes_of(earlier) else {
        return Ok((
            net_anew(alloc, settings, timetable, duties)?,
            Vec::new(alloc),
        ));
    };
    if is_of(net, settings, bases, &duties) {
        return Ok((Arc::try_clone(net)?, shared(alloc, fronts)?));
    }
    let net = net_after(alloc, settings, timetable, duties, net)?;
    Ok((net, Vec::new(alloc)))
}

// The earlier fronts of a base at a price, if there are some.
fn fronts_at(
    past: &[Arc<BaseFronts, Global>],
    base: Code,
    price: i64,
) -> Option<&Arc<BaseFronts, Global>>
    ensures { IfSome result
        (λ found. AreAt (map arc_value past.now) (base, price) (arc_value found.now)) }
{
    for fronts in past {
        let _net = fronts.net();
        if fronts.base() == base && fronts.price() == price {
            return Some(fronts);
        }
    }
    None
}

// The network of a solution by passes and its fronts.
fn passes_of(earlier: Option<&Solution>) -> Option<(&Arc<Net, Global>, &[Arc<BaseFronts, Global>])>
    ensures { IfSome result (λ passes. Each (λ b. b.net ≡ arc_value passes.0.now)
        (map arc_value passes.1.now)) }
{
    earlier?.by_passes()
}

// All fronts of an earlier solution by passes.
fn earlier_fronts(
    alloc: Global,
    earlier: Option<&Solution>,
) -> Result<Vec<Arc<BaseFronts, Global>>, AllocError> {
    match passes_of(earlier) {
        Some((_, fronts)) => shared(alloc, fronts),
        None => Ok(Vec::new(alloc)),
    }
}

// What the passes over a network go by, after that of earlier ones, so that duties keep their numbers.
fn course_over(
    alloc: Global,
    net: Arc<Net, Global>,
    earlier: &[Arc<BaseFronts, Global>],
) -> Result<Arc<Course, Global>, AllocError>
    ensures { IfOk result (λ course. arc_value course ≡ arc_value net) }
{
    let before = match earlier.first() {
        Some(fronts) => fronts.course(),
        None => None,
    };
    let course = match before {
        Some(before) => before.next(alloc, net)?,
        None => Course::new(alloc, net)?,
    };
    Ok(Arc::new(alloc, course)?)
}

impl LongPlan {
    /// The plan of a timetable, given its legal duties, beside an earlier solution, if there is one.
    pub(crate) fn of(
        alloc: Global,
        settings: &Settings,
        timetable: &Timetable,
        duties: Duties,
        earlier: Option<&Solution>,
    ) -> Result<LongPlan, AllocError>
        requires checked { IsChecked settings.now }
        requires long { Fronts.is_plain settings.now ≡ false }
        requires duties { AreDuties settings.now timetable.now duties }
        requires few { length duties ≤ 200_000 }
        ensures { IfOk result (IsPlanOf settings.now timetable.now) }
    {
        see_dates(timetable);
        let bases = bases_of(alloc, timetable)?;
        let (net, past) = ground_of(alloc, settings, timetable, duties, &bases, earlier)?;
        let earlier = earlier_fronts(alloc, earlier)?;
        let course = course_over(alloc, net, &earlier)?;
        Ok(LongPlan {
            course,
            bases,
            past,
            earlier,
        })
    }

    /// The network.
    pub(crate) fn net(&self) -> &Arc<Net, Global>
        ensures net { arc_value result.now ≡ self.now.net }
        ensures laid { IsLaid self.now.net self.now.prices }
    {
        self.course.net()
    }

    /// How many bases there are.
    pub(crate) fn base_count(&self) -> usize
        ensures { result ≡ length self.now.prices }
    {
        self.bases.len()
    }

    // The earlier fronts of the base at a place, at its price, if there are some.
    fn kept(&self, place: usize) -> Option<&Arc<BaseFronts, Global>>
        requires { place < length self.now.prices }
        ensures { IfSome result (λ fronts. AreFrontsIn self.now place (arc_value fronts.now)) }
    {
        let (base, price) = self.bases[place];
        fronts_at(&self.past, base, price)
    }

    // The earlier fronts of the base at a place, at its price, if there are some, over whichever network.
    fn before(&self, place: usize) -> Option<&BaseFronts>
        requires { place < length self.now.prices }
    {
        let (base, price) = self.bases[place];
        let fronts = fronts_at(&self.earlier, base, price)?;
        Some(fronts)
    }

    // The fronts of the base at a place, by a pass over its departures.
    fn passed(&self, alloc: Global, place: usize) -> Result<Arc<BaseFronts, Global>, AllocError>
        requires { place < length self.now.prices }
        ensures { IfOk result (λ fronts. AreFrontsIn self.now place (arc_value fronts)) }
    {
        let (base, price) = self.bases[place];
        BaseFronts::passed(alloc, &self.course, self.before(place), base, price)
    }

    // The same fronts, by a pass in at most so many threads, this one among them.
    fn passed_by_threads<T: Threads + Sync>(
        &self,
        rt: &T,
        alloc: Global,
        threads: usize,
        place: usize,
    ) -> Result<Arc<BaseFronts, Global>, AllocError>
        requires { place < length self.now.prices }
        ensures { IfOk result (λ fronts. AreFrontsIn self.now place (arc_value fronts)) }
    {
        let (base, price) = self.bases[place];
        let before = self.before(place);
        BaseFronts::passed_by_threads(rt, alloc, threads, &self.course, before, base, price)
    }

    /// The fronts of the base at a place, in order of code: earlier ones over this network at the
    /// base's price, or those of a pass over its departures.
    pub(crate) fn pass(
        &self,
        alloc: Global,
        place: usize,
    ) -> Result<Arc<BaseFronts, Global>, AllocError>
        requires { place < length self.now.prices }
        ensures { IfOk result (λ fronts. AreFrontsIn self.now place (arc_value fronts)) }
    {
        match self.kept(place) {
            Some(fronts) => Arc::try_clone(fronts),
            None => self.passed(alloc, place),
        }
    }

    /// The same fronts, those of a pass made in at most so many threads, this one among them.
    pub(crate) fn pass_by_threads<T: Threads + Sync>(
        &self,
        rt: &T,
        alloc: Global,
        threads: usize,
        place: usize,
    ) -> Result<Arc<BaseFronts, Global>, AllocError>
        requires { place < length self.now.prices }
        ensures { IfOk result (λ fronts. AreFrontsIn self.now place (arc_value fronts)) }
    {
        match self.kept(place) {
            Some(fronts) => Arc::try_clone(fronts),
            None => self.passed_by_threads(rt, alloc, threads, place),
        }
    }
}
