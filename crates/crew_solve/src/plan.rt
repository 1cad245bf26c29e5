//! What is to be made for a timetable, base by base.
ghost use Rattle.std.specs.Prelude.{◌≡◌, ◌<◌, ◌≤◌, IfOk, IfSome, length, map, true};
ghost use Rattle.std.specs.Arc.{arc_value};
ghost use Rattle.std.specs.FinMap as fin;
ghost use Rattle.crew_flights.specs.Timetable.{IsSound, Timetable as TimetableOf};
ghost use Rattle.crew_net.specs.Nets.{IsNetOf};
ghost use Rattle.crew_pairing.specs.Duties.{AreDuties};
ghost use Rattle.crew_rules.specs.Settings.{IsChecked, SumsTellAll};
ghost use Rattle.crew_solve.specs.Machinery.Planned.{IsOver, IsPast};
ghost use Rattle.crew_solve.specs.Machinery.Solved.{IsShowing};
ghost use Rattle.crew_solve.specs.Plans.{IsPlanOf, IsSolutionIn, IsSweepIn};

use crate::base_fronts::BaseFronts;
use crate::past::Past;
use crate::solution::Solution;
use crate::sweeps::{sweep_all, sweep_base, sweep_base_by_threads};
use crew_claims::Sharing;
use crew_flights::{Code, Timetable};
use crew_net::{Net, departure_positions};
use crew_pairing::Duties;
use crew_rules::Settings;
use crew_sweep::Sweep;
use std::alloc::{AllocError, Global};
use std::marker::Model;
use std::sync::Arc;
use std::thread::Threads;

/// What is to be made for a timetable: its network, which all bases share, and its bases, each with its
/// own label-setting pass, on any thread. Warm from an earlier solution a base's pass takes from it
/// what is as it was.
///
/// A contract sees the network, and the bases with their prices by code.
pub struct Plan {
    net: Arc<Net, Global>,
    bases: Vec<(Code, i64)>,
    positions: Vec<u32>,
    past: Option<Past>,
}

impl Drop for Plan {
    fn drop(self) {
        let Self {
            net: _,
            bases: _,
            positions: _,
            past: _,
        } = self;
    }
}

impl Model for Plan {
    ghost use Rattle.crew_solve.specs.Machinery.Planned.{IsPlanned};
    ghost use Rattle.crew_solve.specs.Plans as Spec;

    ghost Value = { Spec.Plan };

    ghost view = { λ p. record { net = p.net.value; prices = p.bases.items } };

    ghost invariant = { λ p. IsPlanned p.net.value p.bases.items p.positions.items p.past };
}

// The bases of a timetable with their prices, in order.
fn bases_of(alloc: Global, timetable: &Timetable) -> Result<Vec<(Code, i64)>, AllocError>
    ensures bases { IfOk result (λ bases. bases.items ≡ fin.entries timetable.now.bases) }
    ensures sound { IsSound timetable.now }
{
    timetable
        .bases()
        .map(|(code, price)| (*code, *price))
        .collect(alloc)
}

// Duties, to be shared.
fn shared_duties(alloc: Global, duties: Duties) -> Result<Arc<Duties, Global>, AllocError>
    ensures { IfOk result (λ shared. arc_value shared ≡ duties) }
{
    Ok(Arc::new(alloc, duties)?)
}

// A network, to be shared.
fn shared_net(alloc: Global, net: Net) -> Result<Arc<Net, Global>, AllocError>
    ensures { IfOk result (λ shared. arc_value shared ≡ net) }
{
    Ok(Arc::new(alloc, net)?)
}

// The network of all legal duties.
fn net_anew(
    alloc: Global,
    settings: &Settings,
    timetable: &Timetable,
    duties: Duties,
) -> Result<Arc<Net, Global>, AllocError>
    requires checked { IsChecked settings.now }
    requires duties { AreDuties settings.now timetable.now duties }
    requires few { length duties ≤ 200_000 }
    ensures { IfOk result (λ net. IsNetOf settings.now timetable.now duties (arc_value net)) }
{
    let duties = shared_duties(alloc, duties)?;
    shared_net(alloc, Net::build(alloc, settings, timetable, duties)?)
}

// The network of all legal duties, beside that of an earlier timetable under the same settings.
fn net_beside(
    alloc: Global,
    earlier: &Net,
    timetable: &Timetable,
    duties: Duties,
) -> Result<Arc<Net, Global>, AllocError>
    requires duties { AreDuties earlier.now.settings timetable.now duties }
    requires few { length duties ≤ 200_000 }
    ensures { IfOk result (λ net. IsNetOf earlier.now.settings timetable.now duties
        (arc_value net)) }
{
    let duties = shared_duties(alloc, duties)?;
    shared_net(alloc, earlier.next(alloc, timetable, duties)?)
}

// The network of all legal duties, beside that of an earlier solution, if there is one.
fn net_of(
    alloc: Global,
    settings: &Settings,
    timetable: &Timetable,
    duties: Duties,
    earlier: Option<&Solution>,
) -> Result<Arc<Net, Global>, AllocError>
    requires checked { IsChecked settings.now }
    requires duties { AreDuties settings.now timetable.now duties }
    requires few { length duties ≤ 200_000 }
    requires earlier { IfSome earlier (λ e. e.now.net.settings ≡ settings.now) }
    ensures { IfOk result (λ net. IsNetOf settings.now timetable.now duties (arc_value net)) }
{
    match earlier {
        Some(earlier) => net_beside(alloc, earlier.net(), timetable, duties),
        None => net_anew(alloc, settings, timetable, duties),
    }
}

// Whether a solution was made under these settings.
fn is_under(solution: &Solution, settings: &Settings) -> bool
    ensures { result ≡ true → solution.now.net.settings ≡ settings.now }
{
    solution.net().settings() == settings
}

// The solution, if there is one that was made under these settings.
fn alike<'a>(earlier: Option<&'a Solution>, settings: &Settings) -> Option<&'a Solution>
    ensures { IfSome result (λ e. e.now.net.settings ≡ settings.now) }
{
    let earlier = earlier?;
    if is_under(earlier, settings) {
        Some(earlier)
    } else {
        None
    }
}

// What an earlier solution has for a network, if there is one.
fn past_of(alloc: Global, earlier: Option<&Solution>, net: &Net) -> Result<Option<Past>, AllocError>
    requires { IfSome earlier (λ e. e.now.net.settings ≡ net.now.settings) }
    ensures { IfOk result (λ past. IfSome past (IsPast net.now)) }
{
    let Some(earlier) = earlier else {
        return Ok(None);
    };
    Ok(Some(Past::of(alloc, earlier, net)?))
}

// The fronts that a sweep shows, to be shared.
fn shown(alloc: Global, sweep: Sweep) -> Result<Arc<BaseFronts, Global>, AllocError>
    requires { IsShowing sweep }
    ensures { IfOk result (λ fronts. arc_value fronts ≡ sweep) }
{
    let fronts = BaseFronts::new(alloc, sweep)?;
    Ok(Arc::new(alloc, fronts)?)
}

impl Plan {
    // The plan over a network of a timetable and its bases, beside an earlier solution, if there is one.
    fn over(
        alloc: Global,
        net: Arc<Net, Global>,
        bases: Vec<(Code, i64)>,
        earlier: Option<&Solution>,
    ) -> Result<Plan, AllocError>
        requires over { (t : TimetableOf) × IsOver t (arc_value net)
            × (bases.items ≡ fin.entries t.bases) }
        requires earlier { IfSome earlier
            (λ e. e.now.net.settings ≡ (arc_value net).settings) }
        ensures net { IfOk result (λ plan. plan.net ≡ arc_value net) }
        ensures prices { IfOk result (λ plan. plan.prices ≡ bases.items) }
    {
        let positions = departure_positions(alloc, &net)?;
        let past = past_of(alloc, earlier, &net)?;
        Ok(Plan {
            net,
            bases,
            positions,
            past,
        })
    }

    /// The plan of a timetable, given its legal duties, beside an earlier solution, if there is one,
    /// whatever that is of.
    pub fn of(
        alloc: Global,
        settings: &Settings,
        timetable: &Timetable,
        duties: Duties,
        earlier: Option<&Solution>,
    ) -> Result<Plan, AllocError>
        requires checked { IsChecked settings.now }
        requires sums { SumsTellAll settings.now }
        requires duties { AreDuties settings.now timetable.now duties }
        requires few { length duties ≤ 200_000 }
        ensures plan { IfOk result (IsPlanOf settings.now timetable.now) }
        ensures sound { IsSound timetable.now }
    {
        let earlier = alike(earlier, settings);
        let bases = bases_of(alloc, timetable)?;
        let net = net_of(alloc, settings, timetable, duties, earlier)?;
        Plan::over(alloc, net, bases, earlier)
    }

    /// The network.
    pub fn net(&self) -> &Net
        ensures net { result.now ≡ self.now.net }
        ensures few { length self.now.net.duties ≤ 200_000 }
        ensures bases { map (λ base. base.0) self.now.prices ≡ self.now.net.bases }
    {
        &self.net
    }

    /// The network, shared. Takes no memory: `Err` is for want of room to count who shares it.
    pub fn shared_net(&self) -> Result<Arc<Net, Global>, AllocError>
        ensures { IfOk result (λ net. arc_value net ≡ self.now.net) }
    {
        Arc::try_clone(&self.net)
    }

    /// How many bases there are.
    pub fn base_count(&self) -> usize
        ensures { result ≡ length self.now.prices }
    {
        self.bases.len()
    }

    // The earlier fronts of the base at a place, at its price, where the earlier network is this one.
    fn kept(&self, place: usize) -> Option<&Arc<BaseFronts, Global>>
        requires { place < length self.now.prices }
        ensures { IfSome result (λ fronts. IsSweepIn self.now place (arc_value fronts.now)) }
    {
        let (base, price) = self.bases[place];
        let past = self.past.as_ref()?;
        if past.is_same {
            past.fronts_at(base, price)
        } else {
            None
        }
    }

    // The fronts of the base at a place, made for this network.
    fn made(&self, alloc: Global, place: usize) -> Result<Arc<BaseFronts, Global>, AllocError>
        requires { place < length self.now.prices }
        ensures { IfOk result (λ fronts. IsSweepIn self.now place (arc_value fronts)) }
    {
        let (base, price) = self.bases[place];
        let past = self.past.as_ref();
        let sweep = sweep_base(alloc, &self.net, &self.positions, past, base, price)?;
        shown(alloc, sweep)
    }

    // The same by threads of those that are shared.
    fn made_by_threads<R: Threads + Sync>(
        &self,
        rt: &R,
        alloc: Global,
        sharing: &Sharing,
        place: usize,
    ) -> Result<Arc<BaseFronts, Global>, AllocError>
        requires { place < length self.now.prices }
        ensures { IfOk result (λ fronts. IsSweepIn self.now place (arc_value fronts)) }
    {
        let (base, price) = self.bases[place];
        let past = self.past.as_ref();
        let sweep = sweep_base_by_threads(
            rt,
            alloc,
            sharing,
            &self.net,
            &self.positions,
            past,
            base,
            price,
        )?;
        shown(alloc, sweep)
    }

    /// The fronts of the base at a place, in order of code. Where the earlier solution has some of
    /// the base at the same price, they are made beside these, and shared where the two networks are
    /// one; else they are made from scratch.
    pub fn sweep(&self, alloc: Global, place: usize) -> Result<Arc<BaseFronts, Global>, AllocError>
        requires { place < length self.now.prices }
        ensures { IfOk result (λ fronts. IsSweepIn self.now place (arc_value fronts)) }
    {
        match self.kept(place) {
            Some(fronts) => Arc::try_clone(fronts),
            None => self.made(alloc, place),
        }
    }

    /// The same by threads of those that are shared.
    pub fn sweep_by_threads<R: Threads + Sync>(
        &self,
        rt: &R,
        alloc: Global,
        sharing: &Sharing,
        place: usize,
    ) -> Result<Arc<BaseFronts, Global>, AllocError>
        requires { place < length self.now.prices }
        ensures { IfOk result (λ fronts. IsSweepIn self.now place (arc_value fronts)) }
    {
        match self.kept(place) {
            Some(fronts) => Arc::try_clone(fronts),
            None => self.made_by_threads(rt, alloc, sharing, place),
        }
    }

    /// All Pareto fronts and the best pairing. So many threads at most go over the bases, shared out
    /// among those that are still under way, so several go over each of the last bases. With 0 workers
    /// or 1, and for few duties, the calling thread sweeps all of them, and also what no thread can be
    /// started for.
    pub fn solve<R: Threads + Sync>(
        &self,
        rt: &R,
        alloc: Global,
        workers: usize,
    ) -> Result<Solution, AllocError>
        ensures { IfOk result (IsSolutionIn self.now) }
    {
        let fronts = sweep_all(rt, alloc, self, workers)?;
        Solution::of(alloc, self, fronts)
    }
}
