//! Fronts that sweeps make, as those of bases, and back.
ghost use Rattle.std.specs.Prelude.{◌≡◌, ◌<◌, IfOk, length, map, true};
ghost use Rattle.std.specs.Arc.{arc_value};
ghost use Rattle.crew_flights.specs.Timetable.{IsSound, Timetable};
ghost use Rattle.crew_fronts.specs.Fronts.{IsOfSweep, is_plain};
ghost use Rattle.crew_pairing.specs.Duties.{AreDuties};
ghost use Rattle.crew_plan.specs.Machinery.Kept.{AreOfSweeps};
ghost use Rattle.crew_plan.specs.Machinery.Kinds.{IsForSweeps, plan_by_sweeps};
ghost use Rattle.crew_plan.specs.Plans.{AreAllIn, AreFrontsIn};
ghost use Rattle.crew_resource.specs.Members.{Each};
ghost use Rattle.crew_fronts.specs.crew_solve.Plans.{AreSweepsIn};
ghost use Rattle.crew_fronts.specs.crew_sweep.Sweeps.{ShowsFronts};

use crew_fronts::BaseFronts;
use std::alloc::{AllocError, Global};
use std::sync::Arc;

/// The fronts of the base at a place of a plan.
pub(crate) fn swept(
    alloc: Global,
    plan: &crew_fronts::crew_solve::Plan,
    place: usize,
) -> Result<Arc<BaseFronts, Global>, AllocError>
    requires plain { IsForSweeps plan.now }
    requires place { place < length plan.now.prices }
    ensures { IfOk result
        (λ fronts. AreFrontsIn (plan_by_sweeps plan.now) place (arc_value fronts)) }
{
    let sweep = plan.sweep(alloc, place)?;
    let fronts = BaseFronts::swept(alloc, sweep)?;
    let _net = fronts.net();
    Ok(fronts)
}

/// Each of these fronts as those of a base.
pub(crate) fn wrapped(
    alloc: Global,
    sweeps: &[Arc<crew_fronts::crew_solve::BaseFronts, Global>],
) -> Result<Vec<Arc<BaseFronts, Global>>, AllocError>
    requires { Each (λ b. is_plain b.net.settings ≡ true) (map arc_value sweeps.now) }
    ensures { IfOk result
        (λ fronts. AreOfSweeps (map arc_value sweeps.now) (map arc_value fronts.items)) }
{
    let mut fronts = Vec::with_capacity(alloc, sweeps.len())?;
    for sweep in sweeps {
        let one = BaseFronts::swept(alloc, Arc::try_clone(sweep)?)?;
        fronts.push(one)?;
    }
    Ok(fronts)
}

// The sweep that made the fronts of a base.
fn sweep_of(
    fronts: &BaseFronts,
) -> Result<Arc<crew_fronts::crew_solve::BaseFronts, Global>, AllocError>
    requires { is_plain fronts.now.net.settings ≡ true }
    ensures own { IfOk result (λ sweep. IsOfSweep (arc_value sweep) fronts.now) }
    ensures right { IfOk result (λ sweep. (t : Timetable) → IsSound t
        → AreDuties (arc_value sweep).net.settings t (arc_value sweep).net.duties
        → ShowsFronts t (arc_value sweep)) }
{
    let Some(sweep) = fronts.as_swept() else {
        unreachable!();
    };
    let _net = sweep.net();
    Arc::try_clone(sweep)
}

/// The sweeps that made the fronts of a plan's bases.
pub(crate) fn unwrapped(
    alloc: Global,
    plan: &crew_fronts::crew_solve::Plan,
    fronts: &[Arc<BaseFronts, Global>],
) -> Result<Vec<Arc<crew_fronts::crew_solve::BaseFronts, Global>>, AllocError>
    requires plain { IsForSweeps plan.now }
    requires all { AreAllIn (plan_by_sweeps plan.now) (map arc_value fronts.now) }
    ensures { IfOk result (λ sweeps. AreSweepsIn plan.now (map arc_value sweeps.items)) }
{
    let mut sweeps = Vec::with_capacity(alloc, fronts.len())?;
    for base in fronts {
        let sweep = sweep_of(base)?;
        sweeps.push(sweep)?;
    }
    Ok(sweeps)
}
