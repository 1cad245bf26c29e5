//! What a service and its viewers refuse, as an engine says it.
ghost use Rattle.std.specs.Prelude.{◌≡◌};
ghost use Rattle.crew_serve.specs.Machinery.Threads.{settled_fault_of, view_fault_of};

use crew_publish::ViewFault;
use crew_service::SettleFault;
use crew_session::EngineFault;

/// Why a planner doesn't settle, as an engine says it.
pub(crate) fn of_settle(fault: SettleFault) -> EngineFault
    ensures { result ≡ settled_fault_of fault }
{
    match fault {
        SettleFault::Gap(place) => EngineFault::Gap(place as u64),
        SettleFault::LastVersion => EngineFault::LastVersion,
        SettleFault::TooManyDuties => EngineFault::TooManyDuties,
        SettleFault::Memory => EngineFault::Memory,
    }
}

/// Why a view isn't given, as an engine says it.
pub(crate) fn of_view(fault: ViewFault) -> EngineFault
    ensures { result ≡ view_fault_of fault }
{
    match fault {
        ViewFault::NoView => EngineFault::NoView,
        ViewFault::Memory => EngineFault::Memory,
    }
}
