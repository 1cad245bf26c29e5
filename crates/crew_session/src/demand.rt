//! What a record of a schedule comes to.

ghost use Rattle.std.specs.Prelude.{◌≡◌};
ghost use Rattle.crew_records.specs.Schedules.{IsDatedEdit, IsDatedStep};
ghost use Rattle.crew_rules.specs.Settings.{IsChecked};
ghost use Rattle.crew_session.specs.Machinery.Journals.{zones_of};
ghost use Rattle.crew_session.specs.Machinery.Players.{told_demand};
ghost use Rattle.crew_session.specs.Replay as Spec;
ghost use Rattle.crew_session.specs.Zones.{zone_fault};

use crate::clocks::clock_at;
use crate::zones::Zones;
use crew_clocks::Zone;
use crew_core::Step;
use crew_flights::{Code, Edit, Entry, Flight};
use crew_records::{PushedEdit, RecordFault, StepRecord};
use crew_rules::Settings;

// What a record of a schedule comes to.
#[derive(Drop)]
pub(crate) enum Demand {
    // A zone for an airport.
    Zone { code: Code, zone: Zone },
    // A step of the machine.
    Play(Step),
    // Nothing: the record is refused.
    Refuse(RecordFault),
}

// The edit of a push, if its airport has the zone that it needs.
fn edit_at(settings: &Settings, zones: &Zones, edit: PushedEdit) -> Option<Edit>
    requires checked { IsChecked settings.now }
    requires dated { IsDatedEdit edit }
    ensures { result ≡ Spec.edit_at settings.now (zones_of zones.now) edit }
{
    match edit {
        PushedEdit::Ready(edit) => Some(edit),
        PushedEdit::Flight {
            id,
            from,
            to,
            dep,
            arr,
            price,
        } => {
            let report_clock = clock_at(settings, zones, from, dep)?;
            Some(Edit::AddFlight(Flight {
                id,
                from,
                to,
                dep,
                arr,
                report_clock,
                price,
            }))
        }
        PushedEdit::Retime { id, from, dep, arr } => {
            let report_clock = clock_at(settings, zones, from, dep)?;
            Some(Edit::Retime {
                id,
                from,
                dep,
                arr,
                report_clock,
            })
        }
    }
}

// What a push comes to, by its edit.
fn push_demand(seat: u8, number: u32, edit: Option<Edit>) -> Demand
    ensures { told_demand result ≡ Spec.push_demand seat number edit }
{
    match edit {
        None => Demand::Refuse(RecordFault::NoZone),
        Some(edit) => Demand::Play(Step::Push(Entry { seat, number, edit })),
    }
}

// What a zone comes to.
fn zone_demand(zones: &Zones, code: Code, zone: Zone) -> Demand
    ensures { told_demand result
        ≡ Spec.zone_demand (zone_fault (zones_of zones.now) code) code zone }
{
    match zones.refusal(code) {
        None => Demand::Zone { code, zone },
        Some(fault) => Demand::Refuse(fault),
    }
}

// What a record comes to.
pub(crate) fn demand_of(settings: &Settings, zones: &Zones, asked: StepRecord) -> Demand
    requires checked { IsChecked settings.now }
    requires dated { IsDatedStep asked }
    ensures { told_demand result ≡ Spec.demand_of settings.now (zones_of zones.now) asked }
{
    match asked {
        StepRecord::AddZone { code, zone } => zone_demand(zones, code, zone),
        StepRecord::Push { seat, number, edit } => {
            push_demand(seat, number, edit_at(settings, zones, edit))
        }
        StepRecord::Begin => Demand::Play(Step::Begin),
        StepRecord::Claim => Demand::Play(Step::Claim),
        StepRecord::Bring { job } => Demand::Play(Step::Bring(job)),
        StepRecord::GiveBack { job } => Demand::Play(Step::GiveBack(job)),
        StepRecord::Abandon => Demand::Play(Step::Abandon),
        StepRecord::Seal => Demand::Play(Step::Seal),
        StepRecord::Publish => Demand::Play(Step::Publish),
        StepRecord::Ask { reader } => Demand::Play(Step::Ask(reader)),
        StepRecord::Refuse(fault) => Demand::Refuse(fault),
    }
}
