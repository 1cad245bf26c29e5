//! What plays a schedule.

ghost use Rattle.std.specs.Prelude.{◌≡◌, IfErr, IfOk, OnErr, OnOk};
ghost use Rattle.crew_core.specs.Replies.{act_of};
ghost use Rattle.crew_rules.specs.Settings.{IsChecked};
ghost use Rattle.crew_rules.specs.declared.settings.Settings.{Settings as SettingsOf};
ghost use Rattle.crew_session.specs.Faults.{IsLineFault};
ghost use Rattle.crew_session.specs.Machinery.Players.{CameTo, StandsFor, told_demand};
ghost use Rattle.crew_session.specs.Replay.{Meets, Stage, Steps};
ghost use Rattle.crew_session.specs.Replay as Spec;
ghost use Rattle.crew_session.specs.Texts.{BeginsOne};

use crate::demand::Demand;
use crate::fault::SessionFault;
use crate::lines::write_refused;
use crate::replies::write_reply;
use crate::zones::Zones;
use crew_core::{Machine, Step};
use crew_rules::Settings;
use std::alloc::{AllocError, Global};
use std::io::Write;
use std::thread::Threads;

// What plays a schedule: the zones of airports, and the machine.
#[derive(Drop)]
pub(crate) struct Player {
    pub(crate) zones: Zones,
    pub(crate) machine: Machine,
}

impl Player {
    // Before any record.
    pub(crate) fn new(alloc: Global, settings: &Settings) -> Result<Player, AllocError>
        requires { IsChecked settings.now }
        ensures { IfOk result (λ player.
            StandsFor settings.now player (Spec.start settings.now)) }
    {
        Ok(Player {
            zones: Zones::new(alloc),
            machine: Machine::new(alloc, settings)?,
        })
    }

    // Takes a step of the machine, and writes the reply.
    fn play<R: Threads + Sync, W: Write>(
        &mut self,
        rt: &R,
        alloc: Global,
        step: Step,
        writer: &mut W,
    ) -> Result<(), SessionFault>
        ensures steps { (s : SettingsOf) (a : Stage) → StandsFor s self.old a
            → OnOk result (CameTo s (Steps s (act_of step) a)
            (W.contents writer.old) (W.contents writer.new) self.new) }
        ensures begun { (s : SettingsOf) (a : Stage) → StandsFor s self.old a
            → OnErr result (BeginsOne (W.contents writer.old) (W.contents writer.new)
            (λ text. (b : Stage) × Steps s (act_of step) a b text)) }
        ensures fault { IfErr result IsLineFault }
    {
        let reply = self.machine.step(rt, alloc, step)?;
        write_reply(alloc, writer, &reply)
    }

    // Does what the record of a number comes to.
    pub(crate) fn meet<R: Threads + Sync, W: Write>(
        &mut self,
        rt: &R,
        alloc: Global,
        number: u32,
        demand: Demand,
        writer: &mut W,
    ) -> Result<(), SessionFault>
        ensures meets { (s : SettingsOf) (a : Stage) → StandsFor s self.old a
            → OnOk result (CameTo s (Meets s number (told_demand demand) a)
            (W.contents writer.old) (W.contents writer.new) self.new) }
        ensures begun { (s : SettingsOf) (a : Stage) → StandsFor s self.old a
            → OnErr result (BeginsOne (W.contents writer.old) (W.contents writer.new)
            (λ text. (b : Stage) × Meets s number (told_demand demand) a b text)) }
        ensures fault { IfErr result IsLineFault }
    {
        match demand {
            Demand::Zone { code, zone } => Ok(self.zones.add(code, zone)?),
            Demand::Play(step) => self.play(rt, alloc, step, writer),
            Demand::Refuse(fault) => write_refused(alloc, writer, number, fault.number()),
        }
    }
}
