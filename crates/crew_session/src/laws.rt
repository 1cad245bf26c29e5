//! What holds of all sessions, and of all schedules.

ghost use Rattle.std.specs.Prelude.{◌≡◌, ℕ, List};
ghost use Rattle.std.specs.FinMap as map;
ghost use Rattle.crew_core.specs.Plays.{MeetsHeadline};
ghost use Rattle.crew_machine.specs.Choices.{ChosenRun};
ghost use Rattle.crew_machine.specs.Crew.{CrewReply, CrewState, crew};
ghost use Rattle.crew_machine.specs.Steps.{start};
ghost use Rattle.crew_rules.specs.Settings.{IsChecked};
ghost use Rattle.crew_rules.specs.declared.settings.Settings.{Settings};
ghost use Rattle.crew_session.specs.Replay.{IsReplayText};
ghost use Rattle.crew_session.specs.Replies.{acts_in, text_in};
ghost use Rattle.crew_session.specs.Rows.{records_of};
ghost use Rattle.crew_session.specs.Session.{IsSessionText};

/// A session of some bytes writes one text.
pub fn texts_are_unique()
    ensures { (s : Settings) (bytes a b : List ℕ) → IsSessionText s bytes a
        → IsSessionText s bytes b → a ≡ b }
{}

/// What a schedule writes is the lines of the replies of a run of the machine, from its start and
/// with the product's choices, over exactly the acts that its records ask for, and between them the
/// lines of the records that are refused. So what holds of all runs holds of what it tells.
pub fn schedules_are_runs()
    ensures { (s : Settings) (bytes text : List ℕ) → IsReplayText s bytes text
        → (replies : List CrewReply) × (state : CrewState)
        × ChosenRun (crew s) (start (crew s)) (acts_in s map.empty (records_of bytes)) replies state
        × (text ≡ text_in s 0 map.empty (records_of bytes) replies) }
{}

/// A schedule is a play: of the run whose replies it writes the headline holds, word for word as
/// `crew_core::play` promises it. Each version that it publishes is from scratch of its entries, and each
/// query is answered a published version, none older than its reader had seen.
pub fn schedules_meet_the_headline()
    ensures { (s : Settings) (bytes text : List ℕ) → IsChecked s → IsReplayText s bytes text
        → (replies : List CrewReply) × (state : CrewState)
        × ChosenRun (crew s) (start (crew s)) (acts_in s map.empty (records_of bytes)) replies state
        × (text ≡ text_in s 0 map.empty (records_of bytes) replies)
        × MeetsHeadline s (acts_in s map.empty (records_of bytes)) replies state.published }
{}
