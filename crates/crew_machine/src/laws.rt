//! What holds of every run.

ghost use Rattle.std.specs.Prelude.{◌≡◌, ◌↔◌, ℕ, ◌+◌, ◌≤◌, Bool, List, Some, None};
ghost use Rattle.std.specs.List.{slice_get};
ghost use mathlib.Core.List.{IsPrefix};
ghost use Rattle.crew_flights.specs.declared.entries.Entry.{Entry};
ghost use Rattle.crew_machine.specs.Chains.{Follows, NeverFalls, answers_to};
ghost use Rattle.crew_resource.specs.Chains.{IsChain};
ghost use Rattle.crew_machine.specs.Choices.{ChosenRun, ChosenStep};
ghost use Rattle.crew_machine.specs.Crew.{CrewAct, CrewBoard, CrewReply, CrewRound, CrewState, CrewVersion, DutyNode, DutyWork, Entries, IsFromScratch, IsFrontOf, IsNodeOf, crew, timetable_of};
ghost use Rattle.crew_machine.specs.Rounds.{Abandons, Brings, Claims, GivesBack, IsCarried, IsUndone, NoneReusable, Opens, Restores, Reuses, Seals, last_number, progress_of};
ghost use Rattle.crew_machine.specs.Steps.{Answered, Claim, Claimed, Run, Step, pushed_in, start};
ghost use Rattle.crew_machine.specs.Worlds.{IsWorkOf};
ghost use Rattle.crew_machine.specs.Machinery.Sound.{IsStanding, IsVersion};
ghost use Rattle.crew_machine.specs.declared.rounds.Brought.{Brought};
ghost use Rattle.crew_machine.specs.declared.rounds.Cell.{Cell};
ghost use Rattle.crew_machine.specs.declared.rounds.Cell.TheVariants.{Done, Out};
ghost use Rattle.crew_pairing.specs.Duties.{HasFew};
ghost use Rattle.crew_resource.specs.Members.{Member};
ghost use Rattle.crew_rules.specs.Settings.{IsChecked};
ghost use Rattle.crew_rules.specs.declared.settings.Settings.{Settings};

/// At the end of every run, and so at each moment of one, whatever its steps and its free choices:
/// what is done in the round that is open is the front of its node in the round's own timetable;
/// the published versions are a chain, and each is from scratch of the entries that it names; and
/// each answer is a published version, none before the one that its reader was answered last.
pub fn all_interleavings()
    ensures fronts { (s : Settings) (acts : List CrewAct) (replies : List CrewReply)
        (state : CrewState) → IsChecked s → Run (crew s) (start (crew s)) acts replies state
        → (round : CrewRound) (n : DutyNode) (entries : Entries) → state.board.round ≡ Some round
        → Member round.cells (n, Done entries)
        → IsFrontOf s (timetable_of round.entries) n entries }
    ensures chain { (s : Settings) (acts : List CrewAct) (replies : List CrewReply)
        (state : CrewState) → IsChecked s → Run (crew s) (start (crew s)) acts replies state
        → IsChain Follows state.published }
    ensures scratch { (s : Settings) (acts : List CrewAct) (replies : List CrewReply)
        (state : CrewState) → IsChecked s → Run (crew s) (start (crew s)) acts replies state
        → (place : ℕ) (version : CrewVersion) → slice_get state.published place ≡ Some version
        → IsFromScratch s version }
    ensures answers { (s : Settings) (acts : List CrewAct) (replies : List CrewReply)
        (state : CrewState) → IsChecked s → Run (crew s) (start (crew s)) acts replies state
        → (reader place : ℕ) (version : CrewVersion)
        → Member replies (Answered reader place version)
        → slice_get state.published place ≡ Some version }
    ensures never_back { (s : Settings) (acts : List CrewAct) (replies : List CrewReply)
        (state : CrewState) → IsChecked s → Run (crew s) (start (crew s)) acts replies state
        → (reader : ℕ) → NeverFalls 0 (answers_to reader acts replies) }
{}

/// At the end of every run, and so at each moment of one, the log is what was pushed, in order; and
/// the entries of each published version, of the version that was sealed last, and of the round
/// that is open are a beginning of it.
pub fn settled_entries_begin_the_log()
    ensures log { (s : Settings) (acts : List CrewAct) (replies : List CrewReply)
        (state : CrewState) → Run (crew s) (start (crew s)) acts replies state
        → state.log ≡ pushed_in acts }
    ensures published { (s : Settings) (acts : List CrewAct) (replies : List CrewReply)
        (state : CrewState) → Run (crew s) (start (crew s)) acts replies state
        → (place : ℕ) (version : CrewVersion) → slice_get state.published place ≡ Some version
        → IsPrefix version.entries state.log }
    ensures sealed { (s : Settings) (acts : List CrewAct) (replies : List CrewReply)
        (state : CrewState) → Run (crew s) (start (crew s)) acts replies state
        → IsPrefix state.board.sealed.entries state.log }
    ensures begun { (s : Settings) (acts : List CrewAct) (replies : List CrewReply)
        (state : CrewState) → Run (crew s) (start (crew s)) acts replies state
        → (round : CrewRound) → state.board.round ≡ Some round
        → IsPrefix round.entries state.log }
{}

/// What a run publishes depends on entries alone: two versions of the same entries, of one run or
/// of two, have the same fronts and the same best.
pub fn versions_are_told_by_their_entries()
    ensures { (s : Settings) (acts others : List CrewAct) (replies answers : List CrewReply)
        (state other : CrewState) → IsChecked s
        → Run (crew s) (start (crew s)) acts replies state
        → Run (crew s) (start (crew s)) others answers other
        → (i j : ℕ) (v w : CrewVersion) → slice_get state.published i ≡ Some v
        → slice_get other.published j ≡ Some w → v.entries ≡ w.entries
        → (v.fronts ≡ w.fronts) × (v.best ≡ w.best) }
{}

/// A round never gets stuck: where none of its nodes is out, and one isn't done, the next step may
/// claim one.
pub fn rounds_never_get_stuck()
    ensures { (s : Settings) (acts : List CrewAct) (replies : List CrewReply) (state : CrewState)
        → IsChecked s → Run (crew s) (start (crew s)) acts replies state
        → (round : CrewRound) (n : DutyNode) (cell : Cell Entries)
        → state.board.round ≡ Some round
        → ((m : DutyNode) → Member round.cells (m, Out) → ⊥)
        → Member round.cells (n, cell) → IsUndone cell
        → (number : ℕ) × (job : DutyWork) × (next : CrewState)
        × Step (crew s) state Claim (Claimed number job) next }
{}

/// A round can be finished: where none of its nodes is out, further steps seal it.
pub fn rounds_can_be_finished()
    ensures { (s : Settings) (acts : List CrewAct) (replies : List CrewReply) (state : CrewState)
        → IsChecked s → Run (crew s) (start (crew s)) acts replies state
        → (round : CrewRound) → state.board.round ≡ Some round
        → ((m : DutyNode) → Member round.cells (m, Out) → ⊥)
        → (more : List CrewAct) × (others : List CrewReply) × (next : CrewState)
        × Run (crew s) state more others next × (next.board.round ≡ None)
        × (next.board.sealed.entries ≡ round.entries)
        × (next.board.sealed.number ≡ state.board.sealed.number + 1)
        × (next.published ≡ state.published) }
{}

/// Each log can be published: some run publishes a version of all its entries, where they come to
/// at most 200,000 legal duties.
pub fn each_log_can_be_published()
    ensures { (s : Settings) (entries : List Entry) → IsChecked s
        → HasFew s (timetable_of entries) → (acts : List CrewAct) × (replies : List CrewReply)
        × (state : CrewState) × Run (crew s) (start (crew s)) acts replies state
        × ((place : ℕ) × (version : CrewVersion)
        × (slice_get state.published place ≡ Some version) × (version.entries ≡ entries)) }
{}

/// Reuse has one end: where some nodes are reused and none is left that could be, the cells are the
/// same whichever were. After a round is begun there is none to reuse.
pub fn reuse_has_one_end()
    ensures alike { (s : Settings) (sealed : CrewVersion) (entries : List Entry)
        (old a b : List (DutyNode × Cell Entries)) → IsChecked s → IsFromScratch s sealed
        → Reuses (crew s) sealed entries old a → NoneReusable (crew s) sealed entries a
        → Reuses (crew s) sealed entries old b → NoneReusable (crew s) sealed entries b
        → a ≡ b }
    ensures begun { (s : Settings) (sealed : CrewVersion) (entries : List Entry)
        (cells : List (DutyNode × Cell Entries)) → IsCarried (crew s) sealed entries cells
        → NoneReusable (crew s) sealed entries cells }
{}

/// The product's choices are among the free ones: its runs are runs, and all that holds of runs
/// holds of them.
pub fn chosen_runs_are_runs()
    ensures { (s : Settings) (acts : List CrewAct) (replies : List CrewReply)
        (state : CrewState) → ChosenRun (crew s) (start (crew s)) acts replies state
        → Run (crew s) (start (crew s)) acts replies state }
{}

/// No act is without a reply: at the end of every run, and so at each moment of one, each act has a
/// reply and a next state that are a step with the product's choices, and so a step.
pub fn each_act_has_a_reply()
    ensures chosen { (s : Settings) (acts : List CrewAct) (replies : List CrewReply)
        (state : CrewState) (act : CrewAct) → IsChecked s
        → Run (crew s) (start (crew s)) acts replies state
        → (reply : CrewReply) × (next : CrewState) × ChosenStep (crew s) state act reply next }
    ensures free { (s : Settings) (acts : List CrewAct) (replies : List CrewReply)
        (state : CrewState) (act : CrewAct) → IsChecked s
        → Run (crew s) (start (crew s)) acts replies state
        → (reply : CrewReply) × (next : CrewState) × Step (crew s) state act reply next }
{}

/// The product's machine never gets stuck: each list of acts has a run with its choices.
pub fn each_list_of_acts_has_a_run()
    ensures { (s : Settings) (acts : List CrewAct) → IsChecked s
        → (replies : List CrewReply) × (state : CrewState)
        × ChosenRun (crew s) (start (crew s)) acts replies state }
{}

/// Each job that is handed out is its node's own job in the timetable of some entries: it holds the
/// node's own inputs, and each node just before it with the node's front.
pub fn jobs_are_right()
    ensures { (s : Settings) (acts : List CrewAct) (replies : List CrewReply) (state : CrewState)
        → IsChecked s → Run (crew s) (start (crew s)) acts replies state
        → (number : ℕ) (job : DutyWork) → slice_get state.jobs number ≡ Some job
        → (entries : List Entry) × IsNodeOf s (timetable_of entries) job.node
        × IsWorkOf (crew s) (timetable_of entries) (IsFrontOf s (timetable_of entries)) job }
{}

/// Each call leaves a board right that was: its sealed version is from scratch, and what is done in
/// its round are the fronts of the round's timetable. A board that a right version is restored to
/// is right, whatever it was.
pub fn calls_keep_boards_right()
    ensures begun { (s : Settings) (old new : CrewBoard) (entries : List Entry) → IsChecked s
        → IsStanding (crew s) old → Opens (crew s) old entries new → IsStanding (crew s) new }
    ensures claimed { (s : Settings) (old new : CrewBoard) (job : DutyWork) → IsChecked s
        → IsStanding (crew s) old → Claims (crew s) old job new → IsStanding (crew s) new }
    ensures brought { (s : Settings) (old new : CrewBoard) (job : DutyWork) (front : Entries)
        (brought : Brought) → IsChecked s → IsStanding (crew s) old
        → Brings (crew s) old job front brought new → IsStanding (crew s) new }
    ensures given_back { (s : Settings) (old new : CrewBoard) (job : DutyWork) (freed : Bool)
        → IsChecked s → IsStanding (crew s) old → GivesBack (crew s) old job freed new
        → IsStanding (crew s) new }
    ensures abandoned { (s : Settings) (old new : CrewBoard) (was_open : Bool) → IsChecked s
        → IsStanding (crew s) old → Abandons (crew s) old was_open new → IsStanding (crew s) new }
    ensures sealed { (s : Settings) (old new : CrewBoard) (version : CrewVersion) → IsChecked s
        → IsStanding (crew s) old → Seals (crew s) old version new → IsStanding (crew s) new }
    ensures restored { (s : Settings) (old new : CrewBoard) (version : CrewVersion) → IsChecked s
        → IsVersion (crew s) version → version.number ≤ last_number
        → Restores (crew s) old version new → IsStanding (crew s) new }
{}

/// The counts of a round tell whether it can be sealed: as many nodes are done as there are exactly
/// where each is.
pub fn progress_tells_what_is_left()
    ensures within { (cells : List (DutyNode × Cell Entries))
        → (progress_of cells).done + (progress_of cells).out ≤ (progress_of cells).nodes }
    ensures whole { (cells : List (DutyNode × Cell Entries))
        → ((progress_of cells).done ≡ (progress_of cells).nodes)
        ↔ ((n : DutyNode) (cell : Cell Entries) → Member cells (n, cell)
        → (entries : Entries) × (cell ≡ Done entries)) }
{}
