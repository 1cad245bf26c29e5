//! What holds of jobs.
ghost use Rattle.std.specs.Prelude.{◌≡◌, ◌<◌, ◌+◌, ◌*◌, ℕ, List, IsPermutation, Some, length, slice_get};
ghost use Rattle.std.specs.FinMap as fin;
ghost use Rattle.crew_dirty.specs.Dirty.{IsKept, IsNetOver, IsUntouched};
ghost use Rattle.crew_job.specs.Grounds.{Ground, IsGround, data_of, node_at, nodes_in, sealed_data_of};
ghost use Rattle.crew_job.specs.Jobs.{IsJobOf, IsOwnWork, IsPlaced, Job, job_node};
ghost use Rattle.crew_job.specs.Shown.{IsAsSealed, ShowsFrontOf};
ghost use Rattle.crew_machine.specs.Crew.{DutyNode, DutyWork, Entries, IsFrontOf, IsLocalOf, IsNodeOf, crew};
ghost use Rattle.crew_machine.specs.Worlds.{AreNodes, IsBefore};
ghost use Rattle.crew_net.specs.Nets.{Net};
ghost use Rattle.crew_pairing.specs.declared.duty.Duty.{Duty};
ghost use Rattle.crew_resource.specs.Members.{Member};
ghost use Rattle.crew_version.specs.crew_fronts.Fronts.{BaseFronts};
ghost use Rattle.crew_version.specs.crew_plan.Plans.{AreFrontsIn};

/// A job stands for one piece of work.
pub fn each_job_has_one_work()
    ensures some { (job : Job) → IsGround job.ground → IsPlaced job
        → (work : DutyWork) × IsJobOf job work }
    ensures one { (job : Job) (a b : DutyWork) → IsGround job.ground → IsJobOf job a
        → IsJobOf job b → a ≡ b }
{}

/// The nodes of a ground are those of its timetable, in node order, and the node of a base's place
/// and a rank stands at the place of both.
pub fn grounds_have_the_nodes_of_their_timetables()
    ensures nodes { (g : Ground) → IsGround g
        → AreNodes (crew g.settings) (data_of g) (nodes_in g.plan.net) }
    ensures place { (net : Net) (base rank : ℕ) → rank < length net.duties
        → slice_get (nodes_in net) (base * length net.duties + rank) ≡ node_at net base rank }
{}

/// What is local to a job's work is its node's front in each ground whose own work it is. So what
/// shows a node's front in a job's ground shows it there too.
pub fn own_results_are_right()
    ensures front { (g : Ground) (work : DutyWork) (f : Entries) → IsGround g
        → (place : ℕ) → slice_get (nodes_in g.plan.net) place ≡ Some work.node
        → IsOwnWork g work → IsLocalOf work f
        → IsFrontOf g.settings (data_of g) work.node f }
    ensures shown { (job : Job) (g : Ground) (work : DutyWork) (b : BaseFronts)
        → IsGround job.ground → IsGround g → IsJobOf job work → IsOwnWork g work
        → (place : ℕ) → slice_get (nodes_in g.plan.net) place ≡ Some work.node
        → ShowsFrontOf job.ground.settings (data_of job.ground) work.node b
        → ShowsFrontOf g.settings (data_of g) work.node b }
{}

/// A base's sweep shows the fronts of all nodes of the base.
pub fn sweeps_show_the_fronts_of_their_base()
    ensures { (g : Ground) (base rank : ℕ) (b : BaseFronts) (n : DutyNode) → IsGround g
        → AreFrontsIn g.plan base b → node_at g.plan.net base rank ≡ Some n
        → ShowsFrontOf g.settings (data_of g) n b }
{}

/// A node stands in a round as it stood in the version before it where no edit reaches it; where it
/// isn't touched, and each node just before it stands so; and where one list of entries is its front
/// in both.
pub fn nodes_stand_as_they_stood()
    ensures kept { (g : Ground) (old : Net) (code : List ℕ) (d : Duty) → IsGround g
        → old.settings ≡ g.settings → IsNetOver (sealed_data_of g) old
        → Member g.plan.net.duties d
        → IsKept (sealed_data_of g) (data_of g) old g.plan.net (record { base = code; key = d.key })
        → IsAsSealed g (record { base = code; duty = d }) }
    ensures untouched { (g : Ground) (old : Net) (code : List ℕ) (d : Duty) → IsGround g
        → old.settings ≡ g.settings → IsNetOver (sealed_data_of g) old
        → Member g.plan.net.bases code → Member g.plan.net.duties d
        → IsUntouched old g.plan.net (fin.get (sealed_data_of g).bases code)
        (fin.get (data_of g).bases code) code d
        → ((p : DutyNode) → IsBefore (crew g.settings) (data_of g) p
        (record { base = code; duty = d }) → IsAsSealed g p)
        → IsAsSealed g (record { base = code; duty = d }) }
    ensures same { (g : Ground) (n : DutyNode) (f : Entries) → IsGround g
        → IsNodeOf g.settings (sealed_data_of g) n → IsFrontOf g.settings (sealed_data_of g) n f
        → IsFrontOf g.settings (data_of g) n f → IsAsSealed g n }
{}
