//! What takes a session's edits.

ghost use denote.Param.Send.{IsSync};
ghost use Rattle.std.specs.Prelude.{◌≡◌, ◌⊎◌, ◌<◌, ◌++◌, ◌∷◌, [], Bool, IsTrue, List, IfErr, OnErr, OnOk, length};
ghost use Rattle.crew_flights.specs.declared.entries.Entry.{Entry};
ghost use Rattle.crew_session.specs.Engines.{BeginsWith, IsFound, IsSettleFault, IsSubmitFault};
ghost use Rattle.crew_session.specs.Entries.{entry_of};
ghost use Rattle.crew_session.specs.Oddities.{Found, IsTold, IsWhole, Made};
ghost use Rattle.crew_version.specs.Versions.{IsRight, Snapshot};

use crate::engine_fault::EngineFault;
use crew_flights::Edit;
use crew_version::Version;
use std::thread::Threads;

/// What takes edits and keeps a version, on a runtime that starts threads.
pub trait Engine {
    // The edits that were taken, as the entries of a log with one seat, in place order.
    ghost entries: { Self → List Entry };

    // The version that it keeps.
    ghost shown: { Self → Snapshot };

    // Whether it may be strange.
    ghost MAY_BE_STRANGE: { Bool };

    // The version that it has made last, shown or not, and what its log has shown it.
    ghost made: { Self → Made };

    // What its last settle found, where it may be strange.
    ghost found: { Self → Found };

    /// Whether it may be strange: whether what it shows may come of a log that it doesn't write
    /// alone, and so may lack edits that it took, or have others.
    fn may_be_strange(&self) -> bool
        ensures { result ≡ MAY_BE_STRANGE };

    /// Takes an edit as its next entry. It is `SeatFull` exactly where 1,000,000 edits were
    /// taken, whatever the memory, and else `Memory`; the edit then comes back, and the engine is
    /// unchanged.
    fn submit(&mut self, edit: Edit) -> Result<(), (Edit, EngineFault)>
        ensures room { OnOk result (length (entries self.old) < 1_000_000) }
        ensures taken { OnOk result (entries self.new
            ≡ entries self.old ++ entry_of (length (entries self.old)) edit ∷ []) }
        ensures fault { IfErr result (λ e. (e.0 ≡ edit) × IsSubmitFault (entries self.old) e.1) }
        ensures err { OnErr result (entries self.new ≡ entries self.old) }
        ensures version { shown self.new ≡ shown self.old }
        ensures made { made self.new ≡ made self.old };

    /// Reoptimizes: the next version, of all entries so far, where they come to at most 200,000 legal
    /// duties. It is `TooManyDuties` where they come to more, `LastVersion` where the version has
    /// the greatest number, or `Memory`; the version is then unchanged. The entries stay in any
    /// case.
    ///
    /// An engine that may be strange goes by a log that others write too. It may make another
    /// version, of which only the settings and that its entries are the first of those taken are
    /// known. It may answer `TooManyDuties` and `LastVersion` of what its log has shown it and of the
    /// version that it has made last; `Gap` where that log has a hole before an entry that it took;
    /// `NoView` where it has made the next version, and that can't be seen; and `OtherLog` where it
    /// finds a version that isn't the next one of all entries so far. Each of these is told by what
    /// it had before and has after.
    fn settle<R: Threads + Sync>(&mut self, rt: &R) -> Result<(), EngineFault>
        requires { IsSync R.row }
        ensures entries { entries self.new ≡ entries self.old }
        ensures whole { OnOk result (IsWhole (shown self.old) (entries self.old) (shown self.new)
            ⊎ IsTrue MAY_BE_STRANGE) }
        ensures ok { OnOk result (BeginsWith (shown self.new).entries (entries self.new)) }
        ensures settings { (shown self.new).settings ≡ (shown self.old).settings }
        ensures right { OnOk result (IsRight (shown self.new)) }
        ensures err { OnErr result (shown self.new ≡ shown self.old) }
        ensures fault { IfErr result
            (IsSettleFault MAY_BE_STRANGE (shown self.old) (entries self.old)) }
        ensures found { IsTrue MAY_BE_STRANGE → IsFound (shown self.old) (entries self.old)
            (shown self.new) (found self.new) result }
        ensures told { IsTrue MAY_BE_STRANGE → IsTold (made self.old) (entries self.old)
            (made self.new) (found self.new) };

    /// The version that it keeps.
    fn version(&self) -> &Version
        ensures { result.now ≡ shown self.now };
}
