//! What holds of all that a client is answered.

ghost use Rattle.std.specs.Prelude.{List, ℕ};
ghost use Rattle.crew_publish.specs.Chain.{Extends};
ghost use Rattle.crew_rules.specs.declared.settings.Settings.{Settings};
ghost use Rattle.crew_serve.specs.Clients.{HaveAll};
ghost use Rattle.crew_serve.specs.Conversations.{Coming, Converses, Talk};
ghost use Rattle.crew_serve.specs.declared.waiting.Waiting.{Waiting};

/// A client never goes back: whatever it sends, the version that it has seen after it is the one that
/// it saw before, or comes after that.
pub fn answers_go_on()
    ensures { (s : Settings) (name : List ℕ) (comings : List Coming) (a b : Talk) (out : List ℕ)
        → Converses s name comings a b out → Extends a.client.version b.client.version }
{}

/// What was settled stays: edits that a version has which the client has seen are at the same places of
/// each version that it sees later.
pub fn settled_edits_stay()
    ensures { (s : Settings) (name : List ℕ) (comings : List Coming) (a b : Talk) (out : List ℕ)
        (edits : List Waiting) → Converses s name comings a b out
        → HaveAll a.client.version.entries edits → HaveAll b.client.version.entries edits }
{}
