//! Resources that tell how their pools are put together.
ghost use Rattle.std.specs.Prelude.{◌≡◌, Bool, true, false};
ghost use Rattle.crew_pass.specs.Machinery.Plain.{never};
ghost use Rattle.crew_pass.specs.Plain.{IsPlain};

use crew_answers::LongResource;
use crew_forgetful::Lapses;
use crew_pairing::Duty;
use crew_room::Glanced;

/// A resource that tells whether it is plain: its stages shift values, and nothing of a value is ever
/// forgotten.
///
/// Labels of a plain resource wait as they arrived, and what boards a duty is its front as it
/// stands. So a pool is put together in a room of what is there already. Of any other resource labels
/// are made anew where they wait, and fronts are made before arrivals are.
///
/// An implementation proves the law, `plainly`.
pub trait Pooled: Lapses<Duty> + Glanced {
    /// The resource is plain.
    ghost plain: { Self → Bool };

    /// Whether the resource is plain.
    fn is_plain(&self) -> bool
        ensures { result ≡ plain self.now };

    ghost plainly: { (r : Self) → plain r ≡ true → IsPlain Self.below Self.same_sums
        (Self.waited r) (Self.lapses r) (Self.is_shift r) };
}

impl Pooled for LongResource {
    ghost plain = { λ _. false };

    ghost plainly = { λ _ h. never h };

    /// It isn't: the past of a pairing is forgotten, day by day.
    #[inline]
    fn is_plain(&self) -> bool {
        false
    }
}
