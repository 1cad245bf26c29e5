//! Which duties are the same.
ghost use Rattle.std.specs.Prelude.{◌≡◌, ◌<◌, ◌↔◌, ◌⊎◌, ℕ, IfOk, Some, false, get_or, length, slice_get, true};
ghost use Rattle.crew_carry.specs.Twins.{AreTwins, HasAllTwins};
ghost use Rattle.crew_dirty.specs.Carried.{AreFlags};
ghost use Rattle.crew_dirty.specs.Dirty.{IsSameDuty};
ghost use Rattle.crew_pairing.specs.declared.duty.Duty.{Duty};
ghost use Rattle.crew_resource.specs.Members.{Member};

use crate::flags::put_flags;
use crate::windows::waits_alike;
use crew_carry::Twins;
use crew_carry::crew_step::is_same_duty;
use crew_net::Net;
use crew_pairing::Duties;
use std::alloc::{AllocError, Global};

// Whether the old duty of a rank is the new one of another, with all its facts.
fn is_same_at(olds: &Duties, old: usize, news: &Duties, new: usize) -> bool
    requires old { old < length olds.now }
    requires new { new < length news.now }
    ensures { (result ≡ true) ↔ (slice_get olds.now old ≡ slice_get news.now new) }
{
    is_same_duty(olds.at(old), news.at(new))
}

// The flags of the new duties that the old network has with all their facts.
fn held_duties(
    alloc: Global,
    olds: &Duties,
    news: &Duties,
    ranks: &[Option<u32>],
) -> Result<Vec<bool>, AllocError>
    requires long { length ranks.now ≡ length olds.now }
    requires within { (r k : ℕ) → slice_get ranks.now r ≡ Some (Some k) → k < length news.now }
    requires all { (r k : ℕ) (d e : Duty) → slice_get olds.now r ≡ Some d
        → slice_get news.now k ≡ Some e → d.key ≡ e.key → slice_get ranks.now r ≡ Some (Some k) }
    ensures long { IfOk result (λ flags. length flags.items ≡ length news.now) }
    ensures flags { IfOk result (λ flags. AreFlags (Member olds.now) news.now flags.items) }
{
    let mut flags = vec![in alloc; false; news.len()]?;
    for old in 0..ranks.len() {
        note(&mut flags, olds, old, news, ranks[old]);
    }
    Ok(flags)
}

// Flags the new duty of a rank, if it is the old one of another.
fn note(flags: &mut [bool], olds: &Duties, old: usize, news: &Duties, new: Option<u32>)
    requires old { old < length olds.now }
    requires new { (k : ℕ) → new ≡ Some k → k < length news.now }
    requires long { length flags.old ≡ length news.now }
    ensures long { length flags.new ≡ length flags.old }
    ensures kept { (k : ℕ) → get_or flags.old k false ≡ true → get_or flags.new k false ≡ true }
    ensures there { (k : ℕ) → new ≡ Some k → slice_get olds.now old ≡ slice_get news.now k
        → get_or flags.new k false ≡ true }
    ensures from { (k : ℕ) → get_or flags.new k false ≡ true
        → (get_or flags.old k false ≡ true) ⊎ (slice_get olds.now old ≡ slice_get news.now k) }
{
    let Some(new) = new else {
        return;
    };
    let new = new as usize;
    let same = is_same_at(olds, old, news, new);
    flags[new] = flags[new] | same;
}

/// The flags of the duties that the old network has with all their facts, and before which exactly
/// the same duties may stand.
pub(crate) fn same_duties(
    alloc: Global,
    old: &Net,
    new: &Net,
    twins: &Twins,
) -> Result<Vec<bool>, AllocError>
    requires settings { old.now.settings ≡ new.now.settings }
    requires twins { AreTwins old.now new.now twins.now }
    requires all { HasAllTwins old.now new.now twins.now }
    ensures long { IfOk result (λ flags. length flags.items ≡ length new.now.duties) }
    ensures flags { IfOk result (λ flags.
        AreFlags (IsSameDuty old.now new.now) new.now.duties flags.items) }
{
    let _olds = old.departures();
    let news = new.duties();
    let held = held_duties(alloc, old.duties(), news, twins.ranks())?;
    let mut same = vec![in alloc; false; news.len()]?;
    for departure in 0..new.departures().len() {
        let alike = waits_alike(old, new, twins, departure);
        put_flags(&mut same, new.leaving(departure), alike, &held);
    }
    Ok(same)
}
