//! Whether the same duties may stand just before one in two networks.
ghost use Rattle.std.specs.Prelude.{◌≡◌, ◌↔◌, IsTrue, MatchOption, Some, slice_get, true};
ghost use Rattle.crew_job.specs.Machinery.Compared.{HaveSameBefore};
ghost use Rattle.crew_pairing.specs.Pairings.{may_stand_after};
ghost use Rattle.crew_pairing.specs.declared.duty.Duty.{Duty as DutySpec};
ghost use Rattle.crew_resource.specs.Members.{Member};

use crew_dirty::crew_step::is_same_duty;
use crew_net::Net;
use crew_pairing::Duty;
use crew_rules::Settings;

/// Whether a duty may stand just after another, under some settings: it leaves from the station
/// where the other ends, after 600 minutes of rest at least and `max_rest` at most.
pub fn may_follow(settings: &Settings, before: &Duty, next: &Duty) -> bool
    ensures { result ≡ may_stand_after settings.now before.now next.now }
{
    let rest = i64::from(next.report) - i64::from(before.release);
    before.to == next.from && 600 <= rest && rest <= i64::from(settings.max_rest)
}

/// The rank of a duty with all its facts, where a network has it.
pub(crate) fn duty_rank(net: &Net, duty: &Duty) -> Option<usize>
    ensures { MatchOption result (Member net.now.duties duty.now → ⊥)
        (λ rank. slice_get net.now.duties rank ≡ Some duty.now) }
{
    let _count = net.duty_count();
    let rank = net.rank_of_key(&duty.key)?;
    if is_same_duty(net.duty(rank), duty) {
        Some(rank)
    } else {
        None
    }
}

// Whether a network has a duty with all its facts.
fn has_duty(net: &Net, duty: &Duty) -> bool
    ensures { IsTrue result ↔ Member net.now.duties duty.now }
{
    duty_rank(net, duty).is_some()
}

// Whether a duty, if it may stand just before one, is in a network.
fn is_there_if_before(settings: &Settings, net: &Net, before: &Duty, duty: &Duty) -> bool
    ensures { IsTrue result ↔ (may_stand_after settings.now before.now duty.now ≡ true
        → Member net.now.duties before.now) }
{
    !may_follow(settings, before, duty) || has_duty(net, before)
}

// Whether each duty of a network that may stand just before one is in another network.
fn are_all_before_in(settings: &Settings, net: &Net, other: &Net, duty: &Duty) -> bool
    ensures { IsTrue result ↔ ((e : DutySpec) → may_stand_after settings.now e duty.now ≡ true
        → Member net.now.duties e → Member other.now.duties e) }
{
    for rank in 0..net.duty_count() {
        let before = net.duty(rank);
        if !is_there_if_before(settings, other, before, duty) {
            return false;
        }
    }
    true
}

/// Whether the same duties, with all their facts, may stand just before one in two networks. It takes
/// no memory.
pub(crate) fn have_same_before(settings: &Settings, one: &Net, other: &Net, duty: &Duty) -> bool
    ensures { IsTrue result ↔ HaveSameBefore settings.now one.now other.now duty.now }
{
    are_all_before_in(settings, one, other, duty) && are_all_before_in(settings, other, one, duty)
}
