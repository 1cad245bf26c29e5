//! A walk: its duties, and the first rule that they break together.

ghost use Rattle.std.specs.Prelude.{◌≡◌, ◌≤◌, ◌∷◌, [], IfOk, Ok, Err, length};
ghost use Rattle.std.specs.Result.{result_map_both};
ghost use Rattle.crew_rules.specs.Settings.{IsChecked};
ghost use Rattle.crew_resource.specs.Members.{Each};
ghost use Rattle.crew_pairing.specs.Pairings.{last_duty};
ghost use Rattle.crew_explain.specs.Machinery.Ranges.{IsInRange};
ghost use Rattle.crew_explain.specs.Rules.{between, first_of, rests, returning, same, totals, walk_rules};
ghost use Rattle.crew_explain.specs.Rules as Spec;
ghost use Rattle.crew_explain.specs.declared.breach.Rule.TheVariants as The;

use crate::breach::{Breach, Rule, at_least, at_most, earliest, first_broken};
use crate::duty::read_duty;
use crate::explained::Limits;
use crate::limits::{free_times_breach, windows_breach};
use crate::sums::{add_up, minutes_away};
use crew_flights::{Code, Timetable};
use crew_pairing::{Duty, Key};
use crew_rules::Settings;
use std::alloc::{AllocError, Global};

/// The least rest between two duties, in minutes: 14 CFR 117.25(e).
const LEAST_REST: i64 = 600;

/// The duties of a walk, and what each may have.
#[derive(Drop)]
pub(crate) struct Read {
    pub(crate) duties: Vec<Duty>,
    pub(crate) limits: Vec<Limits>,
}

/// The duties of a walk, or the first rule that one of them breaks by itself.
pub(crate) fn read_walk(
    alloc: Global,
    settings: &Settings,
    timetable: &Timetable,
    walk: &[Key],
) -> Result<Result<Read, Breach>, AllocError>
    requires { IsChecked settings.now }
    ensures value { IfOk result (λ read. result_map_both
        (λ r. (r.duties.items, r.limits.items)) (λ b. b) read
        ≡ Spec.read_walk settings.now timetable.now walk.now) }
    ensures ranges { IfOk result (λ read. IfOk read (λ r. Each IsInRange r.duties.items)) }
    ensures few { IfOk result (λ read. IfOk read (λ r. length r.duties.items ≡ length walk.now)) }
{
    let mut duties = Vec::with_capacity(alloc, walk.len())?;
    let mut limits = Vec::with_capacity(alloc, walk.len())?;
    for key in walk {
        match read_duty(settings, timetable, duties.len() + 1, key.legs()) {
            Ok((duty, own)) => {
                duties.push(duty)?;
                limits.push(own)?;
            }
            Err(breach) => return Ok(Err(breach)),
        }
    }
    Ok(Ok(Read { duties, limits }))
}

// What a duty and the next break first.
fn between_breach(settings: &Settings, duty: usize, before: &Duty, next: &Duty) -> Option<Breach>
    requires checked { IsChecked settings.now }
    requires before { IsInRange before.now }
    requires next { IsInRange next.now }
    ensures { result ≡ first_of (between settings.now duty before.now next.now) }
{
    let rest = i64::from(next.report) - i64::from(before.release);
    let most = i64::from(settings.max_rest);
    first_broken(&[
        (
            before.to == next.from,
            Breach::of(Rule::RestAirport, duty, 0),
        ),
        at_least(Rule::Rest, duty, 0, rest, LEAST_REST),
        at_most(Rule::MaxRest, duty, 0, rest, most),
    ])
}

// What neighbouring duties break first.
fn rests_breach(settings: &Settings, first: &Duty, others: &[Duty]) -> Option<Breach>
    requires checked { IsChecked settings.now }
    requires few { length others.now ≤ 13 }
    requires ranges { Each IsInRange (first.now ∷ others.now) }
    ensures { result ≡ first_of (rests settings.now 2 first.now others.now) }
{
    let mut last = first;
    let mut place = 2;
    for next in others {
        if let Some(breach) = between_breach(settings, place, last, next) {
            return Some(breach);
        }
        last = next;
        place += 1;
    }
    None
}

// Which cap on totals these duties pass first.
fn totals_breach(settings: &Settings, duties: &[Duty]) -> Option<Breach>
    requires checked { IsChecked settings.now }
    requires few { length duties.now ≤ 13 }
    requires ranges { Each IsInRange duties.now }
    ensures { result ≡ first_of (totals settings.now duties.now) }
{
    let sums = add_up(duties);
    let away = minutes_away(duties);
    let count = duties.len() as i64;
    first_broken(&[
        at_most(
            Rule::FdpTotal,
            0,
            0,
            sums.fdp,
            i64::from(settings.fdp_total),
        ),
        at_most(Rule::FlyCap, 0, 0, sums.fly, i64::from(settings.fly_cap)),
        at_most(Rule::MaxDuties, 0, 0, count, i64::from(settings.max_duties)),
        at_most(Rule::AwayCap, 0, 0, away, i64::from(settings.away_cap)),
    ])
}

// Where the last duty arrives.
fn arrives_at(first: &Duty, others: &[Duty]) -> Code
    ensures { result ≡ (last_duty first.now others.now).to }
{
    match others.last() {
        Some(last) => last.to,
        None => first.to,
    }
}

// That the first duty leaves the base.
fn leaves_breach(base: Code, first: &Duty) -> Option<Breach>
    ensures { result ≡ first_of (same The.Leaves 1 0 first.now.from base ∷ []) }
{
    first_broken(&[(first.from == base, Breach::of(Rule::Leaves, 1, 0))])
}

// That the last duty returns to the base.
fn returns_breach(base: Code, first: &Duty, others: &[Duty]) -> Option<Breach>
    requires { length others.now ≤ 13 }
    ensures { result ≡ first_of (returning base first.now others.now ∷ []) }
{
    let back = arrives_at(first, others) == base;
    first_broken(&[(back, Breach::of(Rule::Returns, others.len() + 1, 0))])
}

// What a first duty and others, which are these duties, break first.
fn chain_breach(
    settings: &Settings,
    base: Code,
    first: &Duty,
    others: &[Duty],
    all: &[Duty],
) -> Option<Breach>
    requires checked { IsChecked settings.now }
    requires few { length all.now ≤ 13 }
    requires ranges { Each IsInRange all.now }
    requires split { all.now ≡ first.now ∷ others.now }
    ensures { result ≡ first_of (walk_rules settings.now base all.now) }
{
    earliest(&[
        leaves_breach(base, first),
        rests_breach(settings, first, others),
        totals_breach(settings, all),
        windows_breach(settings, all),
        free_times_breach(first, others),
        returns_breach(base, first, others),
    ])
}

/// What the duties of a walk break first together.
pub(crate) fn walk_breach(settings: &Settings, base: Code, duties: &[Duty]) -> Option<Breach>
    requires checked { IsChecked settings.now }
    requires few { length duties.now ≤ 13 }
    requires ranges { Each IsInRange duties.now }
    ensures { result ≡ first_of (walk_rules settings.now base duties.now) }
{
    match duties.split_first() {
        Some((first, others)) => chain_breach(settings, base, first, others, duties),
        None => Some(Breach::of(Rule::Leaves, 1, 0)),
    }
}
