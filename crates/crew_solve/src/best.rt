//! The least pairings of all that comes home.
//!
//! One pass over the labels that come home serves the best and the cheapest: it keeps the least so
//! far, up to a limit, and a walk is made only where its cost is at most the greatest of a full
//! list. A pairing costs at least its duty pay less prices, so where the least duty pay of a
//! departure's labels, with a duty's pay and price, is more than that, the labels that board the
//! duty are not gone over.
ghost use Rattle.std.specs.Prelude.{◌≡◌, ◌⊎◌, ◌<◌, ◌≤◌, ◌≤ℤ◌, ◌∷◌, ℕ, IfOk, None, OnOk, Some, [], false, get_or, length, map, slice_get, true};
ghost use Rattle.std.specs.Arc.{arc_value};
ghost use Rattle.std.specs.List.{flat_map};
ghost use Rattle.crew_pairing.specs.Events.{IsSound, departure_of};
ghost use Rattle.crew_pairing.specs.declared.duty.Duty.{Duty};
ghost use Rattle.crew_pool.specs.Counted.{AreWhole};
ghost use Rattle.crew_pool.specs.LabelWalks.{walk_of_label};
ghost use Rattle.crew_resource.specs.Machinery.Sum.{LiesWithin};
ghost use Rattle.crew_resource.specs.Members.{Each, Member};
ghost use Rattle.crew_solve.specs.Machinery.Floors as Floors;
ghost use Rattle.crew_solve.specs.Machinery.Floors.{AreMarks, CostFrom, IsFloor, may_begin};
ghost use Rattle.crew_solve.specs.Machinery.Homes as Spec;
ghost use Rattle.crew_solve.specs.Machinery.Keeps.{keep, keep_all};
ghost use Rattle.crew_solve.specs.Machinery.Keyed.{AreReadable};
ghost use Rattle.crew_solve.specs.Machinery.Homes.{HasPay, IsFit, IsShowable};
ghost use Rattle.crew_net.specs.Positions.{in_order};
ghost use Rattle.crew_vector.specs.declared.priced.PricedPairing.{PricedPairing as Pairing};

use crate::base_fronts::BaseFronts;
use crate::cheapest_so_far::CheapestSoFar;
use crate::floors::keep_of_bases;
use crate::walk_view::WalkView;
use crew_anchor::AnchoredVector;
use crew_flights::Code;
use crew_pairing::{Duty, PairingVector, Walk};
use crew_pool::{LabelWalk, View};
use crew_sweep::Sweep;
use crew_vector::PricedPairing;
use std::alloc::{AllocError, Global};
use std::sync::Arc;

// The pairing of a vector and a walk that come home to a base.
fn priced(trip_rig: u32, base: Code, vector: &PairingVector, walk: Walk) -> PricedPairing
    requires { HasPay trip_rig vector.now }
    ensures { result ≡ Spec.priced trip_rig base vector.now walk }
{
    let cost = vector.reduced_cost();
    let prices = i64::from(trip_rig) * vector.away - vector.trip_rig;
    PricedPairing {
        base,
        walk,
        cost,
        pay: cost + prices,
        away: vector.away,
    }
}

/// A label's walk by key.
pub(crate) fn walk_of(alloc: Global, sweep: &Sweep, label: LabelWalk) -> Result<Walk, AllocError>
    requires there { label.walk < length sweep.now.walks }
    requires ranked { Each (λ rank. rank < length sweep.now.net.duties)
        (walk_of_label sweep.now.walks label) }
    ensures { IfOk result (λ walk. walk ≡ Spec.walk_by_key sweep.now label) }
{
    let ranks = sweep.walks().ranks(alloc, label)?;
    let mut keys = Vec::with_capacity(alloc, ranks.len())?;
    for &rank in &ranks {
        keys.push(sweep.net().duty(rank as usize).key.copy())?;
    }
    Ok(Walk::new(keys))
}

// The pairing of a label whose vector is shown.
fn pairing_of(
    alloc: Global,
    sweep: &Sweep,
    trip_rig: u32,
    vector: &PairingVector,
    label: LabelWalk,
) -> Result<PricedPairing, AllocError>
    requires pay { HasPay trip_rig vector.now }
    requires there { label.walk < length sweep.now.walks }
    requires ranked { Each (λ rank. rank < length sweep.now.net.duties)
        (walk_of_label sweep.now.walks label) }
    ensures { IfOk result (λ pairing. pairing ≡ Spec.priced trip_rig sweep.now.base vector.now
        (Spec.walk_by_key sweep.now label)) }
{
    let walk = walk_of(alloc, sweep, label)?;
    Ok(priced(trip_rig, sweep.base(), vector, walk))
}

// What pairings cost at least that are asked for: those so far, and one of a cost and a walk.
fn floor_with(kept: &CheapestSoFar, cost: i64, walk: &WalkView<'_>, floor: i64) -> i64
    ensures less { result ≤ℤ floor }
    ensures floor { (p : Pairing) → p.cost ≡ cost → p.walk ≡ walk.now
        → CostFrom kept.now.beside result (p ∷ []) }
{
    if floor <= cost {
        return floor;
    }
    if !kept.may_pass(cost, walk) {
        return floor;
    }
    cost
}

// Whether a walk is marked.
fn is_marked(marks: &[bool], walk: u32) -> bool
    ensures { result ≡ get_or marks.now walk false }
{
    marks.get(walk as usize).copied().unwrap_or(false)
}

// Keeps a label's pairing, whose walk is made only where it may be among the least, and which is
// passed over where it begins with a walk that is marked. Gives what it and those so far cost at least
// of which that is asked for.
fn keep_of_label(
    alloc: Global,
    sweep: &Sweep,
    trip_rig: u32,
    minute: i64,
    marks: &[bool],
    kept: &mut CheapestSoFar,
    label: &(AnchoredVector, LabelWalk),
    floor: i64,
) -> Result<i64, AllocError>
    requires rate { trip_rig ≡ sweep.now.net.settings.trip_rig }
    requires minute { LiesWithin 2_147_483_648 minute }
    requires showable { IsShowable sweep.now minute label.now.0 }
    requires there { label.now.1.walk < length sweep.now.walks }
    requires ranked { Each (λ rank. rank < length sweep.now.net.duties)
        (walk_of_label sweep.now.walks label.now.1) }
    requires marks { AreMarks kept.old.beside sweep.now marks.now }
    ensures kept { OnOk result
        (kept.new ≡ keep kept.old (Spec.pairing_at sweep.now minute label.now)) }
    ensures less { IfOk result (λ next. next ≤ℤ floor) }
    ensures floor { IfOk result (λ next. CostFrom kept.old.beside next
        (Spec.pairing_at sweep.now minute label.now ∷ [])) }
{
    if is_marked(marks, label.1.walk) {
        return Ok(floor);
    }
    let vector = sweep.resource().show(&label.0, minute);
    let cost = vector.reduced_cost();
    let walk = WalkView::new(sweep, label.1);
    if !kept.wants(cost) {
        return Ok(floor_with(kept, cost, &walk, floor));
    }
    if !kept.may_pass(cost, &walk) {
        return Ok(floor);
    }
    let pairing = pairing_of(alloc, sweep, trip_rig, &vector, label.1)?;
    kept.keep(alloc, pairing)?;
    Ok(floor.min(cost))
}

// Keeps the least of the pairings of the labels that board a duty.
fn keep_of_labels(
    alloc: Global,
    sweep: &Sweep,
    trip_rig: u32,
    index: usize,
    rank: u32,
    duty: &Duty,
    minute: i64,
    marks: &[bool],
    kept: &mut CheapestSoFar,
) -> Result<i64, AllocError>
    requires rate { trip_rig ≡ sweep.now.net.settings.trip_rig }
    requires index { index < length sweep.now.net.by_report }
    requires duty { slice_get sweep.now.net.duties rank ≡ Some duty.now }
    requires own { slice_get (in_order sweep.now.net) index ≡ Some (departure_of duty.now) }
    requires minute { minute ≡ duty.now.release }
    requires within { LiesWithin 2_147_483_648 minute }
    requires sound { IsSound duty.now }
    requires fit { IsFit sweep.now }
    requires marks { AreMarks kept.old.beside sweep.now marks.now }
    ensures kept { OnOk result
        (kept.new ≡ keep_all kept.old (Spec.ended_by sweep.now index duty.now)) }
    ensures floor { IfOk result (λ floor.
        CostFrom kept.old.beside floor (Spec.ended_by sweep.now index duty.now)) }
{
    let view = View::new(sweep.resource(), sweep.pool(index), duty, rank);
    let mut floor = i64::MAX;
    for label in view.iter() {
        floor = keep_of_label(alloc, sweep, trip_rig, minute, marks, kept, &label, floor)?;
    }
    Ok(floor)
}

// What the pairings that a duty ends cost at least.
fn least_by(duty: &Duty, floor: i64) -> i64
    requires { IsSound duty.now }
    ensures { result ≡ Floors.least_by duty.now floor }
{
    floor.saturating_add(i64::from(duty.pay) - duty.price)
}

// Keeps the least of the pairings that a duty ends, and makes none where the duty's cost too much. A
// duty that ends none that is asked for has no floor, and so brings nobody back to its departure.
fn keep_of_duty(
    alloc: Global,
    sweep: &Sweep,
    trip_rig: u32,
    index: usize,
    rank: u32,
    duty: &Duty,
    floor: i64,
    marks: &[bool],
    kept: &mut CheapestSoFar,
) -> Result<i64, AllocError>
    requires rate { trip_rig ≡ sweep.now.net.settings.trip_rig }
    requires index { index < length sweep.now.net.by_report }
    requires duty { slice_get sweep.now.net.duties rank ≡ Some duty.now }
    requires own { slice_get (in_order sweep.now.net) index ≡ Some (departure_of duty.now) }
    requires sound { IsSound duty.now }
    requires floor { IsFloor kept.old.beside sweep.now floor (get_or sweep.now.pools index []) }
    requires fit { IsFit sweep.now }
    requires marks { AreMarks kept.old.beside sweep.now marks.now }
    ensures kept { OnOk result
        (kept.new ≡ keep_all kept.old (Spec.ended_by sweep.now index duty.now)) }
    ensures floor { IfOk result (λ floor.
        CostFrom kept.old.beside floor (Spec.ended_by sweep.now index duty.now)) }
{
    if !kept.may_end(&duty.key) {
        return Ok(i64::MAX);
    }
    let minute = i64::from(duty.release);
    let least = least_by(duty, floor);
    if !kept.wants(least) {
        return Ok(least);
    }
    keep_of_labels(
        alloc, sweep, trip_rig, index, rank, duty, minute, marks, kept,
    )
}

// Keeps the least of what comes home by the duty of a rank.
fn keep_of_rank(
    alloc: Global,
    sweep: &Sweep,
    trip_rig: u32,
    index: usize,
    rank: u32,
    floor: i64,
    marks: &[bool],
    kept: &mut CheapestSoFar,
) -> Result<i64, AllocError>
    requires rate { trip_rig ≡ sweep.now.net.settings.trip_rig }
    requires index { index < length sweep.now.net.by_report }
    requires rank { rank < length sweep.now.net.duties }
    requires own { (d : Duty) → slice_get sweep.now.net.duties rank ≡ Some d
        → slice_get (in_order sweep.now.net) index ≡ Some (departure_of d) }
    requires floor { IsFloor kept.old.beside sweep.now floor (get_or sweep.now.pools index []) }
    requires fit { IsFit sweep.now }
    requires marks { AreMarks kept.old.beside sweep.now marks.now }
    ensures kept { OnOk result
        (kept.new ≡ keep_all kept.old (Spec.home_at sweep.now index rank)) }
    ensures floor { IfOk result (λ floor.
        CostFrom kept.old.beside floor (Spec.home_at sweep.now index rank)) }
{
    let duty = sweep.net().duty(rank as usize);
    if duty.to != sweep.base() {
        return Ok(i64::MAX);
    }
    keep_of_duty(
        alloc, sweep, trip_rig, index, rank, duty, floor, marks, kept,
    )
}

// Marks a walk, where there is a mark for it.
fn mark(marks: &mut [bool], walk: u32)
    ensures { (place : ℕ) → get_or marks.new place false ≡ true
        → (walk ≡ place) ⊎ (get_or marks.old place false ≡ true) }
{
    let place = walk as usize;
    if place >= marks.len() {
        return;
    }
    marks[place] = true;
}

// Whether pairings that begin with a label's walk may be asked for. A walk that begins none is marked:
// what may be asked for gets less, so nobody goes over its flights again, at this departure or another.
fn may_begin_with(sweep: &Sweep, kept: &CheapestSoFar, label: LabelWalk, marks: &mut [bool]) -> bool
    requires there { label.walk < length sweep.now.walks }
    requires ranked { Each (λ rank. rank < length sweep.now.net.duties)
        (walk_of_label sweep.now.walks label) }
    requires whole { label.duty ≡ 4_294_967_295 }
    requires marks { AreMarks kept.now.beside sweep.now marks.old }
    ensures may { result ≡ may_begin kept.now.beside (Spec.walk_by_key sweep.now label) }
    ensures marks { AreMarks kept.now.beside sweep.now marks.new }
{
    if is_marked(marks, label.walk) {
        return false;
    }
    if kept.may_begin(&WalkView::new(sweep, label)) {
        return true;
    }
    mark(marks, label.walk);
    false
}

// The lesser of a floor and a label's duty pay, if its walk may begin pairings that are asked for.
fn floor_below(
    sweep: &Sweep,
    kept: &CheapestSoFar,
    duty_pay: i64,
    label: LabelWalk,
    floor: i64,
    marks: &mut [bool],
) -> i64
    requires there { label.walk < length sweep.now.walks }
    requires ranked { Each (λ rank. rank < length sweep.now.net.duties)
        (walk_of_label sweep.now.walks label) }
    requires whole { label.duty ≡ 4_294_967_295 }
    requires marks { AreMarks kept.now.beside sweep.now marks.old }
    ensures less { result ≤ℤ floor }
    ensures low { may_begin kept.now.beside (Spec.walk_by_key sweep.now label) ≡ true
        → result ≤ℤ duty_pay }
    ensures marks { AreMarks kept.now.beside sweep.now marks.new }
{
    if floor <= duty_pay {
        return floor;
    }
    if !may_begin_with(sweep, kept, label, marks) {
        return floor;
    }
    duty_pay
}

// The least duty pay of a departure's labels whose walks may begin pairings that are asked for.
fn floor_of(
    sweep: &Sweep,
    kept: &CheapestSoFar,
    labels: &[(AnchoredVector, LabelWalk)],
    marks: &mut [bool],
) -> i64
    requires readable { AreReadable sweep.now labels.now }
    requires whole { AreWhole labels.now }
    requires marks { AreMarks kept.now.beside sweep.now marks.old }
    ensures floor { IsFloor kept.now.beside sweep.now result labels.now }
    ensures marks { AreMarks kept.now.beside sweep.now marks.new }
{
    let mut floor = i64::MAX;
    for label in labels {
        floor = floor_below(sweep, kept, label.0.duty_pay(), label.1, floor, marks);
    }
    floor
}

// Whether one of the duties of these ranks ends at the base, and may end a pairing that is asked for.
// Where none does no label of theirs needs to be looked at.
fn comes_home(sweep: &Sweep, kept: &CheapestSoFar, ranks: &[u32]) -> bool {
    let net = sweep.net();
    for &rank in ranks {
        if (rank as usize) < net.duty_count() {
            let duty = net.duty(rank as usize);
            if duty.to == sweep.base() && kept.may_end(&duty.key) {
                return true;
            }
        }
    }
    false
}

// A floor of a departure's labels, where one of its duties comes home. Where all pairings are asked for
// the sweep knows it, and no label is looked at.
fn floor_at(
    sweep: &Sweep,
    kept: &CheapestSoFar,
    index: usize,
    ranks: &[u32],
    marks: &mut [bool],
) -> i64
    requires index { index < length sweep.now.net.by_report }
    requires marks { AreMarks kept.now.beside sweep.now marks.old }
    ensures floor { IsFloor kept.now.beside sweep.now result (get_or sweep.now.pools index []) }
    ensures marks { AreMarks kept.now.beside sweep.now marks.new }
{
    let pool = sweep.pool(index);
    if !comes_home(sweep, kept, ranks) {
        return i64::MIN;
    }
    if kept.asks_for_all() {
        return sweep.duty_pay_floor(index);
    }
    floor_of(sweep, kept, pool.as_slice(), marks)
}

// Keeps the least of what comes home by the duties of a departure.
pub(crate) fn keep_of_departure(
    alloc: Global,
    sweep: &Sweep,
    trip_rig: u32,
    index: usize,
    marks: &mut [bool],
    kept: &mut CheapestSoFar,
) -> Result<i64, AllocError>
    requires rate { trip_rig ≡ sweep.now.net.settings.trip_rig }
    requires index { index < length sweep.now.net.by_report }
    requires fit { IsFit sweep.now }
    requires marks { AreMarks kept.old.beside sweep.now marks.old }
    ensures kept { OnOk result (kept.new ≡ keep_all kept.old (Spec.home_from sweep.now index)) }
    ensures floor { IfOk result (λ floor.
        CostFrom kept.old.beside floor (Spec.home_from sweep.now index)) }
    ensures marks { AreMarks kept.old.beside sweep.now marks.new }
{
    let place = sweep.net().by_report()[index] as usize;
    let ranks = sweep.net().leaving(place);
    let floor = floor_at(sweep, kept, index, ranks, marks);
    let mut least = i64::MAX;
    for &rank in ranks {
        let cost = keep_of_rank(alloc, sweep, trip_rig, index, rank, floor, marks, kept)?;
        least = least.min(cost);
    }
    Ok(least)
}

/// The least of all that comes home to its base.
pub(crate) fn best_of(
    alloc: Global,
    fronts: &[Arc<BaseFronts, Global>],
    trip_rig: u32,
) -> Result<Option<PricedPairing>, AllocError>
    requires { Each (λ b. trip_rig ≡ b.net.settings.trip_rig) (map arc_value fronts.now) }
    ensures { IfOk result (λ best. best
        ≡ Spec.least_of None (flat_map Spec.home_of (map arc_value fronts.now))) }
{
    let mut kept = CheapestSoFar::new(alloc, 1);
    keep_of_bases(alloc, fronts, trip_rig, &mut kept)?;
    Ok(kept.into_first())
}
