//! The slides of airports as lanes, which threads share out among them: each goes on to the windows of
//! the departures that come next at its airport, while others make the pools of arrivals on which
//! later departures wait.
//!
//! A slide changes as it goes on, so it is handed to a thread as a value and comes back with what
//! stands in the windows of its airport's next departures. Groups of lanes are about as heavy as
//! one another, by the labels of the last window times the windows to come, the heaviest first: a
//! base's own airport has about half of all departures. What is merged tells the place of its
//! departure, which is compared; so nothing is proved of the order in which lanes come back.
ghost use Rattle.std.specs.Prelude.{◌≡◌, ◌<◌, ◌≤◌, ◌⊎◌, ℕ, Bool, IfOk, List, OnOk, Some, Vec, [], length};
ghost use Rattle.std.specs.Global.{Global};
ghost use Rattle.crew_net.specs.Nets.{Net};
ghost use Rattle.crew_pairing.specs.declared.vector.PairingVector.{PairingVector};
ghost use Rattle.crew_pool.specs.declared.label_walk.LabelWalk.{LabelWalk};
ghost use Rattle.crew_resource.specs.Members.{Member};
ghost use Rattle.crew_sweep.specs.Machinery.Ahead.{IsSlid};
ghost use Rattle.crew_sweep.specs.Machinery.Grounds.{ArePools, IsGround};
ghost use Rattle.crew_sweep.specs.Machinery.Lanes.{AreGrouped, AreLanes, IsLane};
ghost use Rattle.crew_sweep.specs.Machinery.Slides.{AreIdle, IsOver};
ghost use Rattle.crew_sweep.specs.declared.lanes.Lane.{Lane as LaneSpec};
ghost use Rattle.crew_sweep.specs.declared.slide.Slide.{Slide as SlideSpec};
ghost use Rattle.crew_sweep.specs.declared.windows.Waiting.{Waiting as WaitingSpec};

use crate::arrivals::Arrivals;
use crate::ground::Ground;
use crate::passed::Passed;
use crate::slide::Slide;
use crate::slides::Slides;
use crate::windows::Waiting;
use crew_anchor::AnchoredResource;
use crew_pool::Workspace;
use std::alloc::{AllocError, Global};
use std::cmp::Reverse;
use std::mem;

/// The slide of an airport, by its number, the positions of the departures there to whose windows it
/// goes on, and what stands in those to which it has gone.
#[derive(Drop)]
pub(crate) struct Lane {
    number: usize,
    slide: Slide,
    positions: Vec<usize>,
    waiting: Vec<Waiting>,
}

/// Slides that have gone on to the windows of departures in a row, and what stands in each, as far as
/// that is merged.
#[derive(Drop)]
pub(crate) struct Slid {
    pub(crate) slides: Slides,
    pub(crate) ahead: Vec<Option<Waiting>>,
}

impl Lane {
    // About how long it takes to go on. No clause says so, since it is there for speed.
    fn weight(&self) -> usize {
        let labels = self.slide.pool().len().saturating_add(1);
        self.positions.len().saturating_mul(labels)
    }

    // Goes on, as far as all that stands in the windows is made.
    fn go_on(
        mut self,
        alloc: Global,
        ground: &Ground,
        passed: &Passed,
        arrivals: &Arrivals,
        room: &mut Workspace<AnchoredResource>,
    ) -> Result<Lane, AllocError>
        requires ground { IsGround ground.now }
        requires pools { ArePools ground.now passed.now arrivals.now }
        requires lane { IsLane ground.now.net.now passed.now.walks arrivals.now.made.items
            arrivals.now.pools.items self }
        ensures { IfOk result (IsLane ground.now.net.now passed.now.walks arrivals.now.made.items
            arrivals.now.pools.items) }
    {
        for index in 0..self.positions.len() {
            let position = self.positions[index];
            let Some(next) = self
                .slide
                .waiting_at(alloc, ground, passed, arrivals, room, position)?
            else {
                break;
            };
            self.waiting.push(next)?;
        }
        Ok(self)
    }
}

/// Lets lanes go on, one after another.
pub(crate) fn go_on_each(
    alloc: Global,
    ground: &Ground,
    passed: &Passed,
    arrivals: &Arrivals,
    room: &mut Workspace<AnchoredResource>,
    lanes: Vec<Lane>,
) -> Result<Vec<Lane>, AllocError>
    requires ground { IsGround ground.now }
    requires pools { ArePools ground.now passed.now arrivals.now }
    requires lanes { AreLanes ground.now.net.now passed.now.walks arrivals.now.made.items
        arrivals.now.pools.items lanes.items }
    ensures { IfOk result (λ gone. AreLanes ground.now.net.now passed.now.walks
        arrivals.now.made.items arrivals.now.pools.items gone.items) }
{
    let mut gone = Vec::with_capacity(alloc, lanes.len())?;
    for lane in lanes {
        gone.push(lane.go_on(alloc, ground, passed, arrivals, room)?)?;
    }
    Ok(gone)
}

// Slides as lanes with nothing to go on to.
fn lanes_of(alloc: Global, slides: Vec<Slide>) -> Result<Vec<Lane>, AllocError>
    ensures long { IfOk result (λ lanes. length lanes.items ≡ length slides.items) }
    ensures lanes { IfOk result (λ lanes. (lane : LaneSpec)
        → Member lanes.items lane → Member slides.items lane.slide × (lane.positions.items ≡ [])
        × (lane.waiting.items ≡ [])) }
{
    let mut lanes = Vec::with_capacity(alloc, slides.len())?;
    for slide in slides {
        lanes.push(Lane {
            number: lanes.len(),
            slide,
            positions: Vec::new(alloc),
            waiting: Vec::new(alloc),
        })?;
    }
    Ok(lanes)
}

// The sum of weights of lanes. No clause says so, since it is there for speed.
fn weight_of(lanes: &[Lane]) -> usize {
    let mut weight: usize = 0;
    for lane in lanes {
        weight = weight.saturating_add(lane.weight());
    }
    weight
}

// Gives each of the positions from one up to another to the lane of its airport.
fn give_positions(
    ground: &Ground,
    airports: &[usize],
    lanes: &mut Vec<Lane>,
    from: usize,
    end: usize,
) -> Result<(), AllocError>
    requires ground { IsGround ground.now }
    requires end { end ≤ length ground.now.net.now.by_report }
    requires airports { length airports.now ≡ length ground.now.net.now.departures }
    requires numbers { (n : ℕ) → Member airports.now n → n < length lanes.old.items }
    ensures { (walks : List (List ℕ)) (made : List Bool)
        (held : List (List (PairingVector × LabelWalk)))
        → AreLanes ground.now.net.now walks made held lanes.old.items
        → OnOk result (AreLanes ground.now.net.now walks made held lanes.new.items) }
{
    for position in from..end {
        let place = ground.net.by_report()[position] as usize;
        lanes[airports[place]].positions.push(position)?;
    }
    Ok(())
}

// Lanes in so many groups, about as heavy as one another, where no lane is heavier than that.
fn grouped(alloc: Global, mut lanes: Vec<Lane>, count: usize) -> Result<Vec<Vec<Lane>>, AllocError>
    ensures { IfOk result (λ groups. (group : Vec LaneSpec Global)
        → Member groups.items group → (lane : LaneSpec) → Member group.items lane
        → Member lanes.items lane) }
{
    let share = (weight_of(&lanes) / count.max(1)).saturating_add(1);
    lanes.sort_unstable_by_key(|lane| Reverse(lane.weight()));
    let mut groups = Vec::with_capacity(alloc, count)?;
    let mut group = Vec::new(alloc);
    let mut weight: usize = 0;
    for lane in lanes {
        weight = weight.saturating_add(lane.weight());
        group.push(lane)?;
        if weight / share > groups.len() {
            groups.push(mem::replace(&mut group, Vec::new(alloc)))?;
        }
    }
    groups.push(group)?;
    for _ in groups.len()..count {
        groups.push(Vec::new(alloc))?;
    }
    Ok(groups)
}

/// So many groups of no lanes.
pub(crate) fn empty_groups(alloc: Global, count: usize) -> Result<Vec<Vec<Lane>>, AllocError>
    ensures { IfOk result (λ groups. (group : Vec LaneSpec Global) → Member groups.items group
        → group.items ≡ []) }
{
    let mut groups = Vec::with_capacity(alloc, count)?;
    for _ in 0..count {
        groups.push(Vec::new(alloc))?;
    }
    Ok(groups)
}

/// The slides of airports, by number, as lanes in at most so many groups, for the departures at
/// positions from one up to another: `airports` has the numbers of the departures' airports.
pub(crate) fn lanes_in_groups(
    alloc: Global,
    ground: &Ground,
    airports: &[usize],
    slides: Vec<Slide>,
    from: usize,
    end: usize,
    count: usize,
) -> Result<Vec<Vec<Lane>>, AllocError>
    requires ground { IsGround ground.now }
    requires end { end ≤ length ground.now.net.now.by_report }
    requires airports { length airports.now ≡ length ground.now.net.now.departures }
    requires numbers { (n : ℕ) → Member airports.now n → n < length slides.items }
    ensures { (walks : List (List ℕ)) (made : List Bool)
        (held : List (List (PairingVector × LabelWalk)))
        → ((slide : SlideSpec) → Member slides.items slide → IsOver walks made held slide)
        → IfOk result (λ groups. AreGrouped ground.now.net.now walks made held groups.items) }
{
    let mut lanes = lanes_of(alloc, slides)?;
    give_positions(ground, airports, &mut lanes, from, end)?;
    grouped(alloc, lanes, count)
}

// Puts what is merged for a departure in its place in the row that begins at a position.
fn put_waiting(ahead: &mut Vec<Option<Waiting>>, from: usize, waiting: Waiting)
    ensures { (w : WaitingSpec) → Member ahead.new.items (Some w)
        → Member ahead.old.items (Some w) ⊎ (w ≡ waiting) }
{
    let index = waiting.position.wrapping_sub(from);
    if index < ahead.len() {
        ahead[index] = Some(waiting);
    }
}

// Puts the slide of a lane that has gone on in its place, and what is merged in the row that begins at
// a position.
fn put_lane(slides: &mut Vec<Slide>, ahead: &mut Vec<Option<Waiting>>, from: usize, lane: Lane)
    ensures long { length slides.new.items ≡ length slides.old.items }
    ensures slides { (slide : SlideSpec) → Member slides.new.items slide
        → Member slides.old.items slide ⊎ (slide ≡ lane.slide) }
    ensures ahead { (w : WaitingSpec) → Member ahead.new.items (Some w)
        → Member ahead.old.items (Some w) ⊎ Member lane.waiting.items w }
{
    let Lane {
        number,
        slide,
        positions: _,
        waiting,
    } = lane;
    for it in waiting {
        put_waiting(ahead, from, it);
    }
    if number < slides.len() {
        slides[number] = slide;
    }
}

// Slides that have merged nothing yet, so many.
fn idle_slides(alloc: Global, count: usize) -> Result<Vec<Slide>, AllocError>
    ensures long { IfOk result (λ slides. length slides.items ≡ count) }
    ensures idle { IfOk result (λ slides. AreIdle slides.items) }
{
    let mut slides = Vec::with_capacity(alloc, count)?;
    for _ in 0..count {
        slides.push(Slide::new(alloc))?;
    }
    Ok(slides)
}

// A row of so many departures, for none of which anything is merged.
fn none_ahead(alloc: Global, count: usize) -> Result<Vec<Option<Waiting>>, AllocError>
    ensures { IfOk result (λ ahead. (w : WaitingSpec) → Member ahead.items (Some w) → ⊥) }
{
    let mut ahead = Vec::with_capacity(alloc, count)?;
    for _ in 0..count {
        ahead.push(None)?;
    }
    Ok(ahead)
}

/// So many slides, with what is merged in their windows for the departures at positions from one up to
/// another, from the lanes that have gone on.
pub(crate) fn slid_from(
    alloc: Global,
    airports: Vec<usize>,
    count: usize,
    from: usize,
    end: usize,
    groups: Vec<Vec<Lane>>,
) -> Result<Slid, AllocError>
    requires numbers { (n : ℕ) → Member airports.items n → n < count }
    ensures { (net : Net) (walks : List (List ℕ)) (made : List Bool)
        (held : List (List (PairingVector × LabelWalk)))
        → length airports.items ≡ length net.departures
        → AreGrouped net walks made held groups.items
        → IfOk result (IsSlid net walks made held) }
{
    let mut slides = idle_slides(alloc, count)?;
    let mut ahead = none_ahead(alloc, end.saturating_sub(from))?;
    for lanes in groups {
        for lane in lanes {
            put_lane(&mut slides, &mut ahead, from, lane);
        }
    }
    let slides = Slides::of(alloc, airports, slides);
    Ok(Slid { slides, ahead })
}
