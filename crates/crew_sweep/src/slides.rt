//! A slide for each airport.
ghost use Rattle.std.specs.Prelude.{◌≡◌, ◌≤◌, ◌<◌, ◌⊎◌, ℕ, IfOk, List, OnOk, Some, false, length, slice_get, true};
ghost use Rattle.crew_pairing.specs.declared.vector.PairingVector.{PairingVector};
ghost use Rattle.crew_pool.specs.declared.label_walk.LabelWalk.{LabelWalk};
ghost use Rattle.crew_sweep.specs.Machinery.Parts.{AreHeld, IsPart};
ghost use Rattle.crew_sweep.specs.Machinery.Slides.{AreSliding, CoverAny};
ghost use Rattle.crew_sweep.specs.declared.slide.Slide.{Slide as SlideSpec};

use crate::slide::Slide;
use crew_anchor::AnchoredResource;
use crew_net::Window;
use crew_pairing::Departure;
use crew_pool::{Pool, Walks, Workspace};
use std::alloc::{AllocError, Global};

/// A slide for each airport from which a duty leaves, and the room in which they merge: `airports`
/// has the number of each departure's.
#[derive(Drop)]
pub(crate) struct Slides {
    airports: Vec<usize>,
    slides: Vec<Slide>,
    room: Workspace<AnchoredResource>,
}

// Whether a departure is the first of its airport.
fn is_first(departures: &[Departure], place: usize) -> bool
    requires { place < length departures.now }
    ensures { place ≡ 0 → result ≡ true }
{
    place == 0 || departures[place - 1].airport != departures[place].airport
}

impl Slides {
    /// The slides of departures, in order of airport, at no window yet.
    pub(crate) fn new(alloc: Global, departures: &[Departure]) -> Result<Slides, AllocError>
        ensures long { IfOk result (λ slides. length slides.airports.items
            ≡ length departures.now) }
        ensures sliding { IfOk result (λ slides. (walks : List (List ℕ))
            (held : List (List (PairingVector × LabelWalk))) → AreSliding walks held slides) }
        ensures nowhere { IfOk result (λ slides. (place : ℕ) → CoverAny slides place → ⊥) }
    {
        let mut airports = Vec::with_capacity(alloc, departures.len())?;
        let mut slides = Vec::new(alloc);
        for place in 0..departures.len() {
            if is_first(departures, place) {
                slides.push(Slide::new(alloc))?;
            }
            airports.push(slides.len() - 1)?;
        }
        let room = Workspace::new(alloc);
        Ok(Slides {
            airports,
            slides,
            room,
        })
    }

    /// The slides of no departures.
    pub(crate) fn none(alloc: Global) -> Slides {
        Slides {
            airports: Vec::new(alloc),
            slides: Vec::new(alloc),
            room: Workspace::new(alloc),
        }
    }

    /// Slides of which these are the numbers by departure.
    pub(crate) fn of(alloc: Global, airports: Vec<usize>, slides: Vec<Slide>) -> Slides
        ensures airports { result.airports ≡ airports }
        ensures slides { result.slides ≡ slides }
    {
        let room = Workspace::new(alloc);
        Slides {
            airports,
            slides,
            room,
        }
    }

    /// The numbers by departure, and the slides.
    pub(crate) fn apart(self) -> (Vec<usize>, Vec<Slide>)
        ensures airports { result.0 ≡ self.airports }
        ensures slides { result.1 ≡ self.slides }
    {
        let Slides {
            airports,
            slides,
            room: _,
        } = self;
        (airports, slides)
    }

    /// Slides the slide of a departure's airport to a window, and gives its number.
    pub(crate) fn slide_to(
        &mut self,
        alloc: Global,
        resource: &AnchoredResource,
        departure: usize,
        held: &[Pool<AnchoredResource>],
        window: Window,
        walks: &Walks,
    ) -> Result<usize, AllocError>
        requires held { AreHeld walks.now held.now }
        requires departure { departure < length self.old.airports.items }
        requires ordered { window.from ≤ window.end }
        requires within { window.end ≤ length held.now }
        requires sliding { AreSliding walks.now held.now self.old }
        ensures part { IfOk result (λ number. (slide : SlideSpec)
            → slice_get self.new.slides.items number ≡ Some slide
            → IsPart walks.now held.now window.from window.end slide.pool) }
        ensures number { IfOk result (λ number. number < length self.new.slides.items) }
        ensures sliding { OnOk result (AreSliding walks.now held.now self.new) }
        ensures airports { self.new.airports ≡ self.old.airports }
        ensures covers { OnOk result ((place : ℕ) → CoverAny self.new place
            → CoverAny self.old place ⊎ ((window.from ≤ place) × (place < window.end))) }
    {
        let number = self.airports[departure];
        let slide = &mut self.slides[number];
        slide.slide_to(alloc, resource, &mut self.room, held, window, walks)?;
        Ok(number)
    }

    /// Whether a slide has merged the pool of a place.
    pub(crate) fn cover(&self, place: usize) -> bool
        ensures { result ≡ false → CoverAny self.now place → ⊥ }
    {
        for slide in &self.slides {
            if slide.covers(place) {
                return true;
            }
        }
        false
    }

    /// The pool of a slide's window.
    pub(crate) fn pool(&self, number: usize) -> &Pool<AnchoredResource>
        requires { number < length self.now.slides.items }
        ensures { (slide : SlideSpec) → slice_get self.now.slides.items number ≡ Some slide
            → result.now ≡ slide.pool }
    {
        self.slides[number].pool()
    }
}
