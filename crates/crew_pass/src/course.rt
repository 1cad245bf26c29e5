//! What the passes of all bases go by.
ghost use Rattle.std.specs.Prelude.{◌≡◌, IfOk};
ghost use Rattle.std.specs.Arc.{arc_value};
ghost use Rattle.crew_pass.specs.Machinery.Passing.{IsCharted};
ghost use Rattle.crew_pass.specs.Machinery.Terms.{ArePlaces};

use crate::places::Places;
use crew_net::{Net, Window};
use crew_numbers::Numbers;
use std::alloc::{AllocError, Global};
use std::marker::Model;
use std::sync::Arc;

/// What the passes of all bases go by: a network; the numbers of its duties, and where these leave;
/// and where windows are cut. It owns what it goes by, so it can be kept, and be shared by threads.
///
/// A contract sees the network.
pub struct Course {
    numbers: Numbers,
    places: Places,
    middles: Arc<Vec<usize>, Global>,
}

impl Drop for Course {
    fn drop(self) {
        let Self {
            numbers: _,
            places: _,
            middles: _,
        } = self;
    }
}

impl Model for Course {
    ghost use Rattle.crew_net.specs.Nets as Spec;
    ghost use Rattle.crew_pass.specs.Machinery.Passing.{IsCharted};
    ghost use Rattle.crew_pass.specs.Machinery.Terms.{ArePlaces};

    ghost Value = { Spec.Net };

    ghost view = { λ c. c.numbers.net };

    ghost invariant = { λ c. IsCharted c.numbers.net × ArePlaces c.numbers.net c.places };
}

/// What a network has of its events, its duties and its settings.
pub(crate) fn chart(net: &Net)
    ensures { IsCharted net.now }
{
    let _ = net.departures();
    let _ = net.arrivals();
    let _ = net.by_report();
    let _ = net.duty_count();
    let _ = net.settings();
}

// Where the window of each departure is cut, by place: at the middle of the one before it where that
// lies within it too, so that as few middles as may be do, and else at its end.
fn middles_of(alloc: Global, net: &Net) -> Result<Vec<usize>, AllocError> {
    let departures = net.departures().len();
    let mut middles = Vec::with_capacity(alloc, departures)?;
    let mut middle = 0;
    for place in 0..departures {
        let Window { from, end } = net.window(place);
        if middle <= from || end < middle {
            middle = end;
        }
        middles.push(middle)?;
    }
    Ok(middles)
}

impl Course {
    // The course over a network whose duties have numbers.
    fn over(alloc: Global, numbers: Numbers) -> Result<Course, AllocError>
        ensures { IfOk result (λ course. course ≡ numbers.net) }
    {
        chart(numbers.net());
        let places = Places::of(alloc, &numbers)?;
        let middles = Arc::new(alloc, middles_of(alloc, numbers.net())?)?;
        Ok(Course {
            numbers,
            places,
            middles,
        })
    }

    /// The course over a network.
    pub fn new(alloc: Global, net: Arc<Net, Global>) -> Result<Course, AllocError>
        ensures { IfOk result (λ course. course ≡ arc_value net) }
    {
        Course::over(alloc, Numbers::new(alloc, net)?)
    }

    /// The course over another network, beside this one: a duty whose key both have keeps its number.
    pub fn next(&self, alloc: Global, net: Arc<Net, Global>) -> Result<Course, AllocError>
        ensures { IfOk result (λ course. course ≡ arc_value net) }
    {
        Course::over(alloc, self.numbers.next(alloc, net)?)
    }

    /// The network.
    pub fn net(&self) -> &Arc<Net, Global>
        ensures net { arc_value result.now ≡ self.now }
        ensures charted { IsCharted self.now }
    {
        self.numbers.net()
    }

    /// The numbers of the duties, and where these leave.
    pub(crate) fn places(&self) -> &Places
        ensures { ArePlaces self.now result.now }
    {
        &self.places
    }

    /// The middle of the window of each departure, by place. No clause says more: whatever they are, a
    /// pass is right.
    pub(crate) fn middles(&self) -> &Arc<Vec<usize>, Global> {
        &self.middles
    }
}
