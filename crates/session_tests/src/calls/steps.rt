//! The value of duties of one flight each, and the work on a single node, under the standard
//! settings, at no base price.
ghost use Rattle.std.specs.Prelude.{◌≡◌, ◌∷◌, [], List, IfOk, IfSome, false, pos, true};
ghost use Rattle.std.specs.declared.cmp.Ordering.TheVariants.{Less};
ghost use Rattle.crew_pairing.specs.Events.{IsSound};
ghost use Rattle.crew_pairing.specs.Keys.{key_cmp};
ghost use Rattle.crew_pairing.specs.Legs.{Leg};
ghost use Rattle.crew_pairing.specs.Pairings.{may_stand_after};
ghost use Rattle.crew_pairing.specs.declared.vector.PairingVector.{PairingVector};
ghost use Rattle.crew_resource.specs.Members.{Member};
ghost use Rattle.crew_rules.specs.Settings.{standard};
ghost use Rattle.crew_step.specs.Jobs.{IsValueAt};

use crew_flights::{Code, FlightId};
use crew_front::Front;
use crew_pairing::{Duty, Key, Leg, PairingVector};
use crew_rules::Settings;
use crew_step::{Done, Feed, Job, Predecessor, work};
use crew_vector::{VectorResource, value_of_list};
use std::alloc::{AllocError, Global};
use std::sync::Arc;

// A duty of one flight, of the least pay and at no price: from one airport to the other, from its
// report to its release, with its minutes of flight duty and of flight.
fn flown(
    number: u32,
    airports: (Code, Code),
    times: (i32, i32),
    minutes: (i32, i32),
) -> Option<Duty>
    ensures { IfSome result (λ duty. duty ≡ record {
      key = record { flight = number; deadhead = false } ∷ [];
      from = airports.0;
      to = airports.1;
      report = times.0;
      release = times.1;
      fdp = minutes.0;
      fly = minutes.1;
      pay = pos 2_520;
      price = pos 0;
    }) }
{
    let id = FlightId::new(number)?;
    Some(Duty {
        key: Key::of(Leg::new(id, false)),
        from: airports.0,
        to: airports.1,
        report: times.0,
        release: times.1,
        fdp: minutes.0,
        fly: minutes.1,
        pay: 2_520,
        price: 0,
    })
}

// Writes the seven numbers of a vector.
fn write_vector(out: &mut String, v: &PairingVector) -> Result<(), AllocError> {
    write!(out, " {} {} {}", v.duty_pay, v.trip_rig, v.guarantee)?;
    write!(out, " {} {} {} {}", v.fdp, v.fly, v.duties, v.away)
}

// The value of two duties: out at 2025-07-01T14:00 and on at 2025-07-02T12:00.
fn value_of_two() -> Option<PairingVector> {
    let (home, away, on) = (
        Code::new(*b"JFK")?,
        Code::new(*b"BOS")?,
        Code::new(*b"PHL")?,
    );
    let first = flown(402, (home, away), (29_189_580, 29_189_740), (130, 70))?;
    let second = flown(403, (away, on), (29_190_900, 29_191_050), (120, 60))?;
    value_of_list(&Settings::standard(), 0, &[first, second])
}

/// Writes the value of two duties.
pub fn write_value(out: &mut String) -> Option<()> {
    write_vector(out, &value_of_two()?).ok()
}

// What is done of a duty with nothing before it.
fn alone(alloc: Global, base: Code, duty: Duty) -> Result<Done, AllocError>
    requires { IsSound duty }
    ensures { IfOk result (λ done. (v : PairingVector) (w : List (List Leg))
        → Member done.front (v, w) → IsValueAt standard (pos 0) duty v w) }
{
    let Ok(feed) = Arc::new(alloc, Feed::new(Vec::new(alloc))) else {
        return Err(AllocError);
    };
    let job = Job::new(Settings::standard(), base, 0, duty, feed);
    let done = work(alloc, &job)?;
    Ok(done)
}

// The front of a duty with nothing before it.
fn front_alone(
    alloc: Global,
    base: Code,
    duty: &Duty,
) -> Result<Arc<Front<VectorResource>>, AllocError>
    requires { IsSound duty.now }
    ensures { IfOk result (λ front. (v : PairingVector) (w : List (List Leg))
        → Member front.value (v, w) → IsValueAt standard (pos 0) duty.now v w) }
{
    let (_, front) = alone(alloc, base, duty.copy())?.into_parts();
    let Ok(front) = Arc::new(alloc, front) else {
        return Err(AllocError);
    };
    Ok(front)
}

// Two duties just before.
fn feed_of_two(alloc: Global, one: Predecessor, other: Predecessor) -> Result<Arc<Feed>, AllocError>
    ensures { IfOk result (λ feed. feed.value
        ≡ (one.duty, one.front.value) ∷ (other.duty, other.front.value) ∷ []) }
{
    let mut list = Vec::new(alloc);
    list.push(one)?;
    list.push(other)?;
    let Ok(feed) = Arc::new(alloc, Feed::new(list)) else {
        return Err(AllocError);
    };
    Ok(feed)
}

// The job of a duty after two others, each of which is done with nothing before it.
fn after_two(
    alloc: Global,
    base: Code,
    one: Duty,
    other: Duty,
    next: Duty,
) -> Result<Job, AllocError>
    requires sound { IsSound one × IsSound other × IsSound next }
    requires rises { key_cmp one.key other.key ≡ Less }
    requires rested { (may_stand_after standard one next ≡ true)
        × (may_stand_after standard other next ≡ true) }
{
    let first = front_alone(alloc, base, &one)?;
    let second = front_alone(alloc, base, &other)?;
    let one = Predecessor {
        duty: one,
        front: first,
    };
    let other = Predecessor {
        duty: other,
        front: second,
    };
    let feed = feed_of_two(alloc, one, other)?;
    Ok(Job::new(Settings::standard(), base, 0, next, feed))
}

// Two ways to the second duty: the first pays less trip rig and is away for less, the second has
// fewer minutes of flight duty and of flight.
fn two_ways(alloc: Global) -> Option<Job> {
    let (home, away, on) = (
        Code::new(*b"JFK")?,
        Code::new(*b"BOS")?,
        Code::new(*b"PHL")?,
    );
    let one = flown(401, (home, away), (29_189_460, 29_189_610), (120, 60))?;
    let other = flown(402, (home, away), (29_189_580, 29_189_740), (130, 70))?;
    let next = flown(403, (away, on), (29_190_900, 29_191_050), (120, 60))?;
    after_two(alloc, home, one, other, next).ok()
}

// Writes the vectors of a front.
fn write_front(out: &mut String, front: &Front<VectorResource>) -> Result<(), AllocError> {
    for (vector, _) in front.as_slice() {
        write_vector(out, vector)?;
        out.push(';')?;
    }
    Ok(())
}

/// Writes what the work on the job of a duty after two ways gives.
pub fn write_work(alloc: Global, out: &mut String) -> Option<()> {
    let job = two_ways(alloc)?;
    match work(alloc, &job) {
        Ok(done) => write_front(out, done.front()).ok(),
        Err(_) => None,
    }
}
