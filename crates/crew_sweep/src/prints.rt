//! Numbers by which arrivals that show something else are told from those that may show what they
//! showed.
//!
//! A pass leaves the number of each arrival that it made or kept. Beside it, an arrival of another
//! number shows something else, which is known without making the old one; where the numbers are one,
//! both are made, and compared. So all of this is a hint: nothing is kept that wasn't seen to be the
//! same.
//!
//! The number of an arrival is the sum of one for each of its labels' vectors, and takes 16 bytes.
//! Numbers that are the same by chance cost a comparison, and nothing else hangs on them.
ghost use Rattle.std.specs.Prelude.{◌≡◌, ◌<◌, length};

use crate::earlier::Earlier;
use crew_anchor::{AnchoredResource, AnchoredVector};
use crew_pool::Pool;
use std::alloc::{AllocError, Global};

// A number of a vector: vectors that differ have nearly always different ones.
fn number_of(vector: &AnchoredVector) -> u64 {
    let parts = vector.parts();
    let mixed = parts
        .duty_pay
        .wrapping_mul(0x1B87_3593_85EB_CA6B)
        .wrapping_add(parts.trip_rig.wrapping_mul(0x2545_F491_4F6C_DD1D))
        .wrapping_add(parts.guarantee.wrapping_mul(0x5851_F42D_4C95_7F2D))
        .wrapping_add(parts.fdp.wrapping_mul(0x369D_EA0F_31A5_3F85))
        .wrapping_add(parts.fly.wrapping_mul(0x4C95_7F2D_1B87_3593))
        .wrapping_add(parts.duties.wrapping_mul(0x7C15_9E37_79B9_7F4B))
        .wrapping_add(parts.away.wrapping_mul(0x14F6_CDD1_D254_5F49))
        .cast_unsigned();
    (mixed ^ mixed.rotate_left(31)).wrapping_mul(0x9E37_79B9_7F4A_7C15)
}

/// The number of a pool: pools of different vectors have nearly always different ones.
pub(crate) fn print_of(pool: &Pool<AnchoredResource>) -> u64 {
    let mut print: u64 = 0;
    for label in pool.as_slice() {
        print = print.wrapping_add(number_of(&label.0));
    }
    print
}

/// The numbers of arrivals by place, as far as they are known.
#[derive(Drop)]
pub(crate) struct Prints {
    prints: Vec<Option<u64>>,
}

impl Prints {
    /// Of so many arrivals none is known.
    pub(crate) fn none(alloc: Global, count: usize) -> Result<Prints, AllocError> {
        let prints = vec![in alloc; None; count]?;
        Ok(Prints { prints })
    }

    /// The number of the arrival at a place, if it is known.
    pub(crate) fn at(&self, place: usize) -> Option<u64> {
        self.prints.get(place).copied().flatten()
    }

    /// Notes the number of the arrival at a place.
    pub(crate) fn note(&mut self, place: usize, print: Option<u64>) {
        if place < self.prints.len() {
            self.prints[place] = print;
        }
    }

    /// Fills in those of an earlier pass, where an arrival's isn't known and it is as it was.
    pub(crate) fn fill_in(&mut self, earlier: &Earlier, changed: &[bool], alike: &[Option<usize>])
        requires alike { length alike.now ≡ length changed.now }
        requires arrivals { length earlier.now.twins.now.arrivals ≡ length changed.now }
    {
        for place in 0..changed.len() {
            if self.at(place).is_none() {
                let print = earlier.print(changed, alike, place);
                self.note(place, print);
            }
        }
    }
}

impl<'a> Earlier<'a> {
    // The number that the arrival at a place had, where it is as it was.
    fn print(&self, changed: &[bool], alike: &[Option<usize>], place: usize) -> Option<u64>
        requires marks { place < length changed.now }
        requires alike { place < length alike.now }
        requires arrivals { place < length self.now.twins.now.arrivals }
    {
        let old = match alike[place] {
            Some(old) => old,
            None if changed[place] => return None,
            None => self.twins.arrival(place)?,
        };
        self.sweep.print(old)
    }
}

/// Whether what has two numbers may be the same: unless both are known, and differ.
pub(crate) fn may_be_same(one: Option<u64>, other: Option<u64>) -> bool {
    match (one, other) {
        (Some(one), Some(other)) => one == other,
        _ => true,
    }
}
