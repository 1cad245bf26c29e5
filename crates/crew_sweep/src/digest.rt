//! What is known of a pool without going over it.
//!
//! The least duty pay, and between which places of the walks the labels' stand. It is made with the
//! pool, while its labels are at hand, and goes along where the pool is kept. Without it an edit
//! that is felt nowhere goes over all labels of all pools twice: to see whether the walks of a kept
//! pool stand at their places, and for the floors of the best. It takes 16 bytes a departure.
ghost use Rattle.crew_sweep.specs.Machinery.Digests.{IsDigest, IsFloor};

use crew_anchor::{AnchoredResource, AnchoredVector};
use crew_carry::Span;
use crew_pool::{LabelWalk, Pool};

/// The least duty pay of a pool's labels, in points, and where their walks stand.
#[derive(Clone, Copy, Debug, Drop)]
pub(crate) struct Digest {
    pub(crate) floor: i64,
    pub(crate) span: Span,
}

// The least duty pay of labels.
fn floor_of(labels: &[(AnchoredVector, LabelWalk)]) -> i64
    ensures { IsFloor result labels.now }
{
    let mut floor = i64::MAX;
    for label in labels {
        floor = floor.min(label.0.duty_pay());
    }
    floor
}

impl Digest {
    /// That of a pool.
    pub(crate) fn of(pool: &Pool<AnchoredResource>) -> Digest
        ensures { IsDigest result pool.now }
    {
        Digest {
            floor: floor_of(pool.as_slice()),
            span: Span::of(pool),
        }
    }
}
