//! What a pass of one base goes by.
//!
//! Clauses name it as one value: `terms` of the resource's members and the ground
//! (`specs/Machinery/Terms`).
ghost use Rattle.crew_pass.specs.Machinery.Terms.{ArePlacesOf, IsBasisOf};

use crate::places::Places;
use crew_flights::Code;
use crew_net::Net;
use std::snapshot::Snapshot;

/// What a pass of one base goes by: a network; by rank the number of each duty, by number its rank, and
/// by rank the position of its departure; by place the middle of each departure's window; the resource
/// of the base's lists, and the base.
#[derive(Drop)]
pub(crate) struct Ground<'a, 'r, R> {
    pub(crate) net: &'a Net,
    pub(crate) numbers: &'a [u32],
    pub(crate) ranks: &'a [u32],
    pub(crate) positions: &'a [u32],
    pub(crate) middles: &'a [usize],
    pub(crate) resource: &'r R,
    pub(crate) base: Code,
}

/// The same for clauses alone: it takes no bytes, and stands wherever a pass is.
#[derive(Drop)]
pub(crate) struct Basis<R> {
    net: Snapshot<Net>,
    places: Snapshot<Places>,
    resource: Snapshot<R>,
    base: Code,
}

impl<R> Basis<R> {
    /// What a pass goes by, and the lists that its numbers and positions are of.
    pub(crate) fn of(ground: &Ground<R>, places: &Places) -> Basis<R>
        requires { ArePlacesOf ground.now places.now }
        ensures { IsBasisOf ground.now result }
    {
        Basis {
            net: Snapshot::of(ground.net),
            places: Snapshot::of(places),
            resource: Snapshot::of(ground.resource),
            base: ground.base,
        }
    }
}
