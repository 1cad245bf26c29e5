//! The one seat and the one viewer of a service.
ghost use Rattle.std.specs.Prelude.{◌≡◌, length};
ghost use Rattle.crew_log.specs.Logs.{unused_seat};
ghost use Rattle.crew_service.specs.Plans.{AreSeatsFrom};

use crew_log::Seat;
use crew_publish::Viewer;

/// The one seat.
pub(crate) fn only_seat(mut seats: Vec<Seat>) -> Seat
    requires first { AreSeatsFrom 0 seats.items }
    requires one { length seats.items ≡ 1 }
    ensures { result ≡ unused_seat 0 }
{
    match seats.pop() {
        Some(seat) => seat,
        None => unreachable!(),
    }
}

/// The one viewer.
pub(crate) fn only_viewer(mut viewers: Vec<Viewer>) -> Viewer
    requires { length viewers.items ≡ 1 }
{
    match viewers.pop() {
        Some(viewer) => viewer,
        None => unreachable!(),
    }
}
