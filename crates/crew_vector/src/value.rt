//! The value of a whole list.
ghost use Rattle.std.specs.Prelude.{◌≡◌, ◌∷◌};
ghost use Rattle.crew_rules.specs.Settings.{IsChecked};
ghost use Rattle.crew_vector.specs.Machinery.Along.{GoesOn, HasMost, IsLine};
ghost use Rattle.crew_vector.specs.Values.{value_of};
ghost use Rattle.crew_flights.specs.Timetable.{IsBasePrice};

use crate::resource::VectorResource;
use crew_pairing::{Duty, PairingVector};
use crew_resource::{Placed, Staged, extend_staged, start_staged};
use crew_rules::Settings;

/// The value of a list of items, kept item by item.
fn along<P: Placed, R: Staged<P>>(resource: &R, first: &P, others: &[P]) -> Option<R::Value>
    requires most { HasMost (R.most resource.now) (R.fits resource.now) }
    requires sound { P.is_sound first.now }
    requires begins { P.may_begin (P.leaves first.now) }
    requires goes_on { GoesOn P.is_sound P.may_follow P.arrives P.leaves first.now others.now }
    ensures { result ≡ R.value_of resource.now (first.now ∷ others.now) }
{
    let Some(mut value) = start_staged(resource, first) else {
        return None;
    };
    let mut last = first;
    for next in others {
        let Some(longer) = extend_staged(resource, &value, last, next) else {
            return None;
        };
        value = longer;
        last = next;
    }
    Some(value)
}

/// The value of a list of duties of one base, from its first duty on: its vector, and none where
/// the list is empty, or where it or a beginning of it passes a cap.
pub fn value_of_list(settings: &Settings, base_price: i64, duties: &[Duty]) -> Option<PairingVector>
    requires checked { IsChecked settings.now }
    requires price { IsBasePrice base_price }
    requires line { IsLine duties.now }
    ensures { result ≡ value_of settings.now base_price duties.now }
{
    let (first, others) = duties.split_first()?;
    along(&VectorResource::new(settings, base_price), first, others)
}
