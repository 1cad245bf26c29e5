//! What a session may set.

ghost use Rattle.std.specs.Prelude.{◌≡◌, ◌↔◌, ◌<◌, ◌++◌, IfSome, IsOk, Some, codes, decimal, length, not, position};
ghost use Rattle.crew_rules.specs.Range.{is_in_range};

use std::error::Error;
use std::fmt;

/// The limits and rates of a session, in the order of their numbers.
#[derive(Clone, Copy, Debug, PartialEq, Eq)]
pub struct Settings {
    /// 1: minutes from report to the first departure, 0 to 240.
    pub lead: u32,
    /// 2: minutes from the last arrival to release, 0 to 240.
    pub debrief: u32,
    /// 3: the least minutes between two legs of a duty, 0 to 240.
    pub connect: u32,
    /// 4: the most minutes between two legs of a duty, `connect` to 1,440.
    pub sit: u32,
    /// 5: the longest rest between two duties in minutes, 600 to 8,280.
    pub max_rest: u32,
    /// 6: the most duties of a pairing, 1 to 12.
    pub max_duties: u32,
    /// 7: the most flight duty minutes within 10,080 consecutive minutes, 1 to 3,600.
    pub fdp_cap: u32,
    /// 8: the most flight minutes of a pairing, 1 to 6,000.
    pub fly_cap: u32,
    /// 9: the most minutes from first report to last release, 1 to 14,400.
    pub away_cap: u32,
    /// 10: points for each elapsed minute of a duty, 0 to 14.
    pub duty_rig: u32,
    /// 11: points for each minute away, 0 to 14.
    pub trip_rig: u32,
    /// 12: the least points of a duty, 0 to 20,000.
    pub duty_min: u32,
    /// 13: the least points of a pairing for each of its duties, 0 to 20,000.
    pub guarantee: u32,
    /// 14: the most deadhead legs of a duty, 0 to 1.
    pub deadheads: u32,
    /// 15: the most flight duty minutes of a pairing, 1 to 11,400.
    pub fdp_total: u32,
}

/// The first setting that is out of its range, by its number from 1 to 15.
#[derive(Clone, Copy, Debug, PartialEq, Eq)]
pub struct BadSetting {
    pub field: u8,
}

impl BadSetting {
    /// The number of this refusal, 10.
    pub fn number(self) -> u8
        ensures { result ≡ 10 }
    {
        10
    }
}

impl fmt::Display for BadSetting {
    ghost output = { λ bad. Some (codes "bad setting " ++ decimal bad.field) };

    fn fmt<W: fmt::Write>(&self, f: &mut fmt::Formatter<W>) -> fmt::Result {
        let field = self.field;
        write!(f, "bad setting {field}")
    }
}

impl Error for BadSetting {}

// The place of the first value that is below its least or above its greatest.
fn first_out(ranges: &[(u32, u32, u32)]) -> Option<usize>
    ensures value { result ≡ position (λ r. not (is_in_range r)) ranges.now }
    ensures place { IfSome result (λ place. place < length ranges.now) }
{
    ranges
        .iter()
        .position(|&(value, least, most)| !(least <= value && value <= most))
}

impl Settings {
    ghost use Rattle.crew_rules.specs.Settings.{IsChecked, SumsTellAll, check_of, standard};

    /// The defaults.
    pub fn standard() -> Self
        ensures value { result ≡ standard }
        ensures checked { IsChecked result }
        ensures sums { SumsTellAll result }
    {
        Settings {
            lead: 60,
            debrief: 30,
            connect: 30,
            sit: 240,
            max_rest: 1_800,
            max_duties: 4,
            fdp_cap: 3_600,
            fly_cap: 6_000,
            away_cap: 8_280,
            duty_rig: 7,
            trip_rig: 4,
            duty_min: 2_520,
            guarantee: 4_200,
            deadheads: 0,
            fdp_total: 11_400,
        }
    }

    /// Tests the settings in order of their numbers; an `Err` names the first out of its range.
    pub fn check(&self) -> Result<(), BadSetting>
        ensures value { result ≡ check_of self.now }
        ensures checked { IsOk result ↔ IsChecked self.now }
    {
        let ranges = [
            (self.lead, 0, 240),
            (self.debrief, 0, 240),
            (self.connect, 0, 240),
            (self.sit, self.connect, 1_440),
            (self.max_rest, 600, 8_280),
            (self.max_duties, 1, 12),
            (self.fdp_cap, 1, 3_600),
            (self.fly_cap, 1, 6_000),
            (self.away_cap, 1, 14_400),
            (self.duty_rig, 0, 14),
            (self.trip_rig, 0, 14),
            (self.duty_min, 0, 20_000),
            (self.guarantee, 0, 20_000),
            (self.deadheads, 0, 1),
            (self.fdp_total, 1, 11_400),
        ];
        match first_out(&ranges) {
            None => Ok(()),
            Some(place) => Err(BadSetting {
                field: place as u8 + 1,
            }),
        }
    }
}
