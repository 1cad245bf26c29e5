//! The options of a subcommand: one for each setting, with its help.

ghost use Rattle.std.specs.Prelude.{◌≡◌, ◌≤◌, IfOk, length, map, string_bytes};
ghost use Rattle.clap.specs.Words.{found_of, one_of, rows_of};
ghost use Rattle.crew_words.specs.Help as Spec;
ghost use Rattle.crew_words.specs.Options.{hosting_in, number_in, settings_in, sharing_in};

use crate::task::{Hosting, Sharing};
use clap::ArgMatches;
use crew_rules::Settings;
use std::alloc::{AllocError, Global};

/// An option of a setting.
pub struct SettingOption {
    /// Its name on the command line.
    pub name: &'static str,
    /// What its number counts.
    pub unit: &'static str,
    /// What the setting is.
    pub meaning: &'static str,
    /// The numbers that it may have.
    pub range: &'static str,
    /// What else there is to know of it.
    pub note: &'static str,
}

/// The options, in the order of the numbers of their settings.
pub static OPTIONS: [SettingOption; 15] = [
    SettingOption {
        name: "lead",
        unit: "MINUTES",
        meaning: "From report to the first departure of a duty",
        range: "0 to 240 minutes",
        note: "\nA flight duty period begins at the required report (14 CFR 117.3)",
    },
    SettingOption {
        name: "debrief",
        unit: "MINUTES",
        meaning: "From the last arrival of a duty to release",
        range: "0 to 240 minutes",
        note: "\nRest is counted from release (14 CFR 117.25)",
    },
    SettingOption {
        name: "connect",
        unit: "MINUTES",
        meaning: "Least time on the ground between two legs of a duty",
        range: "0 to 240 minutes",
        note: "\nMore than --sit makes setting 4 a bad one",
    },
    SettingOption {
        name: "sit",
        unit: "MINUTES",
        meaning: "Most time on the ground between two legs of a duty",
        range: "from --connect (setting 3) to 1440 minutes",
        note: "\nIt counts toward the flight duty period, which Table B limits (14 CFR 117.13)",
    },
    SettingOption {
        name: "max-rest",
        unit: "MINUTES",
        meaning: "Longest rest between two duties",
        range: "600 to 8280 minutes",
        note: "\nThe shortest is always 600: ten hours from release to report (14 CFR 117.25(e))",
    },
    SettingOption {
        name: "max-duties",
        unit: "DUTIES",
        meaning: "Most duties of a pairing",
        range: "1 to 12",
        note: "",
    },
    SettingOption {
        name: "fdp-cap",
        unit: "MINUTES",
        meaning: "Most flight duty time of a pairing within any 168 hours",
        range: "1 to 3600 minutes",
        note: "\nAt most 60 hours in any 168 (14 CFR 117.23(c)(1)); Table B limits each duty (14 CFR 117.13)",
    },
    SettingOption {
        name: "fly-cap",
        unit: "MINUTES",
        meaning: "Most flight time of a pairing",
        range: "1 to 6000 minutes",
        note: "\nAt most 100 hours in any 672 (14 CFR 117.23(b)); Table A limits each duty (14 CFR 117.11)",
    },
    SettingOption {
        name: "away-cap",
        unit: "MINUTES",
        meaning: "Most time from first report to last release of a pairing",
        range: "1 to 14400 minutes",
        note: "\nWith 30 hours free from duty right before it, a pairing of 8280 fits in 168 hours (14 CFR 117.25(b));\na longer one has such free hours on its way too, within the 168 before each report,\nso above 8280 let --max-rest rise above its 1800 too: a rest of just 1800 is seldom to be had",
    },
    SettingOption {
        name: "duty-rig",
        unit: "POINTS",
        meaning: "Pay for each minute from report to release of a duty",
        range: "0 to 14 points",
        note: "\nA duty pays this, its flight time or --duty-min, whichever is most",
    },
    SettingOption {
        name: "trip-rig",
        unit: "POINTS",
        meaning: "Pay for each minute away from base",
        range: "0 to 14 points",
        note: "\nA pairing pays this, the sum of its duties or --guarantee for each, whichever is most",
    },
    SettingOption {
        name: "duty-min",
        unit: "POINTS",
        meaning: "Least pay of a duty",
        range: "0 to 20000 points",
        note: "",
    },
    SettingOption {
        name: "guarantee",
        unit: "POINTS",
        meaning: "Least pay of a pairing for each of its duties",
        range: "0 to 20000 points",
        note: "",
    },
    SettingOption {
        name: "deadheads",
        unit: "LEGS",
        meaning: "Most legs of a duty on which the crew rides as passengers",
        range: "0 or 1",
        note: "\nSuch a leg is duty and not rest, and no flight segment (14 CFR 117.3)",
    },
    SettingOption {
        name: "fdp-total",
        unit: "MINUTES",
        meaning: "Most flight duty time of a pairing",
        range: "1 to 11400 minutes",
        note: "\nAt most 190 hours in any 672 (14 CFR 117.23(c)(2)), which hold all of a pairing",
    },
];

// The defaults, in the order of the numbers.
fn defaults() -> [u32; 15]
    ensures { result ≡ Spec.defaults }
{
    let standard = Settings::standard();
    [
        standard.lead,
        standard.debrief,
        standard.connect,
        standard.sit,
        standard.max_rest,
        standard.max_duties,
        standard.fdp_cap,
        standard.fly_cap,
        standard.away_cap,
        standard.duty_rig,
        standard.trip_rig,
        standard.duty_min,
        standard.guarantee,
        standard.deadheads,
        standard.fdp_total,
    ]
}

// What `--help` says of an option.
fn help_text(
    alloc: Global,
    number: usize,
    option: &SettingOption,
    default: u32,
) -> Result<String, AllocError>
    ensures { IfOk result (λ text. string_bytes text ≡ Spec.help_text number option.now default) }
{
    let (meaning, range, note) = (option.meaning, option.range, option.note);
    match format!(in alloc; "Setting {number}. {meaning}: {range}, {default} unless given{note}") {
        Ok(text) => Ok(text),
        Err(_) => Err(AllocError),
    }
}

/// What `--help` says of each option: the number of its setting, what it is, the numbers that it may
/// have, its default and what else there is to know of it.
pub fn help_texts(alloc: Global, options: &[SettingOption]) -> Result<Vec<String>, AllocError>
    requires { length options.now ≤ 15 }
    ensures { IfOk result (λ texts. map string_bytes texts.items ≡ Spec.help_of options.now) }
{
    let defaults = defaults();
    let mut texts = Vec::new(alloc);
    for (i, option) in options.iter().enumerate() {
        texts.push(help_text(alloc, i + 1, option, defaults[i])?)?;
    }
    Ok(texts)
}

// The number of an option, or its default where it isn't given.
fn number_of(found: &ArgMatches<'_>, name: &str, default: u32) -> u32
    ensures { result ≡ number_in (one_of name.now (rows_of (found_of found.now))) default }
{
    found.get_one::<u32>(name).unwrap_or(default)
}

/// How the options have the work shared; nobody else works, and nothing is told, unless it is given.
pub fn sharing_from(found: &ArgMatches<'_>) -> Sharing
    ensures { result ≡ sharing_in (rows_of (found_of found.now)) }
{
    Sharing {
        workers: number_of(found, "workers", 0),
        progress: number_of(found, "progress", 0),
    }
}

/// What the options have a service hold room for, and how its work is shared; the standard unless it
/// is given.
pub fn hosting_from(found: &ArgMatches<'_>) -> Hosting
    ensures { result ≡ hosting_in (rows_of (found_of found.now)) }
{
    let standard = Hosting::STANDARD;
    Hosting {
        seats: number_of(found, "seats", standard.seats),
        viewers: number_of(found, "viewers", standard.viewers),
        workers: number_of(found, "workers", standard.workers),
    }
}

/// The settings that the options give, over the defaults.
pub fn settings_from(found: &ArgMatches<'_>) -> Settings
    ensures { result ≡ settings_in (rows_of (found_of found.now)) }
{
    let standard = Settings::standard();
    Settings {
        lead: number_of(found, "lead", standard.lead),
        debrief: number_of(found, "debrief", standard.debrief),
        connect: number_of(found, "connect", standard.connect),
        sit: number_of(found, "sit", standard.sit),
        max_rest: number_of(found, "max-rest", standard.max_rest),
        max_duties: number_of(found, "max-duties", standard.max_duties),
        fdp_cap: number_of(found, "fdp-cap", standard.fdp_cap),
        fly_cap: number_of(found, "fly-cap", standard.fly_cap),
        away_cap: number_of(found, "away-cap", standard.away_cap),
        duty_rig: number_of(found, "duty-rig", standard.duty_rig),
        trip_rig: number_of(found, "trip-rig", standard.trip_rig),
        duty_min: number_of(found, "duty-min", standard.duty_min),
        guarantee: number_of(found, "guarantee", standard.guarantee),
        deadheads: number_of(found, "deadheads", standard.deadheads),
        fdp_total: number_of(found, "fdp-total", standard.fdp_total),
    }
}
