//! The answer to a record of an explanation.

ghost use Rattle.std.specs.Prelude.{◌≡◌, ◌++◌, ◌≤◌, ◌-ℤ◌, List, ℕ, IfErr, IfOk, OnErr, OnOk};
ghost use Rattle.std.specs.Io.KnownBytes.{Appends};
ghost use Rattle.std.specs.Option.{option_map};
ghost use Rattle.crew_session.specs.Explanations as Spec;
ghost use Rattle.crew_session.specs.Explanations.{ShowsExplained};
ghost use Rattle.crew_session.specs.Faults.{IsLineFault};
ghost use Rattle.crew_session.specs.Texts.{BeginsOne};

use crate::fault::SessionFault;
use crate::lines::{put_key, put_number, put_signed, write_line};
use crew_explain::{Breach, Explained, Limits, Numbers, Rule, Way, explain};
use crew_flights::Code;
use crew_pairing::Duty;
use crew_records::ShortWalk;
use crew_time::ClockMinute;
use crew_version::Version;
use std::alloc::{AllocError, Global};
use std::io::Write;

// Appends a number after a word.
fn put_named(line: &mut Vec<u8>, word: &[u8], number: i64) -> Result<(), AllocError>
    ensures { OnOk result (line.new.items ≡ line.old.items ++ Spec.named word.now number) }
{
    line.extend_from_slice(word)?;
    put_signed(line, number)
}

// Appends two digits.
fn put_two(line: &mut Vec<u8>, number: u16) -> Result<(), AllocError>
    requires { number ≤ 99 }
    ensures { OnOk result (line.new.items ≡ line.old.items ++ Spec.two_digits number) }
{
    line.push(b'0' + (number / 10) as u8)?;
    line.push(b'0' + (number % 10) as u8)?;
    Ok(())
}

// Appends a minute of the day.
fn put_clock(line: &mut Vec<u8>, clock: ClockMinute) -> Result<(), AllocError>
    ensures { OnOk result (line.new.items ≡ line.old.items ++ Spec.clock_text clock) }
{
    put_two(line, clock.get() / 60)?;
    line.push(b':')?;
    put_two(line, clock.get() % 60)
}

// The name of a rule.
fn rule_text(rule: Rule) -> &'static [u8]
    ensures { result.now ≡ Spec.rule_text rule }
{
    match rule {
        Rule::Base => b"base",
        Rule::Legs => b"legs",
        Rule::Flight => b"flight",
        Rule::Airport => b"airport",
        Rule::Connect => b"connect",
        Rule::Turn => b"turn",
        Rule::Sit => b"sit",
        Rule::Deadheads => b"deadheads",
        Rule::LastLeg => b"last-leg",
        Rule::FlightTime => b"flight-time",
        Rule::FlightDuty => b"flight-duty",
        Rule::Leaves => b"leaves",
        Rule::RestAirport => b"rest-airport",
        Rule::Rest => b"rest",
        Rule::MaxRest => b"max-rest",
        Rule::FdpTotal => b"fdp-total",
        Rule::FlyCap => b"fly-cap",
        Rule::MaxDuties => b"max-duties",
        Rule::AwayCap => b"away-cap",
        Rule::Window => b"window",
        Rule::FreeTime => b"free-time",
        Rule::Returns => b"returns",
    }
}

// The section of 14 CFR part 117 that a rule keeps.
fn section_text(rule: Rule) -> &'static [u8]
    ensures { result.now ≡ Spec.section_text rule }
{
    match rule {
        Rule::FlightTime => b"117.11",
        Rule::FlightDuty => b"117.13",
        Rule::Rest => b"117.25(e)",
        Rule::FdpTotal => b"117.23(c)(2)",
        Rule::FlyCap => b"117.23(b)(1)",
        Rule::Window => b"117.23(c)(1)",
        Rule::FreeTime => b"117.25(b)",
        _ => b"none",
    }
}

// What sets the pay.
fn way_text(way: Way) -> &'static [u8]
    ensures { result.now ≡ Spec.way_text way }
{
    match way {
        Way::Duties => b"duties",
        Way::Away => b"away",
        Way::Guarantee => b"guarantee",
    }
}

// The minutes from an instant to another.
fn minutes_since(start: i32, instant: i32) -> i64
    ensures { result ≡ instant -ℤ start }
{
    i64::from(instant) - i64::from(start)
}

// Appends the rest before a duty.
fn put_rest(line: &mut Vec<u8>, before: Option<&Duty>, duty: &Duty) -> Result<(), AllocError>
    ensures { OnOk result (line.new.items ≡ line.old.items
        ++ Spec.rest_text (option_map (λ d. d.now) before.entry) duty.now) }
{
    match before {
        None => {
            line.extend_from_slice(b"none")?;
            Ok(())
        }
        Some(before) => put_signed(line, minutes_since(before.release, duty.report)),
    }
}

// Appends a duty with its report and its release, in minutes after the report of the first.
fn put_times(line: &mut Vec<u8>, first: &Duty, duty: &Duty) -> Result<(), AllocError>
    ensures { OnOk result (line.new.items
        ≡ line.old.items ++ Spec.times_text first.now.report duty.now) }
{
    line.extend_from_slice(b"duty ")?;
    put_key(line, &duty.key)?;
    put_named(line, b" report ", minutes_since(first.report, duty.report))?;
    put_named(
        line,
        b" release ",
        minutes_since(first.report, duty.release),
    )
}

// Appends the numbers of a duty with their limits.
fn put_limits(line: &mut Vec<u8>, duty: &Duty, limits: &Limits) -> Result<(), AllocError>
    ensures { OnOk result (line.new.items
        ≡ line.old.items ++ Spec.limits_text duty.now limits.now) }
{
    put_named(line, b" fdp ", i64::from(duty.fdp))?;
    put_named(line, b" of ", i64::from(limits.fdp))?;
    put_named(line, b" fly ", i64::from(duty.fly))?;
    put_named(line, b" of ", i64::from(limits.fly))
}

// Appends the line of a duty, with instants in minutes after the report of the first.
fn put_duty(
    line: &mut Vec<u8>,
    first: &Duty,
    before: Option<&Duty>,
    duty: &Duty,
    limits: &Limits,
) -> Result<(), AllocError>
    ensures { OnOk result (line.new.items ≡ line.old.items
        ++ Spec.duty_line first.now.report (option_map (λ d. d.now) before.entry) duty.now
        limits.now) }
{
    put_times(line, first, duty)?;
    put_limits(line, duty, limits)?;
    line.extend_from_slice(b" at ")?;
    put_clock(line, limits.clock)?;
    line.extend_from_slice(b" rest ")?;
    put_rest(line, before, duty)?;
    line.push(b'\n')?;
    Ok(())
}

// Appends the lines of duties.
fn put_duties(line: &mut Vec<u8>, duties: &[Duty], limits: &[Limits]) -> Result<(), AllocError>
    ensures { OnOk result (line.new.items ≡ line.old.items
        ++ Spec.duties_text duties.now limits.now) }
{
    let Some(first) = duties.first() else {
        return Ok(());
    };
    let mut before = None;
    for place in 0..duties.len() {
        let Some(own) = limits.get(place) else {
            return Ok(());
        };
        let duty = &duties[place];
        put_duty(line, first, before, duty, own)?;
        before = Some(duty);
    }
    Ok(())
}

// Appends the cost, the pay and the minutes away of a pairing.
fn put_numbers(line: &mut Vec<u8>, numbers: &Numbers) -> Result<(), AllocError>
    ensures { OnOk result (line.new.items ≡ line.old.items ++ Spec.numbers_text numbers.now) }
{
    put_named(line, b" cost ", numbers.cost)?;
    put_named(line, b" pay ", numbers.pay)?;
    put_named(line, b" away ", numbers.away)
}

// Appends that a pairing is legal, with its numbers and what sets its pay.
fn put_legal(line: &mut Vec<u8>, numbers: &Numbers) -> Result<(), AllocError>
    ensures { OnOk result (line.new.items ≡ line.old.items ++ Spec.legal_text numbers.now) }
{
    line.extend_from_slice(b" legal")?;
    put_numbers(line, numbers)?;
    line.extend_from_slice(b" by ")?;
    line.extend_from_slice(way_text(numbers.way))?;
    line.push(b'\n')?;
    Ok(())
}

// Appends the name of a broken rule and its section.
fn put_rule(line: &mut Vec<u8>, rule: Rule) -> Result<(), AllocError>
    ensures { OnOk result (line.new.items ≡ line.old.items ++ Spec.named_rule rule) }
{
    line.extend_from_slice(b" broken ")?;
    line.extend_from_slice(rule_text(rule))?;
    line.extend_from_slice(b" section ")?;
    line.extend_from_slice(section_text(rule))
}

// Appends where a rule is broken.
fn put_place(line: &mut Vec<u8>, breach: &Breach) -> Result<(), AllocError>
    ensures { OnOk result (line.new.items ≡ line.old.items ++ Spec.place_text breach.now) }
{
    line.extend_from_slice(b" duty ")?;
    put_number(line, breach.duty)?;
    line.extend_from_slice(b" leg ")?;
    put_number(line, breach.leg)
}

// Appends a broken rule.
fn put_broken(line: &mut Vec<u8>, breach: &Breach) -> Result<(), AllocError>
    ensures { OnOk result (line.new.items ≡ line.old.items ++ Spec.broken_text breach.now) }
{
    put_rule(line, breach.rule)?;
    put_place(line, breach)?;
    put_named(line, b" found ", breach.found)?;
    put_named(line, b" limit ", breach.limit)?;
    line.push(b'\n')?;
    Ok(())
}

// The lines of what is told of a walk.
fn explained_lines(alloc: Global, base: Code, told: &Explained) -> Result<Vec<u8>, AllocError>
    ensures { IfOk result (λ line. line.items ≡ Spec.explained_lines base told.now) }
{
    let mut line = Vec::new(alloc);
    line.extend_from_slice(b"explain ")?;
    line.extend_from_slice(&base.get())?;
    match told {
        Explained::Broken(breach) => put_broken(&mut line, breach)?,
        Explained::Legal(numbers) => {
            put_legal(&mut line, numbers)?;
            put_duties(&mut line, &numbers.duties, &numbers.limits)?;
        }
    }
    Ok(line)
}

/// Writes why a walk is, or isn't, a pairing of a base in a version.
pub(crate) fn answer_explain<W: Write>(
    alloc: Global,
    writer: &mut W,
    base: Code,
    walk: &ShortWalk,
    version: &Version,
) -> Result<(), SessionFault>
    ensures answered { OnOk result ((text : List ℕ)
        × Appends (W.contents writer.old) (W.contents writer.new) text
        × ShowsExplained base walk.now version.now text) }
    ensures begun { OnErr result (BeginsOne (W.contents writer.old) (W.contents writer.new)
        (ShowsExplained base walk.now version.now)) }
    ensures fault { IfErr result IsLineFault }
{
    let told = explain(
        alloc,
        version.settings(),
        version.timetable(),
        base,
        walk.keys(),
    )?;
    write_line(writer, &explained_lines(alloc, base, &told)?)
}
