//! What the words of the command line ask for.

ghost use Rattle.std.specs.Prelude.{◌≡◌, codes, false, map, IfErr, IfOk, length};
ghost use Rattle.clap.specs.Words.{FailsBy, app_of, found_of, kind_of, rows_of, rule_of, subcommand_rows_of};
ghost use Rattle.clap.specs.declared.builder.command.Command.TheViews.{out-Command as fields_of};
ghost use Rattle.crew_words.specs.Words as Spec;

use crate::options::{
    OPTIONS, SettingOption, help_texts, hosting_from, settings_from, sharing_from,
};
use crate::task::{Sharing, Task};
use clap::error::ErrorKind;
use clap::{Arg, ArgAction, ArgMatches, Command, Error};
use crew_rules::Settings;
use std::alloc::{AllocError, Global};
use std::convert::AsStr;

// The version of the program.
static VERSION: &str = "1.0.0";

// What holds of each duty whatever the settings are, what pay is counted in, and how a run ends.
static RULES: &str =
    "A duty has at most 8 legs. By the local clock of its first airport at report, Table A limits its flight time and Table B its flight duty period, for a crew of two pilots (14 CFR 117.11, 117.13).\nPay is counted in points: a minute of flight pays 14, so 840 points are a paid hour.\nSettings are tested in the order of their numbers; 'bad setting N' names the first that is out of its range.\nStatus: 0 done, 1 read or write fault, 2 fault in these words, 3 out of memory, 4 a setting out of its range, 5 strange log.";

// What `--help` says of each subcommand.
static RUN: &str =
    "Prices a session: reads records on standard input, one a line, and writes answers to standard output";

static REPLAY: &str =
    "Plays a schedule: reads the steps of several workers and readers on standard input, one a line in the order in which they are to happen, and writes the reply to each to standard output";

static SERVE: &str =
    "Serves up to 64 clients at once: reads lines NAME,RECORD on standard input, a client's name and a record of its session, and writes each answer to standard output as lines that begin with that name; queries are answered while a settle runs";

// What `--help` says of the number of workers of a session.
static WORKERS: &str =
    "Threads of the running service that take part in the work of each settle: 0 to 64, 0 unless given\nWhat is written is the same for every number. With 0 a settle shares its work out over all processors by itself;\nwith four workers a session was measured to take 1.1 to 1.3 times as long.\nThey are for --progress, and to try the service that programs use as a crate";

// What `--help` says of how often it is told how far a settle is.
static PROGRESS: &str =
    "With workers, tells on standard error how far a settle is, every so many seconds: 0 to 3600, 0 unless given\n0 tells nothing";

// What `--help` says of the numbers of a service.
static SEATS: &str =
    "Clients that may edit: 0 to 64, 64 unless given\nA client takes a seat with its first edit and gives it up when it leaves; with 0 nothing can be edited";

static VIEWERS: &str =
    "Clients that there may be at a time: 1 to 64, 64 unless given\nOne more is refused until one leaves";

static SERVE_WORKERS: &str =
    "Threads that take part in the work of each settle, beside the one that settles: 0 to 64, 2 unless given\nWhat a version holds is the same for every number. With 0 the thread that settles works alone";

// An option that takes a value.
fn value_arg<'a>(alloc: Global, name: &'a str, unit: &'a str, help: &'a str) -> Arg<'a>
    ensures rule { rule_of result ≡ Spec.value_rule name.now }
    ensures local { result.global ≡ false }
{
    Arg::new(alloc, name)
        .long(name)
        .value_name(unit)
        .help(help)
        .action(ArgAction::Set)
}

// An option of a setting: a whole number from 0 to 1,000,000.
fn arg_of<'a>(alloc: Global, option: &SettingOption, help: &'a str) -> Arg<'a>
    ensures rule { rule_of result ≡ Spec.option_rule option.now.name.now }
    ensures local { result.global ≡ false }
{
    value_arg(alloc, option.name, option.unit, help).value_parser(clap::value_parser!(u32).range(
        0..=1_000_000,
    ))
}

// The option of the number of workers: a whole number from 0 to 64.
fn workers_arg<'a>(alloc: Global, help: &'a str) -> Arg<'a>
    ensures rule { rule_of result ≡ Spec.workers_rule }
    ensures local { result.global ≡ false }
{
    value_arg(alloc, "workers", "THREADS", help).value_parser(clap::value_parser!(u32).range(
        0..=64,
    ))
}

// The option of how often it is told how far a settle is: a whole number from 0 to 3,600.
fn progress_arg<'a>(alloc: Global) -> Arg<'a>
    ensures rule { rule_of result ≡ Spec.progress_rule }
    ensures local { result.global ≡ false }
{
    value_arg(alloc, "progress", "SECONDS", PROGRESS).value_parser(clap::value_parser!(u32).range(
        0..=3_600,
    ))
}

// The option of how many clients may edit: a whole number from 0 to 64.
fn seats_arg<'a>(alloc: Global) -> Arg<'a>
    ensures rule { rule_of result ≡ Spec.seats_rule }
    ensures local { result.global ≡ false }
{
    let any = clap::value_parser!(u32);
    value_arg(alloc, "seats", "CLIENTS", SEATS).value_parser(any.range(0..=64))
}

// The option of how many clients there may be at a time: a whole number from 1 to 64.
fn viewers_arg<'a>(alloc: Global) -> Arg<'a>
    ensures rule { rule_of result ≡ Spec.viewers_rule }
    ensures local { result.global ≡ false }
{
    value_arg(alloc, "viewers", "CLIENTS", VIEWERS).value_parser(clap::value_parser!(u32).range(
        1..=64,
    ))
}

// A subcommand with these options, which have every name.
fn with_options<'a>(
    alloc: Global,
    bare: Command<'a>,
    options: &[SettingOption],
    texts: &'a [String],
) -> Result<Command<'a>, Error>
    requires bare { app_of bare ≡ Spec.sub_up_to (app_of bare).top.name 0 }
    requires local { (fields_of bare).has_globals ≡ false }
    requires named { map (λ o. o.name.now) options.now ≡ Spec.names }
    requires texts { length texts.now ≡ length options.now }
    ensures shape { IfOk result
        (λ r. app_of r ≡ Spec.sub_up_to (app_of bare.entry).top.name (length options.now)) }
    ensures local { IfOk result (λ r. (fields_of r).has_globals ≡ false) }
    ensures memory { IfErr result (λ e. kind_of e ≡ ErrorKind.OutOfMemory) }
{
    let mut command = bare;
    for (i, option) in options.iter().enumerate() {
        command = command.arg(arg_of(alloc, option, texts[i].as_str()))?;
    }
    Ok(command)
}

// A subcommand, with each setting as an option.
fn subcommand<'a>(
    alloc: Global,
    name: &'a str,
    about: &'a str,
    texts: &'a [String],
) -> Result<Command<'a>, Error>
    requires { length texts.now ≡ 15 }
    ensures shape { IfOk result (λ r. app_of r ≡ Spec.sub_up_to name.now 15) }
    ensures local { IfOk result (λ r. (fields_of r).has_globals ≡ false) }
    ensures memory { IfErr result (λ e. kind_of e ≡ ErrorKind.OutOfMemory) }
{
    let bare = Command::new(alloc, name)
        .about(about)
        .after_help(RULES)
        .next_line_help(true);
    with_options(alloc, bare, &OPTIONS, texts)
}

// The subcommand of a session, with each setting, the number of workers, and how often it is told how
// far a settle is, as options.
fn run_command<'a>(alloc: Global, texts: &'a [String]) -> Result<Command<'a>, Error>
    requires { length texts.now ≡ 15 }
    ensures shape { IfOk result (λ r. app_of r ≡ Spec.run_command) }
    ensures local { IfOk result (λ r. (fields_of r).has_globals ≡ false) }
    ensures memory { IfErr result (λ e. kind_of e ≡ ErrorKind.OutOfMemory) }
{
    let command = subcommand(alloc, "run", RUN, texts)?.arg(workers_arg(alloc, WORKERS))?;
    Ok(command.arg(progress_arg(alloc))?)
}

// The subcommand of a service, with each setting and the numbers of seats, of clients and of workers as
// options.
fn serve_command<'a>(alloc: Global, texts: &'a [String]) -> Result<Command<'a>, Error>
    requires { length texts.now ≡ 15 }
    ensures shape { IfOk result (λ r. app_of r ≡ Spec.serve_command) }
    ensures local { IfOk result (λ r. (fields_of r).has_globals ≡ false) }
    ensures memory { IfErr result (λ e. kind_of e ≡ ErrorKind.OutOfMemory) }
{
    let seated = subcommand(alloc, "serve", SERVE, texts)?.arg(seats_arg(alloc))?;
    let viewed = seated.arg(viewers_arg(alloc))?;
    Ok(viewed.arg(workers_arg(alloc, SERVE_WORKERS))?)
}

// The whole command line, of which these are the subcommands.
fn program<'a>(
    alloc: Global,
    run: Command<'a>,
    replay: Command<'a>,
    serve: Command<'a>,
) -> Result<Command<'a>, AllocError>
    requires run { app_of run ≡ Spec.run_command }
    requires local { (fields_of run).has_globals ≡ false }
    requires replay { app_of replay ≡ Spec.sub_up_to (codes "replay") 15 }
    requires local_too { (fields_of replay).has_globals ≡ false }
    requires serve { app_of serve ≡ Spec.serve_command }
    requires local_as_well { (fields_of serve).has_globals ≡ false }
    ensures { IfOk result (λ r. app_of r ≡ Spec.program) }
{
    Command::new(alloc, "crewprice")
        .about(
            "Prices crew pairings for column generation: the legal pairing of least reduced cost, by an incremental resource-constrained shortest path, again after each change of flights and dual prices",
        )
        .version(VERSION)
        .subcommand_required(true)
        .disable_help_subcommand(true)
        .subcommand(run)?
        .subcommand(replay)?
        .subcommand(serve)
}

// What a subcommand of this name asks for.
fn task_named(name: &str, found: &ArgMatches<'_>) -> Task
    ensures { result ≡ Spec.task_named name.now (rows_of (found_of found.now)) }
{
    let settings = settings_from(found);
    if name == "replay" {
        Task::Replay(settings)
    } else if name == "serve" {
        Task::Serve(settings, hosting_from(found))
    } else {
        Task::Run(settings, sharing_from(found))
    }
}

// What the subcommand that was found asks for.
fn task_found(matches: &ArgMatches<'_>) -> Task
    ensures { result ≡ Spec.task_by (subcommand_rows_of matches.now) }
{
    match matches.subcommand() {
        Some((name, found)) => task_named(name, found),
        None => Task::Run(Settings::standard(), Sharing::ALONE),
    }
}

// The whole command line with these texts of the options.
fn program_with<'a>(alloc: Global, texts: &'a [String]) -> Result<Command<'a>, Error>
    requires { length texts.now ≡ 15 }
    ensures shape { IfOk result (λ r. app_of r ≡ Spec.program) }
    ensures memory { IfErr result (λ e. kind_of e ≡ ErrorKind.OutOfMemory) }
{
    let run = run_command(alloc, texts)?;
    let replay = subcommand(alloc, "replay", REPLAY, texts)?;
    let serve = serve_command(alloc, texts)?;
    Ok(program(alloc, run, replay, serve)?)
}

// What these words ask for, by a command line with these texts.
fn read_with<S: AsStr>(alloc: Global, words: &[S], texts: &[String]) -> Result<Task, Error>
    requires { length texts.now ≡ 15 }
    ensures task { IfOk result (λ task. task ≡ Spec.task_of (map S.text words.now)) }
    ensures fails { FailsBy (Spec.faults_in (map S.text words.now)) result }
{
    let matches = program_with(alloc, texts)?.try_get_matches_from(words)?;
    Ok(task_found(&matches))
}

/// What these words ask for, of which the first is the program's own name; or the parser's error,
/// which is a fault in the words, their request for help or the version, or want of memory.
pub fn read_words<S: AsStr>(alloc: Global, words: &[S]) -> Result<Task, Error>
    ensures task { IfOk result (λ task. task ≡ Spec.task_of (map S.text words.now)) }
    ensures fails { FailsBy (Spec.faults_in (map S.text words.now)) result }
{
    let texts = help_texts(alloc, &OPTIONS)?;
    read_with(alloc, words, &texts)
}
