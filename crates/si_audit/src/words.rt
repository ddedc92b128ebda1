//! The options that the words of the command line choose.
ghost use Rattle.std.specs.Prelude.{◌≡◌, ◌≢◌, ◌<◌, ◌∷◌, [], false, Err, IfErr, IfOk, IsSomeAnd, Some, map, string_bytes};
ghost use Rattle.clap.specs.Words.{IsUnsignedIn, app_of, first_of, found_of, kind_of, new_rule, rows_of, rule_of};
ghost use Rattle.clap.specs.declared.builder.action.ArgAction.TheVariants.{Set};
ghost use Rattle.clap.specs.declared.error.kind.ErrorKind.TheVariants.{OutOfMemory};
ghost use Rattle.si_audit.specs.Words.{HasNumbers, IsOwed, GivesOptions, StandsInTheWay, cuts_among, level_among, number_among, AreChosen, ChooseNoLevel, ChooseTooManyCuts, number_in, program};
ghost use Rattle.si_audit.specs.declared.words.LineFault.TheVariants.{NoMemory};

use crate::options::{Form, Level, Options, OptionsFault};
use clap::builder::ValueParser;
use clap::error::ErrorKind;
use clap::{Arg, ArgAction, ArgMatches, Command, Error};
use sia_events::{Key, Limits};
use std::alloc::{AllocError, Global};

/// The version, and the identity of the kit whose prover has checked it.
const VERSION: &str = "0.2.0 (Rattle logic dac8208d650f15bf)";

const ABOUT: &str = "Audits a history that a multiversion store recorded. Was snapshot isolation
kept, and does a serial order explain the committed transactions? The history
is read from standard input, and the report is written to standard output.";

/// What is told where a word stands in the place of a cut and is no number: mostly it is the name of a file.
const FILE_HINT: &str = "A history is read from standard input: si_audit <FILE\n";

const CUTS_HELP: &str = "A key at which a part starts, from 0 to 18446744073709551615";

const BRIEF_HELP: &str = "Leaves out the lines of edges and pivots";

const EXPLAIN_HELP: &str = "The brief report with reasons: the events that show each finding";

const WORKERS_HELP: &str = "How many workers audit the parts, from 1 to 64";

const EVENTS_HELP: &str = "How many events a text may have, up to 500000000";

const BYTES_HELP: &str = "How many bytes a text may have, up to 17179869184 (16 GiB)";

const CHECK_HELP: &str = "What status 0 says was kept: serializable, ssi, si or gsi";

const MORE_HELP: &str =
    "The keys are cut into parts, which the workers audit side by side. Without a
CUT there is one part. Cuts come in any order; 0 and repeats change nothing,
and at most 1023 others may be given. No cut and no number of workers changes
the report.

Levels:
  serializable  isolation was kept, and some serial order replays the history
  ssi           the test of serializable snapshot isolation is passed, too
  si            isolation was kept
  gsi           some snapshot fits each transaction, be it older than its start

A text that has more than the most events or bytes is refused. Greater limits
change no report of a text that smaller ones accept.

Exit status:
  0  the history meets the level
  1  the history falls short of the level
  2  the command line was refused
  3  the text is no history; the one line of the report says why
  4  reading or writing failed, or memory ran out; standard error says which

Examples:
  si_audit <run.history
  printf 'w1[1] r2[1:1] c2 a1' | si_audit
  si_audit --brief --check si <run.history
  si_audit --workers 8 1000 2000 3000 <run.history >run.report
  si_audit --brief --max-events 10000000 --max-bytes 400000000 <run.history";

/// Why the words give no options.
#[derive(Drop)]
pub enum LineFault {
    /// A growth was refused.
    NoMemory,
    /// More than 1,023 distinct cuts that aren't 0.
    TooManyCuts,
    /// There is no level of the name that the words give.
    UnknownLevel,
    /// The words ask for help. This is its text.
    Help(String),
    /// The words are none that the program takes. This is what to tell the user.
    Usage(String),
}

impl From<AllocError> for LineFault {
    ghost from_gives = { λ _ fault. fault ≡ NoMemory };

    fn from(_refused: AllocError) -> LineFault {
        LineFault::NoMemory
    }
}

/// The options that the program's words give, its name first.
pub fn options_from(alloc: Global, words: &[String]) -> Result<Options, LineFault>
    ensures chosen { IfOk result (AreChosen (map string_bytes words.now)) }
    ensures too_many { result ≡ Err LineFault.TooManyCuts → ChooseTooManyCuts (map string_bytes words.now) }
    ensures no_level { result ≡ Err LineFault.UnknownLevel → ChooseNoLevel (map string_bytes words.now) }
    // Help and usage are told only of words that the command doesn't take.
    ensures fault { IfErr result (IsOwed (map string_bytes words.now)) }
{
    match command(alloc)?.try_get_matches_from(words) {
        Ok(matches) => options_of(alloc, &matches),
        Err(error) => Err(told(alloc, &error)),
    }
}

/// The one command of the program. Its arguments are added at once: each one that is added by itself may fail by itself.
fn command<'a>(alloc: Global) -> Result<Command<'a>, AllocError>
    ensures { IfOk result (λ c. app_of c ≡ program) }
{
    let cuts = Arg::new(alloc, "cut")
        .value_name("CUT")
        .action(ArgAction::Append)
        .help(CUTS_HELP)
        .value_parser(ValueParser::Unsigned(0, u64::MAX));
    let arguments = vec![in alloc;
        option(alloc, "workers", "N", "4", WORKERS_HELP).value_parser(ValueParser::Unsigned(1, 64)),
        cuts,
        named(alloc, "brief", ArgAction::Count, BRIEF_HELP),
        named(alloc, "explain", ArgAction::Count, EXPLAIN_HELP),
        option(alloc, "check", "LEVEL", "serializable", CHECK_HELP),
        option(alloc, "max-events", "N", "100000", EVENTS_HELP).value_parser(ValueParser::Unsigned(
            1,
            500_000_000
        )),
        option(alloc, "max-bytes", "N", "16777216", BYTES_HELP).value_parser(ValueParser::Unsigned(
            1,
            17_179_869_184
        )),
    ]?;
    Command::new(alloc, "si_audit")
        .version(VERSION)
        .about(ABOUT)
        .after_help(MORE_HELP)
        .args(arguments)
}

fn option<'a>(
    alloc: Global,
    name: &'a str,
    value: &'a str,
    usual: &'a str,
    help: &'a str,
) -> Arg<'a>
    ensures rule { rule_of result ≡ record (new_rule name.now) {
      long = Some name.now;
      action = Some Set;
      value_names = 1;
      defaults = usual.now ∷ [];
    } }
    ensures local { result.global ≡ false }
{
    named(alloc, name, ArgAction::Set, help)
        .value_name(value)
        .default_value(usual)
}

fn named<'a>(alloc: Global, name: &'a str, action: ArgAction, help: &'a str) -> Arg<'a>
    ensures rule { rule_of result ≡ record (new_rule name.now) {
      long = Some name.now;
      action = Some action;
    } }
    ensures local { result.global ≡ false }
{
    Arg::new(alloc, name).long(name).action(action).help(help)
}

/// What the program says in place of options.
fn told(alloc: Global, error: &Error) -> LineFault
    ensures memory { kind_of error.now ≡ OutOfMemory → result ≡ LineFault.NoMemory }
    ensures cuts { result ≢ LineFault.TooManyCuts }
    ensures level { result ≢ LineFault.UnknownLevel }
{
    if error.kind() == ErrorKind::OutOfMemory {
        return LineFault::NoMemory;
    }
    let Ok(mut text) = error.to_string(alloc) else {
        return LineFault::NoMemory;
    };
    if !error.use_stderr() {
        return LineFault::Help(text);
    }
    if text.as_str().contains("for '[CUT]...'") && text.insert_str(0, FILE_HINT).is_err() {
        return LineFault::NoMemory;
    }
    LineFault::Usage(text)
}

fn options_of(alloc: Global, matches: &ArgMatches<'_>) -> Result<Options, LineFault>
    requires { HasNumbers (rows_of (found_of matches.now)) }
    ensures given { IfOk result (GivesOptions (rows_of (found_of matches.now))) }
    ensures fault { IfErr result (StandsInTheWay (rows_of (found_of matches.now))) }
{
    let Some(level) = level_in(matches) else {
        return Err(LineFault::UnknownLevel);
    };
    let form = if matches.get_count("explain") != 0 {
        Form::Explained
    } else if matches.get_count("brief") == 0 {
        Form::Full
    } else {
        Form::Brief
    };
    let workers = number_of(matches, "workers") as u8;
    let events = number_of(matches, "max-events");
    let bytes = number_of(matches, "max-bytes");
    let cuts = cuts_in(alloc, matches)?;
    match Options::new(alloc, workers, cuts.as_slice()) {
        Ok(options) => Ok(
            options
                .with_form(form)
                .with_level(level)
                .with_limits(Limits::new(events, bytes).unwrap()),
        ),
        Err(OptionsFault::TooManyCuts) => Err(LineFault::TooManyCuts),
        Err(OptionsFault::NoMemory) => Err(LineFault::NoMemory),
        Err(OptionsFault::Workers) => unreachable!(),
    }
}

fn level_in(matches: &ArgMatches<'_>) -> Option<Level>
    ensures { result ≡ level_among (rows_of (found_of matches.now)) }
{
    match matches.get_str("check")? {
        "serializable" => Some(Level::Serializable),
        "ssi" => Some(Level::Ssi),
        "si" => Some(Level::Si),
        "gsi" => Some(Level::Gsi),
        _ => None,
    }
}

fn cuts_in(alloc: Global, matches: &ArgMatches<'_>) -> Result<Vec<Key>, AllocError>
    requires { HasNumbers (rows_of (found_of matches.now)) }
    ensures { IfOk result (λ cuts. cuts.items ≡ cuts_among (rows_of (found_of matches.now))) }
{
    let Some(texts) = matches.get_strs("cut") else {
        return Ok(Vec::new(alloc));
    };
    let mut cuts = Vec::new(alloc);
    for text in texts {
        cuts.push(number(text))?;
    }
    Ok(cuts)
}

/// The number that the option of that name has.
fn number_of(matches: &ArgMatches<'_>, name: &str) -> u64
    requires { IsSomeAnd (first_of name.now (rows_of (found_of matches.now)))
        (IsUnsignedIn 1 18446744073709551615) }
    ensures { result ≡ number_among name.now (rows_of (found_of matches.now)) }
{
    number(matches.get_str(name).unwrap())
}

fn number(text: &str) -> u64
    requires { IsUnsignedIn 0 18446744073709551615 text.now }
    ensures { result ≡ number_in text.now }
{
    text.parse().unwrap()
}
