//! What the program's words ask for, as `clap` reads them.

ghost use Rattle.std.specs.Prelude.{◌≡◌, ℕ, [], Some, IfErr, IfOk, IsOkAnd, IfSome, IsNone, OnOk, map, option_map, false};
ghost use Rattle.clap.specs.Words.{IsPlainArg, app_of, kind_of, new_rule, rule_of, subcommand_rows_of, with_subcommand};
ghost use Rattle.clap.specs.declared.builder.command.Command.TheViews.{out-Command};
ghost use Rattle.st_words.specs.Words.{AreInOrder, HasLimit, IsFaultOf, IsLimitOf, IsManner, IsOrder, IsRunnable, IsStepLimit, check_app, chosen_by, faults_of, file_app, flag_rule, layout_app, program_app, run_app, stc_app, stc_top, verb_name};

use clap::error::ErrorKind;
use clap::{Arg, ArgAction, ArgMatches, Command, Error};
use std::alloc::{AllocError, Global};
use std::convert::AsStr;

/// The most steps that one scan may be given.
pub const MAX_STEPS: u32 = 10_000_000;

/// The step limit of a scan where the words name none.
pub const DEFAULT_STEPS: u32 = 100_000;

/// The program's version, which `--version` prints after its name.
pub const VERSION: &str = "1.0.0";

/// What is to be done with the source text.
#[derive(Clone, Copy)]
pub enum Verb {
    /// Say whether the text is accepted as the main program, or why not.
    Check,
    /// List the leaves of the main program, or say why the text isn't accepted.
    Layout,
    /// Load the main program and run a session over it.
    Run,
}

/// What the words ask for.
#[derive(Clone, Copy)]
pub struct Order<'a> {
    pub verb: Verb,
    /// The path of the source text.
    pub file: &'a str,
    /// The name of the main program.
    pub main: &'a str,
    /// The step limit of a scan, from 1 to 10,000,000. Only `run` can be given one.
    pub steps: u32,
}

/// What the words say beside the order: how much people are told on standard error.
#[derive(Clone, Copy)]
pub struct Manner {
    /// Nothing of what is refused: `--quiet`.
    pub quiet: bool,
    /// All faults of a text, at most a hundred, and not the first alone: `--all`, which `check` takes.
    pub all: bool,
}

/// The examples, the exit statuses and the manuals, at the end of the help.
const AFTER_HELP: &str = "\
Examples:
  stc check tank.st --program Main
  stc run tank.st --program Main < tank.session

Exit status:
  0  every line was accepted
  1  the text is refused
  2  the words of the command line are wrong
  3  some line was refused, or a fault ended some scan
  4  reading or writing failed
  5  there was no memory

`stc help COMMAND` says what a command takes.
Manuals: `man stc`; and LANGUAGE.md, SESSIONS.md and REFUSALS.md, in docs/ or in share/doc/stc";

/// The order that the words give, of which the first is the program's own name. An error is a
/// request for help or for the version, a fault of usage, or want of memory.
pub fn read_words<'a, S: AsStr>(alloc: Global, words: &'a [S]) -> Result<Order<'a>, Error>
    ensures order { IfOk result (λ order. IsOrder order (chosen_by (map S.text words.entry.now))) }
    ensures faultless { OnOk result (faults_of (map S.text words.entry.now) ≡ []) }
    ensures fault { IfErr result (IsFaultOf (map S.text words.entry.now)) }

    // Words that are in order are refused for want of memory alone.
    ensures memory { IfErr result
        (λ error. AreInOrder (map S.text words.entry.now) → kind_of error ≡ ErrorKind.OutOfMemory) }
{
    match read_order(alloc, words) {
        Ok((order, _)) => Ok(order),
        Err(error) => Err(error),
    }
}

/// The order that the words give, as `read_words` reads it, and what they say beside it.
pub fn read_order<'a, S: AsStr>(alloc: Global, words: &'a [S]) -> Result<(Order<'a>, Manner), Error>
    ensures order { IfOk result
        (λ given. IsOrder given.0 (chosen_by (map S.text words.entry.now))) }
    ensures manner { IfOk result
        (λ given. IsManner given.1 (chosen_by (map S.text words.entry.now))) }
    ensures faultless { OnOk result (faults_of (map S.text words.entry.now) ≡ []) }
    ensures fault { IfErr result (IsFaultOf (map S.text words.entry.now)) }
    ensures memory { IfErr result
        (λ error. AreInOrder (map S.text words.entry.now) → kind_of error ≡ ErrorKind.OutOfMemory) }
{
    let mut command = stc_command(alloc)?;
    order_by(alloc, &mut command, words)
}

/// The order that the words give the command line, and what they say beside it.
fn order_by<'a, S: AsStr>(
    alloc: Global,
    command: &mut Command<'a>,
    words: &'a [S],
) -> Result<(Order<'a>, Manner), Error>
    requires { app_of command.old ≡ stc_app }
    ensures order { IfOk result
        (λ given. IsOrder given.0 (chosen_by (map S.text words.entry.now))) }
    ensures manner { IfOk result
        (λ given. IsManner given.1 (chosen_by (map S.text words.entry.now))) }
    ensures faultless { OnOk result (faults_of (map S.text words.entry.now) ≡ []) }
    ensures fault { IfErr result (IsFaultOf (map S.text words.entry.now)) }
    ensures memory { IfErr result
        (λ error. AreInOrder (map S.text words.entry.now) → kind_of error ≡ ErrorKind.OutOfMemory) }
{
    let matches = command.try_get_matches_from_mut(words)?;
    match order_in(&matches) {
        Some(order) => Ok((order, manner_in(&matches))),
        None => Err(limit_error(alloc)?),
    }
}

/// Says that a step limit is none, with the usage of `run`.
fn limit_error(alloc: Global) -> Result<Error, AllocError>
    ensures { IfOk result (λ error. kind_of error ≡ ErrorKind.ValueValidation) }
{
    let mut command = run_command(alloc)?.bin_name("stc run")?;
    command.error(
        ErrorKind::ValueValidation,
        "K of '--steps <K>' is a number from 1 to 10000000",
    )
}

/// The command line of the whole program.
fn stc_command<'a>(alloc: Global) -> Result<Command<'a>, AllocError>
    ensures { IfOk result (λ command. app_of command ≡ stc_app) }
{
    let bare = bare_command(alloc)?;
    let checking = with(bare, check_command(alloc))?;
    let of_texts = with(checking, layout_command(alloc))?;
    with(of_texts, run_command(alloc))
}

/// The command with a subcommand, where that could be made.
fn with<'a>(
    command: Command<'a>,
    subcommand: Result<Command<'a>, AllocError>,
) -> Result<Command<'a>, AllocError>
    requires { IfOk subcommand (λ it. (out-Command it).has_globals ≡ false) }
    ensures { IfOk result (λ new. IsOkAnd subcommand.entry
        (λ it. app_of new ≡ with_subcommand (app_of command.entry) (app_of it).top)) }
{
    command.subcommand(subcommand?)
}

/// The program's own settings, and its name.
fn bare_command<'a>(alloc: Global) -> Result<Command<'a>, AllocError>
    ensures { IfOk result (λ command. app_of command ≡ stc_top) }
{
    Command::new(alloc, "stc")
        .about("A soft controller for programs in Structured Text.")
        .version(VERSION)
        .subcommand_required(true)
        .disable_help_subcommand(true)
        .after_help(AFTER_HELP)
        .bin_name("stc")
}

/// `check FILE --program N [--all]`
fn check_command<'a>(alloc: Global) -> Result<Command<'a>, AllocError>
    ensures app { IfOk result (λ command. app_of command ≡ check_app) }
    ensures local { IfOk result (λ command. (out-Command command).has_globals ≡ false) }
{
    let about = "Say whether the program is accepted, or why not.";
    file_command(alloc, "check", about)?.arg(flag(alloc, "all").help(
        "Tell all faults of the text, at most 100",
    ))
}

/// `layout FILE --program N`
fn layout_command<'a>(alloc: Global) -> Result<Command<'a>, AllocError>
    ensures app { IfOk result (λ command. app_of command ≡ layout_app) }
    ensures local { IfOk result (λ command. (out-Command command).has_globals ≡ false) }
{
    file_command(
        alloc,
        "layout",
        "List the program's leaves, each with its place, its width and its type.",
    )
}

/// `run FILE --program N [--steps K]`
fn run_command<'a>(alloc: Global) -> Result<Command<'a>, AllocError>
    ensures app { IfOk result (λ command. app_of command ≡ run_app) }
    ensures local { IfOk result (λ command. (out-Command command).has_globals ≡ false) }
{
    let about = "Run a session over the program on standard input and output.";
    file_command(alloc, "run", about)?.arg(option(alloc, "steps", "K").help(
        "The most steps of one scan, from 1 to 10000000; 100000 where it isn't given",
    ))
}

/// A subcommand that takes FILE, `--program N` and `--quiet`, and what is said of it.
fn file_command<'a>(alloc: Global, name: &'a str, about: &'a str) -> Result<Command<'a>, AllocError>
    ensures app { IfOk result (λ command. app_of command ≡ file_app name.entry.now) }
    ensures local { IfOk result (λ command. (out-Command command).has_globals ≡ false) }
{
    program_command(alloc, name, about)?.arg(flag(alloc, "quiet").help(
        "Explain nothing on standard error",
    ))
}

/// A subcommand that takes FILE and `--program N`, and what is said of it.
fn program_command<'a>(
    alloc: Global,
    name: &'a str,
    about: &'a str,
) -> Result<Command<'a>, AllocError>
    ensures app { IfOk result (λ command. app_of command ≡ program_app name.entry.now) }
    ensures local { IfOk result (λ command. (out-Command command).has_globals ≡ false) }
{
    Command::new(alloc, name)
        .about(about)
        .arg(
            Arg::new(alloc, "FILE")
                .help("The source text")
                .required(true),
        )?
        .arg(
            option(alloc, "program", "N")
                .help("The name of the main program")
                .required(true),
        )
}

/// The option `--NAME VALUE`, which may be left out.
fn option<'a>(alloc: Global, name: &'a str, value: &'a str) -> Arg<'a>
    ensures id { result.id ≡ name.entry }
    ensures rule { rule_of result
        ≡ record (new_rule name.entry.now) { long = Some name.entry.now; value_names = 1 } }
    ensures plain { IsPlainArg result }
    ensures local { result.global ≡ false }
{
    Arg::new(alloc, name).long(name).value_name(value)
}

/// The option `--NAME`, which takes no value and may be left out.
fn flag<'a>(alloc: Global, name: &'a str) -> Arg<'a>
    ensures id { result.id ≡ name.entry }
    ensures rule { rule_of result ≡ flag_rule name.entry.now }
    ensures plain { IsPlainArg result }
    ensures local { result.global ≡ false }
{
    Arg::new(alloc, name).long(name).action(ArgAction::SetTrue)
}

/// What the subcommand's matches say beside the order.
fn manner_in(matches: &ArgMatches<'_>) -> Manner
    ensures { IsManner result (subcommand_rows_of matches.now) }
{
    match matches.subcommand() {
        Some((_name, inner)) => Manner {
            quiet: inner.get_flag("quiet"),
            all: inner.get_flag("all"),
        },
        None => Manner {
            quiet: false,
            all: false,
        },
    }
}

/// The order that the subcommand and its matches give.
fn order_in<'a>(matches: &ArgMatches<'a>) -> Option<Order<'a>>
    ensures some { IfSome result (λ order. IsOrder order (subcommand_rows_of matches.now)) }
    ensures none { IsNone result → ¬ IsRunnable (subcommand_rows_of matches.now) }
{
    let (name, inner) = matches.subcommand()?;
    let verb = verb_named(name)?;
    let file = inner.get_str("FILE")?;
    let main = inner.get_str("program")?;
    let steps = step_limit(inner.get_str("steps"))?;
    Some(Order {
        verb,
        file,
        main,
        steps,
    })
}

/// The verb of this name.
fn verb_named(name: &str) -> Option<Verb>
    ensures some { IfSome result (λ verb. name.now ≡ verb_name verb) }
    ensures none { IsNone result → (verb : Verb) → ¬ (name.now ≡ verb_name verb) }
{
    match name {
        "check" => Some(Verb::Check),
        "layout" => Some(Verb::Layout),
        "run" => Some(Verb::Run),
        _ => None,
    }
}

/// The step limit that K gives, or the default where K is not given.
fn step_limit(given: Option<&str>) -> Option<u32>
    ensures some { IfSome result (IsLimitOf (option_map (λ text. text.now) given.entry)) }
    ensures none { IsNone result → ¬ HasLimit (option_map (λ text. text.now) given.entry) }
{
    match given {
        Some(text) => number_in_range(text),
        None => Some(DEFAULT_STEPS),
    }
}

/// The number that the text writes, where it is a step limit.
fn number_in_range(text: &str) -> Option<u32>
    ensures some { IfSome result (IsStepLimit text.now) }
    ensures none { IsNone result → (steps : ℕ) → ¬ IsStepLimit text.now steps }
{
    let steps: u32 = text.parse().ok()?;
    if 1 <= steps && steps <= MAX_STEPS {
        Some(steps)
    } else {
        None
    }
}
