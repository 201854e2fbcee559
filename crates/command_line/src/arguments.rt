//! The command line.

ghost use Rattle.std.specs.Prelude.{◌≡◌, ◌↔◌, codes, IfOk, IsTrue, Some};
ghost use Rattle.std.specs.Option.{is_some};
ghost use Rattle.clap.specs.Words.{app_of, first_of, found_of, one_of, rows_of, subcommand_rows_of, with_subcommand};
ghost use Rattle.command_line.specs.CommandLine.{IsAsked, IsDone, IsLocal, IsNumberThere, IsRead, app_for, file, files, flag, kendo, named, number, option, rule_for, whole};

use clap::{Arg, ArgAction, ArgMatches, Command, value_parser};
use std::alloc::{AllocError, Global};

/// The version of the program.
const VERSION: &str = "0.1.0";

/// The end of the help text: errors, exit statuses and the environment.
const STATUSES: &str =
    "FILE is a source file, or - for standard input. If standard error is a terminal, every command explains, as with\n\
--explain. KENDO_EXPLAIN=1 in the environment turns this on everywhere, KENDO_EXPLAIN=0 turns it off.\n\n\
Errors in a program are reported by number and place: 1 TooLong, 2 NotUtf8, 3 BadCharacter, 4 BadNumber,\n\
5 OpenString, 6 OpenComment, 7 Syntax, 8 TooDeep, 9 Type rule R (1 to 20), 10 Limit kind K (1 to 6). --explain\n\
describes them. docs/LANGUAGE.md lists the rules and the limits.\n\n\
Exit status:\n  \
0   the program finished, or was checked, listed, drawn or shown\n  \
1   the program has an error, or a test failed\n  \
2   the program panicked, for a reason P1 to P9\n  \
3   deadlock: every goroutine waits\n  \
4   the limit of logical time was reached\n  \
5   out of memory (13)\n  \
6   an output could not be written (14)\n  \
8   some order of events ends in a deadlock or a panic or prints other lines, or a run is not the recorded one\n  \
9   not all orders were searched, with --whole\n  \
64  the command line, a number of workers (15), a limit (16) or a file can't be used";

/// A command line that was accepted: what is done with which files.
#[derive(Clone, Copy)]
pub struct Invocation<'m, 'a> {
    /// The path of the source file, as it was typed; the first one if there are several. `-` is standard input.
    pub file: &'a str,
    /// The paths of all source files, as they were typed, `file` first. Only `check` and `test` take several.
    pub files: &'m [&'a str],
    /// The path of the trace file, as it was typed.
    pub trace: Option<&'a str>,
    /// The path of the file that the values of a trace go to, as it was typed.
    pub values: Option<&'a str>,
    /// The path of the file with the plan of pauses, as it was typed.
    pub pauses: Option<&'a str>,
    /// The path of the file with the trace that a run is compared with, as it was typed.
    pub against: Option<&'a str>,
    /// Whether that is compared byte by byte.
    pub strict: bool,
    /// The path of the picture's file, as it was typed.
    pub out: Option<&'a str>,
    /// The number of the first event that a picture shows, counted from 1.
    pub from: Option<u64>,
    /// How many events a picture shows, of the last ones of the run.
    pub last: Option<u64>,
    /// The number of the event at which a run is inspected, counted from 1.
    pub event: Option<u64>,
    /// The clock at which a run is inspected.
    pub at: Option<u64>,
    /// How many seconds a search of other orders takes at most.
    pub seconds: Option<u64>,
    /// Whether outputs of other orders don't count.
    pub ends: bool,
    /// Whether the order of lines doesn't count, as is the default.
    pub unordered: bool,
    /// Whether the order of lines counts.
    pub ordered: bool,
    /// Whether goroutines that wait for good when `main` has returned count.
    pub leaks: bool,
    /// Whether the exit status reports that an exploration did not search all orders.
    pub whole: bool,
    /// Whether a test searches other orders.
    pub orders: bool,
    /// Whether the comments of tests are rewritten to what the programs print.
    pub update: bool,
    /// Whether what is found is reported as JSON, an object a line.
    pub json: bool,
    /// Whether errors in the program and the end of its run are explained.
    pub explains: bool,
    /// Whether `--explain` was typed.
    pub asks_to_explain: bool,
    /// What is done with the program.
    pub subcommand: Subcommand,
}

/// What is done with a program.
#[derive(Clone, Copy)]
pub enum Subcommand {
    /// It is checked.
    Check,
    /// Its code is listed.
    List,
    /// Its source is interpreted.
    Reference {
        /// The last logical time; the interpreter judges whether it is 1 to 2^62.
        limit: u64,
    },
    /// A picture is made of its run.
    Timeline {
        /// The last logical time; the recording judges whether it is 1 to 2^62.
        limit: u64,
    },
    /// Other orders of its events are searched.
    Explore {
        /// The last logical time of the runs that show ends; the exploration judges whether it is 1 to 2^62.
        limit: u64,
        /// How many walks are made at random.
        tries: u64,
        /// How many states are visited at most.
        states: u64,
    },
    /// It is tested.
    Test {
        /// The last logical time of the run; the test judges whether it is 1 to 2^62.
        limit: u64,
        /// How many walks are made at random, if other orders are searched.
        tries: u64,
        /// How many states are visited at most, if other orders are searched.
        states: u64,
    },
    /// Its goroutines and channels are shown at a moment of its run.
    Inspect {
        /// The last logical time; the interpreter judges whether it is 1 to 2^62.
        limit: u64,
    },
    /// Its source is interpreted by a plan of pauses.
    Paused {
        /// How many workers `run` names; the program judges whether it is 1 to 64. 1 for `reference`, which has one thread.
        workers: u64,
        /// The last logical time; the interpreter judges whether it is 1 to 2^62.
        limit: u64,
    },
    /// It is run.
    Run {
        /// How many workers; the run judges whether it is 1 to 64.
        workers: u64,
        /// The last logical time; the run judges whether it is 1 to 2^62.
        limit: u64,
    },
}

/// An argument of a command.
#[derive(Clone, Copy)]
enum Argument {
    /// The source file.
    File,
    /// The source files, one or more.
    Files,
    /// How many workers there are.
    Workers,
    /// The last logical time.
    Limit,
    /// The file that the trace of a run goes to.
    Trace,
    /// The file that the values of a trace go to.
    Values,
    /// The file with the plan of pauses by which a program is run.
    Pauses,
    /// The file with the trace that a run is compared with.
    Against,
    /// Whether that is compared byte by byte.
    Strict,
    /// The number of the first event that a picture shows.
    From,
    /// How many of the last events a picture shows.
    Last,
    /// The number of the event at which a run is inspected.
    Event,
    /// The clock at which a run is inspected.
    At,
    /// The file that a picture of a run goes to.
    Out,
    /// The folder that plans go to.
    Folder,
    /// How many walks are made at random.
    Tries,
    /// How many states are visited at most.
    States,
    /// How many seconds a search of other orders takes at most.
    Seconds,
    /// Whether outputs of other orders don't count.
    Ends,
    /// Whether the order of lines doesn't count, as is the default.
    Unordered,
    /// Whether the order of lines counts.
    Ordered,
    /// Whether goroutines that wait for good when `main` has returned count.
    Leaks,
    /// Whether the exit status reports that an exploration did not search all orders.
    Whole,
    /// Whether a test searches other orders.
    Orders,
    /// Whether the comments of tests are rewritten.
    Update,
    /// Whether what is found is reported as JSON.
    Json,
    /// Whether errors and ends are explained.
    Explain,
}

/// A command that takes source files.
#[derive(Clone, Copy)]
struct TextCommand {
    /// Its name.
    name: &'static str,
    /// Its line in the help text.
    about: &'static str,
    /// The arguments that it takes, in the order of the help text.
    arguments: &'static [Argument],
    /// The end of its help text: examples.
    example: &'static str,
}

/// The commands, in the order of the help.
const TEXT_COMMANDS: [TextCommand; 8] = [
    TextCommand {
        name: "check",
        about: "Checks programs for errors",
        arguments: &[Argument::Files, Argument::Json, Argument::Explain],
        example: "Examples:\n  kendo check *.go\n  kendo check - < sieve.go\n  kendo check --json sieve.go",
    },
    TextCommand {
        name: "list",
        about: "Lists the code of a program",
        arguments: &[Argument::File, Argument::Explain],
        example: "Examples:\n  kendo list sieve.go\n  kendo list sieve.go | less",
    },
    TextCommand {
        name: "reference",
        about: "Runs a program by interpreting its source",
        arguments: &[
            Argument::File,
            Argument::Limit,
            Argument::Pauses,
            Argument::Explain,
        ],
        example: "Examples:\n  kendo reference sieve.go\n  kendo reference sieve.go --limit 1000000",
    },
    TextCommand {
        name: "timeline",
        about: "Draws a picture of a run",
        arguments: &[
            Argument::File,
            Argument::Limit,
            Argument::From,
            Argument::Last,
            Argument::Pauses,
            Argument::Out,
            Argument::Explain,
        ],
        example: "Examples:\n  kendo timeline stages.go --out stages.svg\n  kendo timeline stages.go --last 100 --out end.svg\n  kendo timeline stages.go --out stages.json",
    },
    TextCommand {
        name: "explore",
        about: "Searches other orders of a program's events that Go allows",
        arguments: &[
            Argument::File,
            Argument::Limit,
            Argument::Tries,
            Argument::States,
            Argument::Seconds,
            Argument::Ends,
            Argument::Ordered,
            Argument::Unordered,
            Argument::Leaks,
            Argument::Whole,
            Argument::Folder,
            Argument::Json,
            Argument::Explain,
        ],
        example: "Examples:\n  kendo explore account.go\n  kendo explore account.go --seconds 10 --ends\n  kendo explore account.go --leaks --out plans",
    },
    TextCommand {
        name: "test",
        about: "Tests programs whose comments say what they print, or how they end",
        arguments: &[
            Argument::Files,
            Argument::Limit,
            Argument::Orders,
            Argument::Tries,
            Argument::States,
            Argument::Seconds,
            Argument::Leaks,
            Argument::Folder,
            Argument::Update,
            Argument::Json,
            Argument::Explain,
        ],
        example: "Of a folder the tests in it are tested, of FOLDER/... those below it too.\n\nExamples:\n  kendo test ./...\n  kendo test --orders --seconds 10 account.go\n  kendo test --update sieve.go",
    },
    TextCommand {
        name: "inspect",
        about: "Shows goroutines and channels at a moment of a run",
        arguments: &[
            Argument::File,
            Argument::Event,
            Argument::At,
            Argument::Limit,
            Argument::Pauses,
            Argument::Explain,
        ],
        example: "Examples:\n  kendo inspect stages.go\n  kendo inspect stages.go --event 20\n  kendo inspect account.go --pauses account.1.pauses",
    },
    TextCommand {
        name: "run",
        about: "Runs a program",
        arguments: &[
            Argument::File,
            Argument::Workers,
            Argument::Limit,
            Argument::Trace,
            Argument::Values,
            Argument::Pauses,
            Argument::Against,
            Argument::Strict,
            Argument::Explain,
        ],
        example: "Examples:\n  kendo run sieve.go\n  kendo run sieve.go --workers 8 --trace sieve.trace\n  kendo run account.go --pauses account.1.pauses",
    },
];

/// The argument that names the source file.
fn file_argument<'a>(alloc: Global) -> Arg<'a>
    ensures { IsRead result file }
{
    Arg::new(alloc, "FILE")
        .help("The source file, or - for standard input")
        .required(true)
        .action(ArgAction::Set)
}

/// The argument that names one source file or more.
fn files_argument<'a>(alloc: Global) -> Arg<'a>
    ensures { IsRead result files }
{
    Arg::new(alloc, "FILE")
        .help("The source files; - is standard input")
        .required(true)
        .action(ArgAction::Append)
        .num_args(1..)
}

/// An option of this name.
fn option_argument<'a>(alloc: Global, name: &'a str, help: &'a str) -> Arg<'a>
    ensures { IsRead result (option name.entry.now) }
{
    Arg::new(alloc, name).long(name).help(help)
}

/// An option with one number, and the number if it is left out.
fn number_argument<'a>(
    alloc: Global,
    name: &'a str,
    value: &'a str,
    help: &'a str,
    default: &'a str,
) -> Arg<'a>
    ensures { IsRead result (number name.entry.now default.entry.now) }
{
    option_argument(alloc, name, help)
        .value_name(value)
        .value_parser(value_parser!(u64))
        .default_value(default)
}

/// An option with one number, which may be left out.
fn whole_argument<'a>(alloc: Global, name: &'a str, value: &'a str, help: &'a str) -> Arg<'a>
    ensures { IsRead result (whole name.entry.now) }
{
    option_argument(alloc, name, help)
        .value_name(value)
        .value_parser(value_parser!(u64))
}

/// An option without a value.
fn flag_argument<'a>(alloc: Global, name: &'a str, help: &'a str) -> Arg<'a>
    ensures { IsRead result (flag name.entry.now) }
{
    option_argument(alloc, name, help).action(ArgAction::SetTrue)
}

/// The argument as words are read with it.
fn argument_of<'a>(alloc: Global, argument: Argument) -> Arg<'a>
    ensures { IsRead result (rule_for argument) }
{
    match argument {
        Argument::File => file_argument(alloc),
        Argument::Files => files_argument(alloc),
        Argument::Workers => number_argument(
            alloc,
            "workers",
            "N",
            "How many worker threads, 1 to 64",
            "4",
        ),
        Argument::Limit => number_argument(
            alloc,
            "limit",
            "L",
            "The last logical time, 1 to 2^62",
            "1099511627776",
        ),
        Argument::Trace => option_argument(
            alloc,
            "trace",
            "Writes each event with its logical time to this file",
        )
        .value_name("TRACE"),
        Argument::Values => option_argument(
            alloc,
            "values",
            "Writes to this file what each event of the trace sends, receives or prints",
        )
        .value_name("VALUES"),
        Argument::Pauses => option_argument(
            alloc,
            "pauses",
            "Runs the program by the plan of pauses in this file, on one thread",
        )
        .value_name("PLAN"),
        Argument::Against => option_argument(
            alloc,
            "against",
            "Compares the run with the trace in this file, goroutine by goroutine",
        )
        .value_name("TRACE"),
        Argument::Strict => flag_argument(
            alloc,
            "strict",
            "With --against, compares the traces byte by byte",
        ),
        Argument::From => whole_argument(
            alloc,
            "from",
            "EVENT",
            "Draws the run from this event on, counted from 1",
        ),
        Argument::Last => whole_argument(alloc, "last", "N", "Draws the last N events of the run"),
        Argument::Event => whole_argument(
            alloc,
            "event",
            "N",
            "Shows the moment after this event, counted from 1",
        ),
        Argument::At => whole_argument(
            alloc,
            "at",
            "CLOCK",
            "Shows the moment after the last event up to this logical time",
        ),
        Argument::Out => option_argument(
            alloc,
            "out",
            "Writes the picture to this file, as JSON if it ends in .json, else as SVG",
        )
        .value_name("OUT"),
        Argument::Folder => option_argument(
            alloc,
            "out",
            "Writes the plans that show other ends to this folder",
        )
        .value_name("DIR"),
        Argument::Tries => number_argument(
            alloc,
            "tries",
            "N",
            "How many walks are made at random",
            "200",
        ),
        Argument::States => number_argument(
            alloc,
            "states",
            "N",
            "How many states are visited at most",
            "1000000",
        ),
        Argument::Seconds => whole_argument(
            alloc,
            "seconds",
            "N",
            "Ends the search after N seconds, with what was found so far",
        ),
        Argument::Ends => flag_argument(
            alloc,
            "ends",
            "Reports deadlocks and panics only, not outputs",
        ),
        Argument::Unordered => flag_argument(
            alloc,
            "unordered",
            "Ignores the order of lines, as is the default",
        ),
        Argument::Ordered => flag_argument(
            alloc,
            "ordered",
            "Tells outputs with the same lines in another order apart",
        ),
        Argument::Leaks => flag_argument(
            alloc,
            "leaks",
            "Counts it as a fault if goroutines wait for good when main has returned",
        ),
        Argument::Whole => flag_argument(
            alloc,
            "whole",
            "Exits with 9 if not all orders were searched",
        ),
        Argument::Orders => flag_argument(
            alloc,
            "orders",
            "Searches other orders too: a test passes only if all that were searched do",
        ),
        Argument::Update => flag_argument(
            alloc,
            "update",
            "Rewrites each output comment to what the program prints",
        ),
        Argument::Json => flag_argument(
            alloc,
            "json",
            "Reports what is found as JSON, an object a line",
        ),
        Argument::Explain => flag_argument(
            alloc,
            "explain",
            "Explains errors in the program, how its run ends, and why a file can't be used",
        ),
    }
}

/// A command that takes source files, as words are read with it.
fn text_command<'a>(alloc: Global, listed: &TextCommand) -> Result<Command<'a>, AllocError>
    ensures app { IfOk result (λ c. app_of c ≡ app_for listed.now) }
    ensures local { IfOk result IsLocal }
{
    let mut command = Command::new(alloc, listed.name)
        .about(listed.about)
        .after_help(listed.example);
    for argument in listed.arguments {
        command = command.arg(argument_of(alloc, *argument))?;
    }
    Ok(command)
}

/// A command that also has this subcommand.
fn extended<'a>(
    alloc: Global,
    command: Command<'a>,
    listed: &TextCommand,
) -> Result<Command<'a>, AllocError>
    ensures { IfOk result (λ c. app_of c ≡ with_subcommand (app_of command.entry) (app_for listed.now).top) }
{
    match text_command(alloc, listed) {
        Ok(subcommand) => command.subcommand(subcommand),
        Err(error) => {
            // A command that goes out of scope is proved to be dropped part by part.
            drop(command);
            Err(error)
        }
    }
}

/// The command that `main` reads its words with.
pub fn command<'a>(alloc: Global) -> Result<Command<'a>, AllocError>
    ensures { IfOk result (λ c. app_of c ≡ kendo) }
{
    let mut command = named_command(alloc);
    for listed in &TEXT_COMMANDS {
        command = extended(alloc, command, listed)?;
    }
    Ok(command)
}

/// Like `command`, but without subcommands, of which one has to be there.
fn named_command<'a>(alloc: Global) -> Command<'a>
    ensures { app_of result ≡ named }
{
    Command::new(alloc, "kendo")
        .about("Compiles and runs programs of a Go subset")
        .version(VERSION)
        .after_help(STATUSES)
        .subcommand_required(true)
}

/// The number that an option has.
fn option_number(matches: &ArgMatches<'_>, name: &str) -> Option<u64>
    ensures { IsNumberThere (one_of name.now (rows_of (found_of matches.now))) result }
{
    matches.get_one::<u64>(name)
}

/// Whether an option without a value is there.
fn is_set(matches: &ArgMatches<'_>, name: &str) -> bool
    ensures { IsTrue result ↔ (first_of name.now (rows_of (found_of matches.now)) ≡ Some (codes "true")) }
{
    match matches.get_str(name) {
        Some(value) => value == "true",
        None => false,
    }
}

/// Whether an option with a value is there.
fn is_named(matches: &ArgMatches<'_>, name: &str) -> bool
    ensures { result ≡ is_some (first_of name.now (rows_of (found_of matches.now))) }
{
    matches.get_str(name).is_some()
}

/// What the command of a name does, with the values that it has.
fn subcommand_named(name: &str, matches: &ArgMatches<'_>) -> Option<Subcommand>
    ensures { IsDone name.now (rows_of (found_of matches.now)) result }
{
    let workers = option_number(matches, "workers");
    let limit = option_number(matches, "limit");
    let tries = option_number(matches, "tries");
    let states = option_number(matches, "states");
    let paused = is_named(matches, "pauses");
    match name {
        "check" => Some(Subcommand::Check),
        "list" => Some(Subcommand::List),
        "reference" if paused => Some(Subcommand::Paused {
            workers: 1,
            limit: limit?,
        }),
        "reference" => Some(Subcommand::Reference { limit: limit? }),
        "timeline" => Some(Subcommand::Timeline { limit: limit? }),
        "explore" => Some(Subcommand::Explore {
            limit: limit?,
            tries: tries?,
            states: states?,
        }),
        "test" => Some(Subcommand::Test {
            limit: limit?,
            tries: tries?,
            states: states?,
        }),
        "inspect" => Some(Subcommand::Inspect { limit: limit? }),
        "run" if paused => Some(Subcommand::Paused {
            workers: workers?,
            limit: limit?,
        }),
        "run" => Some(Subcommand::Run {
            workers: workers?,
            limit: limit?,
        }),
        _ => None,
    }
}

/// The invocation that the words request.
pub fn invocation_of<'m, 'a>(matches: &'m ArgMatches<'a>) -> Option<Invocation<'m, 'a>>
    ensures { IsAsked (subcommand_rows_of matches.now) result }
{
    let Some((name, matches)) = matches.subcommand() else {
        return None;
    };
    let Some(subcommand) = subcommand_named(name, matches) else {
        return None;
    };
    let trace = matches.get_str("trace");
    let values = matches.get_str("values");
    let pauses = matches.get_str("pauses");
    let against = matches.get_str("against");
    let strict = is_set(matches, "strict");
    let out = matches.get_str("out");
    let from = option_number(matches, "from");
    let last = option_number(matches, "last");
    let event = option_number(matches, "event");
    let at = option_number(matches, "at");
    let seconds = option_number(matches, "seconds");
    let ends = is_set(matches, "ends");
    let unordered = is_set(matches, "unordered");
    let ordered = is_set(matches, "ordered");
    let leaks = is_set(matches, "leaks");
    let whole = is_set(matches, "whole");
    let orders = is_set(matches, "orders");
    let update = is_set(matches, "update");
    let json = is_set(matches, "json");
    let explains = is_set(matches, "explain");
    let asks_to_explain = explains;
    let files = matches.get_strs("FILE")?;
    Some(Invocation {
        file: matches.get_str("FILE")?,
        files,
        trace,
        values,
        pauses,
        against,
        strict,
        out,
        from,
        last,
        event,
        at,
        seconds,
        ends,
        unordered,
        ordered,
        leaks,
        whole,
        orders,
        update,
        json,
        explains,
        asks_to_explain,
        subcommand,
    })
}
