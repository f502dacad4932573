//! The command line: its words and what they ask for.
ghost use Rattle.std.specs.Prelude.{◌≡◌, ◌≢◌, ◌^◌, IfErr, IfOk, Ok, false, is_some, map, string_bytes, true};
ghost use Rattle.clap.specs.Words.{app_of, first_of, found_of, one_of, rows_of};
ghost use Rattle.snoop_sim.specs.Asked.{AsksFor, BeginsNothing, HasNoTask, IsTaskOf};
ghost use Rattle.snoop_sim.specs.CommandLine.{AreOptionsOf, DescribesOption, IsCommand, IsLocal, IsSnoop, command_said, rule_said};
ghost use Rattle.snoop_sim.specs.Options.{IsChoiceOf, HasNoGrouping, HasNoNamed, HasNoSteps, IsGroupingOf, IsInputOf, IsNamed, IsPaperOf, IsSteps, IsReadAs, IsShapeOf, MisplacesPaper, MisplacesSerial, asks_ascii, asks_serial, charset_named, form_named, kind_named, layout_named, protocol_named, says, theme_named, which_named};

use crate::failure::Failure;
use crate::help;
use clap::builder::ValueParser;
use clap::{Arg, ArgAction, ArgMatches, Command, Error, value_parser};
use snoop_draw::Charset;
use snoop_engine::{Choice, ChoiceFault, Input};
use snoop_lint::Form;
use snoop_rules::{Protocol, Which};
use snoop_svg::{Form as SvgForm, Paper, Theme};
use snoop_trace::{Shape, ShapeFault};
use std::alloc::{AllocError, Global};
use std::num::NonZeroU64;

/// What the command line asks for: the help, a table, or what is made of a text for a protocol and a shape.
#[derive(Drop)]
pub(crate) enum Task {
    Help(Error),
    Table(Protocol, Which, Layout),
    Steps(Protocol, Shape),
    /// Its rows, cores side by side.
    Run(Protocol, Shape),
    /// Its rows, one after another.
    Serial(Protocol, Shape),
    /// Its rows, in threads.
    Threads(Protocol, Shape),
    Counts(Protocol, Shape, Input, Grouping),
    /// So many faulty records are named at most.
    Lint(Protocol, Shape, Form, u64),
    /// Its states, in tables.
    States(Protocol, Shape, Input, Choice),
    /// Its states, in fields.
    StateFields(Protocol, Shape, Input, Choice),
    /// Its drawing as a text.
    Draw(Protocol, Shape, Input, Charset, Choice),
    /// Its drawing as SVG or as a page.
    DrawSvg(Protocol, Shape, Input, Choice, Paper),
}

/// How a table is written.
#[derive(Clone, Copy, PartialEq, Eq)]
pub(crate) enum Layout {
    /// A line for each of its rows.
    Rows,
    /// A line for each state, a column for each event.
    Matrix,
}

/// What each line of counts is of.
#[derive(Clone, Copy, PartialEq, Eq)]
pub(crate) enum Grouping {
    Row,
    Core,
    /// All blocks, or this many of them, those with the most requests first.
    Block(Option<u32>),
    /// Each word of each shared block.
    Word,
    /// This many steps.
    Steps(NonZeroU64),
}

/// A command of the command line.
struct CommandSpec {
    name: &'static str,
    usage: &'static str,
    about: &'static str,
    help: Help,
    groups: &'static [Group],
}

/// Which help a command has.
#[derive(Clone, Copy)]
enum Help {
    Steps,
    Run,
    Threads,
    States,
    Counts,
    Lint,
    Draw,
    Table,
}

/// An option of a command.
struct OptionSpec {
    name: &'static str,
    takes: Takes,
    /// Its value where it is not given.
    default: Option<&'static str>,
    help: &'static str,
}

/// What an option takes.
enum Takes {
    Nothing,
    U32,
    U64,
    OneOf(&'static [&'static str]),
    /// In small or capital letters.
    OneOfAnyCase(&'static [&'static str]),
}

/// The options that a command has, or that several have in common.
#[derive(Clone, Copy)]
enum Group {
    Protocol,
    Shape,
    Kind,
    Serial,
    /// That of `run`, which has a help of its own.
    SerialRun,
    Choice,
    States,
    Counts,
    Lint,
    Draw,
    Table,
}

static COMMANDS: [CommandSpec; 8] = [
    CommandSpec {
        name: "steps",
        usage: "snoop steps [OPTIONS] < FILE",
        about: "Read steps; write each one's reply and a report",
        help: Help::Steps,
        groups: &[Group::Protocol, Group::Shape],
    },
    CommandSpec {
        name: "run",
        usage: "snoop run [OPTIONS] < FILE",
        about: "Read what each core does; write each step's reply and a report",
        help: Help::Run,
        groups: &[Group::Protocol, Group::Shape, Group::SerialRun],
    },
    CommandSpec {
        name: "threads",
        usage: "snoop threads [OPTIONS] < FILE",
        about: "Read what each core does, let a thread for each do it; write the steps taken",
        help: Help::Threads,
        groups: &[Group::Protocol, Group::Shape],
    },
    CommandSpec {
        name: "states",
        usage: "snoop states [OPTIONS] < FILE",
        about: "Read steps or rows; write the states that each block goes through",
        help: Help::States,
        groups: &[
            Group::Protocol,
            Group::Shape,
            Group::Kind,
            Group::Serial,
            Group::States,
            Group::Choice,
        ],
    },
    CommandSpec {
        name: "counts",
        usage: "snoop counts [OPTIONS] < FILE",
        about: "Read steps or rows; write counts by row of the tables, core, block, word or steps",
        help: Help::Counts,
        groups: &[
            Group::Protocol,
            Group::Shape,
            Group::Kind,
            Group::Serial,
            Group::Counts,
        ],
    },
    CommandSpec {
        name: "lint",
        usage: "snoop lint [OPTIONS] < FILE",
        about: "Read steps or rows; write what is wrong with the text",
        help: Help::Lint,
        groups: &[Group::Protocol, Group::Shape, Group::Kind, Group::Lint],
    },
    CommandSpec {
        name: "draw",
        usage: "snoop draw [OPTIONS] < FILE",
        about: "Read steps or rows; draw what happens to each block",
        help: Help::Draw,
        groups: &[
            Group::Protocol,
            Group::Shape,
            Group::Kind,
            Group::Serial,
            Group::Draw,
            Group::Choice,
        ],
    },
    CommandSpec {
        name: "table",
        usage: "snoop table [OPTIONS]",
        about: "Write a controller's table: state, event, action and next state",
        help: Help::Table,
        groups: &[Group::Protocol, Group::Table],
    },
];

static PROTOCOL: [OptionSpec; 1] = [OptionSpec {
    name: "protocol",
    takes: Takes::OneOfAnyCase(&["msi", "mesi"]),
    default: Some("msi"),
    help: "The protocol",
}];

static SHAPE: [OptionSpec; 4] = [
    OptionSpec {
        name: "cores",
        takes: Takes::U32,
        default: Some("2"),
        help: "How many cores, from 1 to 256",
    },
    OptionSpec {
        name: "blocks",
        takes: Takes::U32,
        default: Some("4"),
        help: "How many blocks of memory, from 1 to 65536",
    },
    OptionSpec {
        name: "block-bytes",
        takes: Takes::U32,
        default: Some("64"),
        help: "Bytes of a block, a power of two up to 4096",
    },
    OptionSpec {
        name: "words",
        takes: Takes::U32,
        default: Some("1"),
        help: "Words of a block, a power of two up to 64",
    },
];

static KIND: [OptionSpec; 1] = [OptionSpec {
    name: "of",
    takes: Takes::OneOf(&["steps", "rows"]),
    default: Some("steps"),
    help: "What a text holds",
}];

static SERIAL: [OptionSpec; 1] = [OptionSpec {
    name: "serial",
    takes: Takes::Nothing,
    default: None,
    help: "Of rows: complete each before the next, in the order of the text",
}];

static SERIAL_RUN: [OptionSpec; 1] = [OptionSpec {
    name: "serial",
    takes: Takes::Nothing,
    default: None,
    help: "Complete each line before the next, in the order of the text",
}];

static CHOICE: [OptionSpec; 3] = [
    OptionSpec {
        name: "block",
        takes: Takes::U32,
        default: None,
        help: "Show only this block",
    },
    OptionSpec {
        name: "from",
        takes: Takes::U64,
        default: Some("1"),
        help: "Show steps from this number on",
    },
    OptionSpec {
        name: "to",
        takes: Takes::U64,
        default: None,
        help: "Show steps up to this number",
    },
];

static STATES: [OptionSpec; 1] = [OptionSpec {
    name: "as",
    takes: Takes::OneOf(&["text", "csv"]),
    default: Some("text"),
    help: "Tables, or fields",
}];

static COUNTS: [OptionSpec; 3] = [
    OptionSpec {
        name: "by",
        takes: Takes::OneOf(&["row", "core", "block", "word"]),
        default: None,
        help: "What each line counts",
    },
    OptionSpec {
        name: "top",
        takes: Takes::U32,
        default: None,
        help: "With --by block: only so many, those with the most requests",
    },
    OptionSpec {
        name: "every",
        takes: Takes::U64,
        default: None,
        help: "Instead of --by: a line for every so many steps",
    },
];

static LINT: [OptionSpec; 1] = [OptionSpec {
    name: "most",
    takes: Takes::U64,
    default: Some("20"),
    help: "How many faulty records are shown at most",
}];

static DRAW: [OptionSpec; 4] = [
    OptionSpec {
        name: "as",
        takes: Takes::OneOf(&["text", "svg", "html"]),
        default: Some("text"),
        help: "The form",
    },
    OptionSpec {
        name: "ascii",
        takes: Takes::Nothing,
        default: None,
        help: "With --as text: draw with ASCII characters only",
    },
    OptionSpec {
        name: "theme",
        takes: Takes::OneOf(&["auto", "light", "dark"]),
        default: None,
        help: "Colours for svg and html",
    },
    OptionSpec {
        name: "shown",
        takes: Takes::U64,
        default: None,
        help: "Of svg and html: draw only so many rows, on a canvas for all",
    },
];

static TABLE: [OptionSpec; 2] = [
    OptionSpec {
        name: "which",
        takes: Takes::OneOf(&["cache", "memory"]),
        default: Some("cache"),
        help: "Whose table it is",
    },
    OptionSpec {
        name: "as",
        takes: Takes::OneOf(&["rows", "matrix"]),
        default: Some("rows"),
        help: "The layout",
    },
];

/// The task that the words ask for; the first of them is the program's own name.
pub(crate) fn task_in(alloc: Global, words: &[String]) -> Result<Task, Failure>
    ensures ok { IfOk result (AsksFor (map string_bytes words.now)) }
    ensures err { IfErr result (BeginsNothing (map string_bytes words.now)) }
{
    match grammar(alloc)?.try_get_matches_from(words) {
        Ok(matches) => match matches.subcommand() {
            Some((name, options)) => task_of(name, options),
            None => Err(Failure::NoCommand),
        },
        Err(error) if error.use_stderr() => Err(Failure::from(error)),
        Err(help) => Ok(Task::Help(help)),
    }
}

/// The task of the command of this name.
fn task_of(name: &str, options: &ArgMatches) -> Result<Task, Failure>
    ensures ok { IfOk result (IsTaskOf (name.now, rows_of (found_of options.now))) }
    ensures err { IfErr result (HasNoTask (Some (name.now, rows_of (found_of options.now)))) }
{
    let protocol = protocol_in(options);
    if name == "table" {
        return Ok(Task::Table(protocol, which_in(options), layout_in(options)));
    }
    let shape = shape_in(options)?;
    match name {
        "steps" => Ok(Task::Steps(protocol, shape)),
        "run" if is_serial(options) => Ok(Task::Serial(protocol, shape)),
        "run" => Ok(Task::Run(protocol, shape)),
        "threads" => Ok(Task::Threads(protocol, shape)),
        "states" => {
            let input = input_in(options)?;
            let choice = choice_in(options, shape)?;
            if says(options, "as", "csv") {
                Ok(Task::StateFields(protocol, shape, input, choice))
            } else {
                Ok(Task::States(protocol, shape, input, choice))
            }
        }
        "counts" => {
            let input = input_in(options)?;
            let grouping = grouping_in(options)?;
            Ok(Task::Counts(protocol, shape, input, grouping))
        }
        "lint" => {
            let most = long_in(options, "most").unwrap_or(0);
            Ok(Task::Lint(protocol, shape, kind_in(options), most))
        }
        "draw" => {
            let input = input_in(options)?;
            let paper = paper_in(options)?;
            let choice = choice_in(options, shape)?;
            match paper {
                None => Ok(Task::Draw(protocol, shape, input, charset_in(options), choice)),
                Some(paper) => Ok(Task::DrawSvg(protocol, shape, input, choice, paper)),
            }
        }
        _ => Err(Failure::NoCommand),
    }
}

/// The command line that is understood.
fn grammar<'a>(alloc: Global) -> Result<Command<'a>, AllocError>
    ensures { IfOk result (λ command. IsSnoop (app_of command)) }
{
    let mut snoop = Command::new(alloc, "snoop")
        .bin_name("snoop")?
        .version("0.1.0")
        .about("Simulates private caches on a snooping bus, under MSI or MESI")
        .after_help(help::PROGRAM)
        .subcommand_required(true);
    for command in COMMANDS.as_slice() {
        snoop = snoop.subcommand(command.build(alloc)?)?;
    }
    Ok(snoop)
}

impl CommandSpec {
    /// The command as `clap` has it.
    fn build<'a>(&self, alloc: Global) -> Result<Command<'a>, AllocError>
        ensures { IfOk result (λ command. IsLocal command × IsCommand (command_said self.now) (app_of command)) }
    {
        let mut command = Command::new(alloc, self.name)
            .about(self.about)
            .override_usage(self.usage)
            .after_help(self.help.text());
        for group in self.groups {
            for option in group.options() {
                command = command.arg(option.build(alloc))?;
            }
        }
        Ok(command)
    }
}

impl Help {
    fn text(self) -> &'static str {
        match self {
            Help::Steps => help::STEPS,
            Help::Run => help::RUN,
            Help::Threads => help::THREADS,
            Help::States => help::STATES,
            Help::Counts => help::COUNTS,
            Help::Lint => help::LINT,
            Help::Draw => help::DRAW,
            Help::Table => help::TABLE,
        }
    }
}

impl Group {
    /// Its options, in the order of the help.
    fn options(self) -> &'static [OptionSpec]
        ensures { AreOptionsOf self result.now }
    {
        match self {
            Group::Protocol => PROTOCOL.as_slice(),
            Group::Shape => SHAPE.as_slice(),
            Group::Kind => KIND.as_slice(),
            Group::Serial => SERIAL.as_slice(),
            Group::SerialRun => SERIAL_RUN.as_slice(),
            Group::Choice => CHOICE.as_slice(),
            Group::States => STATES.as_slice(),
            Group::Counts => COUNTS.as_slice(),
            Group::Lint => LINT.as_slice(),
            Group::Draw => DRAW.as_slice(),
            Group::Table => TABLE.as_slice(),
        }
    }
}

impl OptionSpec {
    /// The option as `clap` has it.
    fn build<'a>(&self, alloc: Global) -> Arg<'a>
        ensures { DescribesOption result (rule_said self.now) }
    {
        let named = Arg::new(alloc, self.name).long(self.name).help(self.help);
        let typed = match &self.takes {
            Takes::Nothing => named.action(ArgAction::SetTrue),
            Takes::U32 => named.value_parser(value_parser!(u32)),
            Takes::U64 => named.value_parser(value_parser!(u64)),
            Takes::OneOf(names) => named.value_parser(ValueParser::Names(names)),
            Takes::OneOfAnyCase(names) => named
                .value_parser(ValueParser::Names(names))
                .ignore_case(true),
        };
        match self.default {
            Some(value) => typed.default_value(value),
            None => typed,
        }
    }
}

/// The protocol that was named, in either case.
fn protocol_in(options: &ArgMatches) -> Protocol
    ensures { result ≡ protocol_named (rows_of (found_of options.now)) }
{
    match options.get_str("protocol") {
        Some(name) if name.eq_ignore_ascii_case("mesi") => Protocol::Mesi,
        _ => Protocol::Msi,
    }
}

/// Whether the rows are served one after another.
fn is_serial(options: &ArgMatches) -> bool
    ensures { result ≡ asks_serial (rows_of (found_of options.now)) }
{
    says(options, "serial", "true")
}

/// The table that was named.
fn which_in(options: &ArgMatches) -> Which
    ensures { result ≡ which_named (rows_of (found_of options.now)) }
{
    if says(options, "which", "memory") {
        Which::Memory
    } else {
        Which::Cache
    }
}

/// How the table is written.
fn layout_in(options: &ArgMatches) -> Layout
    ensures { result ≡ layout_named (rows_of (found_of options.now)) }
{
    if says(options, "as", "matrix") {
        Layout::Matrix
    } else {
        Layout::Rows
    }
}

/// Whether the drawing is of ASCII characters alone.
fn is_ascii(options: &ArgMatches) -> bool
    ensures { result ≡ asks_ascii (rows_of (found_of options.now)) }
{
    says(options, "ascii", "true")
}

/// The characters that were named.
fn charset_in(options: &ArgMatches) -> Charset
    ensures { result ≡ charset_named (rows_of (found_of options.now)) }
{
    if is_ascii(options) {
        Charset::Ascii
    } else {
        Charset::Unicode
    }
}

/// What a drawing other than a text is written for; none for a text. The options of the one are not for the other.
fn paper_in(options: &ArgMatches) -> Result<Option<Paper>, Failure>
    ensures ok { IfOk result (IsPaperOf (rows_of (found_of options.now))) }
    ensures err { IfErr result (λ failure. (failure ≡ Failure.BadChoice) × MisplacesPaper (rows_of (found_of options.now))) }
{
    let shown = long_in(options, "shown");
    if says(options, "as", "text") {
        match (is_given(options, "theme"), shown) {
            (false, None) => Ok(None),
            _ => Err(Failure::BadChoice),
        }
    } else if is_ascii(options) {
        Err(Failure::BadChoice)
    } else {
        Ok(Some(Paper {
            form: form_in(options),
            theme: theme_in(options),
            shown: shown.unwrap_or(u64::MAX),
        }))
    }
}

/// The form that was named, other than a text.
fn form_in(options: &ArgMatches) -> SvgForm
    ensures { result ≡ form_named (rows_of (found_of options.now)) }
{
    if says(options, "as", "html") {
        SvgForm::Html
    } else {
        SvgForm::Svg
    }
}

/// The colours that were named.
fn theme_in(options: &ArgMatches) -> Theme
    ensures { result ≡ theme_named (rows_of (found_of options.now)) }
{
    if says(options, "theme", "light") {
        Theme::Light
    } else if says(options, "theme", "dark") {
        Theme::Dark
    } else {
        Theme::Auto
    }
}

/// What the lines of counts are of, as one of `--by` and `--every` says.
fn grouping_in(options: &ArgMatches) -> Result<Grouping, Failure>
    ensures ok { IfOk result (IsGroupingOf (rows_of (found_of options.now))) }
    ensures err { IfErr result (HasNoGrouping (rows_of (found_of options.now))) }
{
    match (is_given(options, "by"), long_in(options, "every")) {
        (true, None) => named_in(options),
        (false, Some(every)) => steps_in(options, every),
        _ => Err(Failure::BadBy),
    }
}

/// What `--by` says; `--top` is for blocks alone.
fn named_in(options: &ArgMatches) -> Result<Grouping, Failure>
    ensures ok { IfOk result (IsNamed (rows_of (found_of options.now))) }
    ensures err { IfErr result (HasNoNamed (rows_of (found_of options.now))) }
{
    let top = short_in(options, "top");
    if says(options, "by", "block") {
        Ok(Grouping::Block(top))
    } else if top.is_some() {
        Err(Failure::BadTop)
    } else if says(options, "by", "core") {
        Ok(Grouping::Core)
    } else if says(options, "by", "word") {
        Ok(Grouping::Word)
    } else {
        Ok(Grouping::Row)
    }
}

/// The number of steps that `--every` says.
fn steps_in(options: &ArgMatches, every: u64) -> Result<Grouping, Failure>
    ensures ok { IfOk result (IsSteps every (rows_of (found_of options.now))) }
    ensures err { IfErr result (HasNoSteps every (rows_of (found_of options.now))) }
{
    if short_in(options, "top").is_some() {
        return Err(Failure::BadTop);
    }
    match NonZeroU64::new(every) {
        Some(every) => Ok(Grouping::Steps(every)),
        None => Err(Failure::BadEvery),
    }
}

/// What the text is for.
fn kind_in(options: &ArgMatches) -> Form
    ensures { result ≡ kind_named (rows_of (found_of options.now)) }
{
    if says(options, "of", "rows") {
        Form::Rows
    } else {
        Form::Steps
    }
}

/// What the text is of; `--serial` is for rows alone.
fn input_in(options: &ArgMatches) -> Result<Input, Failure>
    ensures ok { IfOk result (IsInputOf (rows_of (found_of options.now))) }
    ensures err { IfErr result (λ failure. (failure ≡ Failure.BadSerial) × MisplacesSerial (rows_of (found_of options.now))) }
{
    match (kind_in(options), is_serial(options)) {
        (Form::Steps, false) => Ok(Input::Steps),
        (Form::Steps, true) => Err(Failure::BadSerial),
        (Form::Rows, false) => Ok(Input::Rows),
        (Form::Rows, true) => Ok(Input::SerialRows),
    }
}

/// Whether the option is given.
fn is_given(options: &ArgMatches, name: &str) -> bool
    ensures { result ≡ is_some (first_of name.now (rows_of (found_of options.now))) }
{
    options.get_str(name).is_some()
}

/// Whether the option has this value.
fn says(options: &ArgMatches, name: &str, value: &str) -> bool
    ensures { result ≡ says false name.now value.now (rows_of (found_of options.now)) }
{
    match options.get_str(name) {
        Some(text) => text == value,
        None => false,
    }
}

/// The shape that was named. An option without a number counts as 0, which no shape has.
fn shape_in(options: &ArgMatches) -> Result<Shape, ShapeFault>
    ensures { IsShapeOf (rows_of (found_of options.now)) result }
{
    Shape::with_words(
        short_in(options, "cores").unwrap_or(0),
        short_in(options, "blocks").unwrap_or(0),
        short_in(options, "block-bytes").unwrap_or(0),
        short_in(options, "words").unwrap_or(0),
    )
}

/// The block and the steps that were chosen.
fn choice_in(options: &ArgMatches, shape: Shape) -> Result<Choice, ChoiceFault>
    ensures { IsChoiceOf shape (rows_of (found_of options.now)) result }
{
    Choice::new(
        shape,
        short_in(options, "block"),
        long_in(options, "from").unwrap_or(0),
        long_in(options, "to").unwrap_or(u64::MAX),
    )
}

/// The number of 32 bits that was named.
fn short_in(options: &ArgMatches, name: &str) -> Option<u32>
    ensures { IsReadAs (2 ^ 32) (one_of name.now (rows_of (found_of options.now))) result }
{
    options.get_one::<u32>(name)
}

/// The number of 64 bits that was named.
fn long_in(options: &ArgMatches, name: &str) -> Option<u64>
    ensures { IsReadAs (2 ^ 64) (one_of name.now (rows_of (found_of options.now))) result }
{
    options.get_one::<u64>(name)
}
