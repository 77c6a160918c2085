//! Edge: lines and commands.
//!
//! The words of the program's command line, and what they ask for.
#![tactic(auto)]

mod help;
mod task;

use clap::{Arg, ArgAction, ArgMatches, Command, value_parser};
pub use spec_lines::Verb;
use std::alloc::{AllocError, Global};
pub use task::{Explanation, ServeWords, Task};

/// How many rows the run on a payload may take at most.
const MOST_STEPS: i64 = 1_000_000_000;

/// How many rows it takes at most where the words do not say.
const STEPS: &str = "1000000";

/// The version of the program.
const VERSION: &str = "0.1.0";

/// Returns the subcommand that prints a program, with its flag.
fn compile<'a>(alloc: Global) -> Result<Command<'a>, AllocError> {
    let image = Arg::new(alloc, "image")
        .long("image")
        .action(ArgAction::SetTrue)
        .help("Prints the image in one line of hexadecimal, in place of the listing");
    Command::new(alloc, "compile")
        .about("Prints the program that transcodes from a writer's schema to a reader's")
        .after_help(help::COMPILE)
        .arg(image)
}

/// Returns the subcommand that runs a listed program, with its number of rows.
fn run<'a>(alloc: Global) -> Result<Command<'a>, AllocError> {
    let steps = Arg::new(alloc, "steps")
        .long("steps")
        .value_name("N")
        .action(ArgAction::Set)
        .value_parser(value_parser!(u64).range(1..=MOST_STEPS))
        .default_value(STEPS)
        .help("How many rows the run on a payload takes at most");
    Command::new(alloc, "run")
        .about("Runs the program of a listing on payloads, whose pieces are parted by bars")
        .after_help(help::RUN)
        .arg(steps)
}

/// The greatest port.
const MOST_PORT: i64 = 65_535;

/// The greatest number of clients.
const MOST_CLIENTS: i64 = 64;

/// The greatest number of workers.
const MOST_WORKERS: i64 = 64;

/// The greatest number of connections that a client may be asked to accept.
const MOST_EACH: i64 = 4_294_967_295;

/// The greatest number of connections of a client that may be open at once.
const MOST_CONNECTIONS: i64 = 65_536;

/// The greatest number of seconds that a request may take, an hour.
const MOST_TIMEOUT: i64 = 3_600;

/// Returns the word with a number from `least` to `most`, which is `default` where the word is not there.
fn numbered<'a>(
    alloc: Global,
    name: &'a str,
    least: i64,
    most: i64,
    default: &'a str,
    help: &'a str,
) -> Arg<'a> {
    Arg::new(alloc, name)
        .long(name)
        .value_name("N")
        .action(ArgAction::Set)
        .value_parser(value_parser!(u64).range(least..=most))
        .default_value(default)
        .help(help)
}

/// Returns the word with the address that a service listens on.
fn address<'a>(alloc: Global) -> Arg<'a> {
    Arg::new(alloc, "address")
        .long("address")
        .value_name("IP")
        .action(ArgAction::Set)
        .default_value("127.0.0.1")
        .help("The address that it listens on")
}

/// Returns the word with the path of a store.
fn store<'a>(alloc: Global, help: &'a str) -> Arg<'a> {
    Arg::new(alloc, "store")
        .long("store")
        .value_name("FILE")
        .action(ArgAction::Set)
        .help(help)
}

/// Returns the word with the URL of an upstream registry.
fn upstream<'a>(alloc: Global) -> Arg<'a> {
    Arg::new(alloc, "upstream")
        .long("upstream")
        .value_name("URL")
        .action(ArgAction::Set)
        .help("Rewrites messages by the ids of the schema registry at this URL")
}

/// Returns the word with the path of the credentials of an upstream registry. The error is that memory ran out.
fn credentials<'a>(alloc: Global) -> Result<Arg<'a>, AllocError> {
    Arg::new(alloc, "upstream-credentials")
        .long("upstream-credentials")
        .value_name("FILE")
        .action(ArgAction::Set)
        .help("Asks that registry as the `user:password` in this file")
        .requires_arg("upstream")
}

/// Returns the word by which connections stay for more than one request.
fn http11<'a>(alloc: Global) -> Arg<'a> {
    Arg::new(alloc, "http11")
        .long("http11")
        .action(ArgAction::SetTrue)
        .help("Serves connections that stay, as HTTP/1.1 has them")
}

/// Returns the word by which a service logs its answers.
fn log<'a>(alloc: Global) -> Arg<'a> {
    Arg::new(alloc, "log")
        .long("log")
        .action(ArgAction::SetTrue)
        .help("Writes a line for each answer to standard error")
}

/// Returns the subcommand that serves HTTP, with its numbers.
fn serve<'a>(alloc: Global) -> Result<Command<'a>, AllocError> {
    let port = "The port, 0 for any that is free";
    let clients = "How many threads answer requests";
    let workers = "How many threads stand beside them for messages that take long";
    let each = "How many connections each client accepts, 0 for no end";
    let connections = "How many connections of each client may be open at once";
    let head = "How many seconds the head of a request may take to come";
    let request = "How many seconds a request may take to come, and its answer to go";
    let kept = "Keeps the registry in this file, which is made where there is none";
    let waited = "How many seconds the registry at that URL may take to answer";
    let idle = "How many seconds a connection that stays may wait for its next request";
    Command::new(alloc, "serve")
        .about("Serves the schema registry's API over HTTP, and rewrites messages")
        .after_help(help::SERVE)
        .arg(address(alloc))?
        .arg(numbered(alloc, "port", 0, MOST_PORT, "8081", port))?
        .arg(numbered(alloc, "clients", 1, MOST_CLIENTS, "4", clients))?
        .arg(numbered(alloc, "workers", 1, MOST_WORKERS, "4", workers))?
        .arg(numbered(alloc, "each", 0, MOST_EACH, "0", each))?
        .arg(numbered(
            alloc,
            "connections",
            1,
            MOST_CONNECTIONS,
            "1024",
            connections,
        ))?
        .arg(numbered(alloc, "head-timeout", 1, MOST_TIMEOUT, "5", head))?
        .arg(numbered(alloc, "request-timeout", 1, MOST_TIMEOUT, "10", request))?
        .arg(store(alloc, kept))?
        .arg(upstream(alloc))?
        .arg(numbered(alloc, "upstream-timeout", 1, MOST_TIMEOUT, "5", waited))?
        .arg(credentials(alloc)?)?
        .arg(http11(alloc))?
        .arg(numbered(alloc, "idle-timeout", 1, MOST_TIMEOUT, "60", idle))?
        .arg(log(alloc))
}

/// Returns the subcommand that makes a store, with its file.
fn import<'a>(alloc: Global) -> Result<Command<'a>, AllocError> {
    let file = store(alloc, "The file of the store, which is not to be there").required(true);
    Command::new(alloc, "import")
        .about("Makes a new store of the lines of `replay` on standard input")
        .after_help(help::IMPORT)
        .arg(file)
}

/// The levels at which schemas are checked.
const LEVELS: &[&str] = &["BACKWARD", "FORWARD", "FULL"];

/// The greatest index of a node that may be asked for.
const MOST_NODE: i64 = 4_294_967_295;

/// Returns the subcommand that checks two schemas, with the level at which it does.
fn check<'a>(alloc: Global) -> Result<Command<'a>, AllocError> {
    let level = Arg::new(alloc, "level")
        .long("level")
        .value_name("LEVEL")
        .action(ArgAction::Set)
        .value_parser(LEVELS)
        .default_value("BACKWARD")
        .help("Which reads: BACKWARD the second, FORWARD the first, FULL each");
    Command::new(alloc, "check")
        .about("Says why a reader's schema cannot read all that a writer's writes")
        .after_help(help::CHECK)
        .arg(level)
}

/// Returns the subcommand that explains what becomes of messages, with the forms in which it does.
fn explain<'a>(alloc: Global) -> Result<Command<'a>, AllocError> {
    let json = Arg::new(alloc, "json")
        .long("json")
        .action(ArgAction::SetTrue)
        .help("Prints one JSON value, in place of a tree");
    let node = Arg::new(alloc, "node")
        .long("node")
        .value_name("W R")
        .num_args(2)
        .action(ArgAction::Set)
        .value_parser(value_parser!(u64).range(0..=MOST_NODE))
        .conflicts_with("json")?
        .help("Explains one pair of nodes alone, as a mismatch names them");
    Command::new(alloc, "explain")
        .about("Explains what becomes of every part of a message")
        .after_help(help::EXPLAIN)
        .arg(json)?
        .arg(node)
}

/// Returns a subcommand without flags, by what it does and what lines it reads and writes.
fn of_lines<'a>(alloc: Global, name: &'a str, about: &'a str, lines: &'a str) -> Command<'a> {
    Command::new(alloc, name).about(about).after_help(lines)
}

/// Returns the command line: its subcommands, their flags and values, and their help.
pub fn cli<'a>(alloc: Global) -> Result<Command<'a>, AllocError> {
    let transcode = "Transcodes payloads from a writer's schema to a reader's";
    let debug = "Obeys the commands of a debugger on a payload, between two schemas";
    let replay = "Replies to events of a registry and of sessions, one after another";
    let nodes = "Lists the nodes of a schema, with their numbers and paths";
    let export = "Prints the lines of `replay` that make the registry of a store again";
    Command::new(alloc, "avrogate")
        .about("Transcodes Avro data, and serves the schemas that it goes by")
        .version(VERSION)
        .subcommand_required(true)
        .subcommand(of_lines(alloc, "transcode", transcode, help::TRANSCODE))?
        .subcommand(compile(alloc)?)?
        .subcommand(run(alloc)?)?
        .subcommand(of_lines(alloc, "debug", debug, help::DEBUG))?
        .subcommand(of_lines(alloc, "replay", replay, help::REPLAY))?
        .subcommand(of_lines(alloc, "nodes", nodes, help::NODES))?
        .subcommand(check(alloc)?)?
        .subcommand(explain(alloc)?)?
        .subcommand(serve(alloc)?)?
        .subcommand(of_lines(alloc, "export", export, help::EXPORT))?
        .subcommand(import(alloc)?)
}

/// Returns a number in the words that were read, by the name of its word. `None` where it is not there.
fn number_of(words: &ArgMatches<'_>, name: &str) -> Option<u32> {
    let number: u64 = words.get_one(name)?;
    u32::try_from(number).ok()
}

/// Returns what the words that were read ask of a service. `None` where the address is none.
fn serve_words_of<'w>(words: &ArgMatches<'w>) -> Option<ServeWords<'w>> {
    Some(ServeWords {
        store: words.get_str("store"),
        address: words.get_one("address")?,
        port: u16::try_from(number_of(words, "port")?).ok()?,
        clients: number_of(words, "clients")?,
        workers: number_of(words, "workers")?,
        each: number_of(words, "each")?,
        connections: number_of(words, "connections")?,
        head_timeout: number_of(words, "head-timeout")?,
        request_timeout: number_of(words, "request-timeout")?,
        upstream: words.get_str("upstream"),
        upstream_timeout: number_of(words, "upstream-timeout")?,
        upstream_credentials: words.get_str("upstream-credentials"),
        is_persistent: words.get_flag("http11"),
        idle_timeout: number_of(words, "idle-timeout")?,
        is_logged: words.get_flag("log"),
    })
}

/// Returns one of the two nodes that are asked for. `None` where they are not there.
fn node_of(words: &ArgMatches<'_>, position: usize) -> Option<u32> {
    let text = words.get_strs("node")?.get(position)?;
    text.parse().ok()
}

/// Returns how messages are to be explained.
fn explanation_of(words: &ArgMatches<'_>) -> Explanation {
    if words.get_flag("json") {
        return Explanation::Json;
    }
    match (node_of(words, 0), node_of(words, 1)) {
        (Some(writer), Some(reader)) => Explanation::Pair { writer, reader },
        _ => Explanation::Tree,
    }
}

/// Returns what the words that were read ask for. `None` where the address of a service is none.
pub fn task_of<'w>(matches: &ArgMatches<'w>) -> Option<Task<'w>> {
    match matches.subcommand() {
        Some(("serve", words)) => Some(Task::Serve(serve_words_of(words)?)),
        Some(("nodes", _)) => Some(Task::Nodes),
        Some(("check", words)) => Some(Task::Check(words.get_str("level")?)),
        Some(("explain", words)) => Some(Task::Explain(explanation_of(words))),
        Some(("export", _)) => Some(Task::Export),
        Some(("import", words)) => Some(Task::Import(words.get_str("store")?)),
        _ => Some(Task::Lines(verb_of(matches)?)),
    }
}

/// Returns what the words that were read ask for of the lines of standard input. `None` where they ask for something
/// else.
fn verb_of(matches: &ArgMatches<'_>) -> Option<Verb> {
    match matches.subcommand() {
        Some(("transcode", _)) => Some(Verb::Transcode),
        Some(("compile", words)) => Some(Verb::Compile {
            image: words.get_flag("image"),
        }),
        Some(("run", words)) => Some(Verb::Run {
            steps: words.get_one("steps")?,
        }),
        Some(("debug", _)) => Some(Verb::Debug),
        Some(("replay", _)) => Some(Verb::Replay),
        _ => None,
    }
}
