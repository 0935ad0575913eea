// The arguments of the command line, and the order that they give (docs/MANUAL.md).
ghost use Rattle.std.specs.Prelude.{◌≡◌, ◌≢◌, ◌≤◌, ◌↔◌, ◌⊎◌, length};
ghost use Rattle.std.specs.Prelude.{Ok, Err, IfOk, IsErr, IsTrue, codes, map, option_map, alloc_error};
ghost use Rattle.clap.specs.Words.{first_value, found_of, kind_of, matched_of, one_text, raw_values};
ghost use Rattle.cli_args.specs.Args.{Asks, AsksListing, AsksOf, AsksSource, AsksSourceOf, HasMore};
ghost use Rattle.cli_args.specs.Args.{HasOther, HasSource, names_in, scope_by};
ghost use Rattle.cli_args.specs.Args.{IsFlag, IsMistaken, IsPrinted, ListingFits};

use clap::error::ErrorKind;
use clap::{Arg, ArgAction, ArgMatches, Command, Error};
use cli::Order;
use feed_ends::{Listing, Scope, Source};
use std::alloc::{AllocError, Global};

const USAGE: &str =
    "innfeed -c FILE [-C] [-x] [-v] [--log-time] [--follow] [--tidy] [--expired] [FUNNEL]
       innfeed -c FILE --owed [--all] [--peer NAME]... [--summary] [-v] [--log-time]
       innfeed -c FILE --print-conf [-v]
       innfeed --drill FILE
       innfeed < SCRIPT";

const ABOUT: &str =
    "The outgoing feeder of a news server: offers its peers the articles of a funnel and of their backlogs.";

const AFTER_HELP: &str =
    "-C takes precedence over --owed, and --owed over -x, --follow, --tidy and --expired. With -C, --owed or -x
FUNNEL is ignored; otherwise it is required. With -v each argument that is ignored is named.
Without arguments a drill script is read from standard input.

Exit status: 0 success; 1 bad configuration, malformed drill script or refused step; 2 usage error;
3 a tape cannot be opened, or is broken, damaged or full, or another innfeed works there; 4 another file cannot be
read, written or removed, or standard input or output fails; 5 out of memory, threads or system resources for
sockets.";

/// What the arguments ask for.
#[derive(Drop)]
pub struct Asked<'a> {
    pub order: Order<'a>,
    /// Whether each line on standard error begins with the time and the process.
    pub has_log_time: bool,
    /// With `-v`, a line for each argument that is given and not read, with its LF.
    pub unread: String,
}

/// Reads the arguments of the command line, the first of which is the program's own name. `version` is what is printed
/// for the version, after that name.
///
/// # Errors
/// Memory was refused.
pub fn read_args<'a>(
    alloc: Global,
    args: &'a [String],
    version: &'a str,
) -> Result<Asked<'a>, AllocError>
    ensures { IfOk result (λ asked.
        (asked.order ≡ Order.DrillFromInput) ↔ (length args.now ≤ 1)) }
{
    if args.len() <= 1 {
        return Ok(only(alloc, Order::DrillFromInput));
    }
    match command(alloc, version)?.try_get_matches_from(args) {
        Ok(matches) => asked_by(alloc, given_by(&matches)),
        Err(error) => Ok(only(alloc, answer(alloc, error)?)),
    }
}

// An order, with lines that begin with no time, and nothing that is not read.
fn only<'a>(alloc: Global, order: Order<'a>) -> Asked<'a>
    ensures { result.order ≡ order.entry }
{
    Asked {
        order,
        has_log_time: false,
        unread: String::new(alloc),
    }
}

// What is given on the command line.
#[derive(Clone, Copy)]
pub(crate) struct Given<'a, 'm> {
    pub config: Option<&'a str>,
    pub check: bool,
    pub print_conf: bool,
    pub owed: bool,
    pub all: bool,
    pub names: Option<&'m [&'a str]>,
    pub summary: bool,
    pub backlog: bool,
    pub follow: bool,
    pub tidy: bool,
    pub expired: bool,
    pub verbose: bool,
    pub log_time: bool,
    pub funnel: Option<&'a str>,
    pub drill: Option<&'a str>,
}

fn command<'a>(alloc: Global, version: &'a str) -> Result<Command<'a>, AllocError> {
    let config = Arg::new(alloc, "config")
        .short('c')
        .value_name("FILE")
        .help("Read this configuration file, see innfeed.conf(5)");
    let drill = Arg::new(alloc, "drill")
        .long("drill")
        .value_name("FILE")
        .help(
            "Run this drill script, and print what each step does and what is queued for each peer",
        );
    let funnel = Arg::new(alloc, "funnel").value_name("FUNNEL").help(
        "Read articles to feed from this file, or from the segments in this directory: lines of a \
            token, a message-id and peers; continue after the last acknowledged line",
    );
    Command::new(alloc, "innfeed")
        .version(version)
        .about(ABOUT)
        .override_usage(USAGE)
        .after_help(AFTER_HELP)
        .arg(config)?
        .arg(check_flag(alloc))?
        .arg(print_conf_flag(alloc))?
        .arg(owed_flag(alloc))?
        .arg(all_flag(alloc))?
        .arg(peer_option(alloc))?
        .arg(summary_flag(alloc))?
        .arg(backlog_flag(alloc))?
        .arg(follow_flag(alloc))?
        .arg(tidy_flag(alloc))?
        .arg(expired_flag(alloc))?
        .arg(verbose_flag(alloc))?
        .arg(log_time_flag(alloc))?
        .arg(drill)?
        .arg(funnel)
}

fn check_flag<'a>(alloc: Global) -> Arg<'a> {
    Arg::new(alloc, "check")
        .short('C')
        .action(ArgAction::SetTrue)
        .help(
            "Check the configuration, and print which settings are ignored or limited and how many peers it has",
        )
}

fn owed_flag<'a>(alloc: Global) -> Arg<'a> {
    Arg::new(alloc, "owed")
        .long("owed")
        .action(ArgAction::SetTrue)
        .help(
            "List what is queued for each peer: its name, and the number, token and message-id of each article",
        )
}

fn all_flag<'a>(alloc: Global) -> Arg<'a> {
    Arg::new(alloc, "all")
        .long("all")
        .action(ArgAction::SetTrue)
        .help(
            "With --owed, also list what is queued for names that are no peers, and what is kept beside the tapes",
        )
}

fn print_conf_flag<'a>(alloc: Global) -> Arg<'a> {
    Arg::new(alloc, "print-conf")
        .long("print-conf")
        .action(ArgAction::SetTrue)
        .help("Print the settings in force, with all defaults and limits, as a configuration")
}

fn peer_option<'a>(alloc: Global) -> Arg<'a> {
    Arg::new(alloc, "peer")
        .long("peer")
        .value_name("NAME")
        .action(ArgAction::Append)
        .help("With --owed, list what is queued for this peer alone; may be given more than once")
}

fn summary_flag<'a>(alloc: Global) -> Arg<'a> {
    Arg::new(alloc, "summary")
        .long("summary")
        .action(ArgAction::SetTrue)
        .help(
            "With --owed, print one line for each peer: its name, how many articles are queued, their octets as in \
            the status file, and the number of the oldest one",
        )
}

fn log_time_flag<'a>(alloc: Global) -> Arg<'a> {
    Arg::new(alloc, "log-time")
        .long("log-time")
        .action(ArgAction::SetTrue)
        .help("Begin each line on standard error with the time in UTC and the process")
}

fn backlog_flag<'a>(alloc: Global) -> Arg<'a> {
    Arg::new(alloc, "backlog")
        .short('x')
        .action(ArgAction::SetTrue)
        .help("Feed from the backlogs only, without a funnel")
}

fn follow_flag<'a>(alloc: Global) -> Arg<'a> {
    Arg::new(alloc, "follow")
        .long("follow")
        .action(ArgAction::SetTrue)
        .help(
            "Go on after the funnel's last line: feed what is added to it, until the run is ended",
        )
}

fn tidy_flag<'a>(alloc: Global) -> Arg<'a> {
    Arg::new(alloc, "tidy")
        .long("tidy")
        .action(ArgAction::SetTrue)
        .help("Remove segments of FUNNEL whose lines are all acknowledged; FUNNEL is a directory")
}

fn expired_flag<'a>(alloc: Global) -> Arg<'a> {
    Arg::new(alloc, "expired")
        .long("expired")
        .action(ArgAction::SetTrue)
        .help(
            "Drop every article that is missing from the spool, for a spool whose copies have all expired",
        )
}

fn verbose_flag<'a>(alloc: Global) -> Arg<'a> {
    Arg::new(alloc, "verbose")
        .short('v')
        .action(ArgAction::SetTrue)
        .help(
            "Log connections and articles to standard error, and progress every 10 seconds; explain a bad \
            configuration",
        )
}

fn given_by<'a, 'm>(matches: &'m ArgMatches<'a>) -> Given<'a, 'm>
    ensures config { option_map (λ path. path.now) result.config
        ≡ first_value (found_of matches.now) (codes "config") }
    ensures drill { option_map (λ path. path.now) result.drill
        ≡ first_value (found_of matches.now) (codes "drill") }
    ensures funnel { option_map (λ path. path.now) result.funnel
        ≡ first_value (found_of matches.now) (codes "funnel") }
    ensures check { IsFlag (one_text (found_of matches.now) (codes "check")) result.check }
    ensures print_conf { IsFlag (one_text (found_of matches.now) (codes "print-conf"))
        result.print_conf }
    ensures owed { IsFlag (one_text (found_of matches.now) (codes "owed")) result.owed }
    ensures all { IsFlag (one_text (found_of matches.now) (codes "all")) result.all }
    ensures names { option_map (λ names. map (λ name. name.now) names.now) result.names
        ≡ option_map raw_values (matched_of (found_of matches.now) (codes "peer")) }
    ensures summary { IsFlag (one_text (found_of matches.now) (codes "summary")) result.summary }
    ensures log_time { IsFlag (one_text (found_of matches.now) (codes "log-time"))
        result.log_time }
    ensures backlog { IsFlag (one_text (found_of matches.now) (codes "backlog")) result.backlog }
    ensures follow { IsFlag (one_text (found_of matches.now) (codes "follow")) result.follow }
    ensures tidy { IsFlag (one_text (found_of matches.now) (codes "tidy")) result.tidy }
    ensures expired { IsFlag (one_text (found_of matches.now) (codes "expired")) result.expired }
    ensures verbose { IsFlag (one_text (found_of matches.now) (codes "verbose")) result.verbose }
{
    Given {
        config: matches.get_str("config"),
        check: matches.get_flag("check"),
        print_conf: matches.get_flag("print-conf"),
        owed: matches.get_flag("owed"),
        all: matches.get_flag("all"),
        names: matches.get_strs("peer"),
        summary: matches.get_flag("summary"),
        backlog: matches.get_flag("backlog"),
        follow: matches.get_flag("follow"),
        tidy: matches.get_flag("tidy"),
        expired: matches.get_flag("expired"),
        verbose: matches.get_flag("verbose"),
        log_time: matches.get_flag("log-time"),
        funnel: matches.get_str("funnel"),
        drill: matches.get_str("drill"),
    }
}

// Whether anything is given besides `-c FILE`, `--drill FILE`, `--print-conf` and `-v`.
fn has_other(given: &Given<'_, '_>) -> bool
    ensures { IsTrue result ↔ HasOther given.now }
{
    given.log_time
        || given.follow
        || given.tidy
        || given.expired
        || given.check
        || given.owed
        || given.all
        || given.names.is_some()
        || given.summary
        || given.backlog
        || given.funnel.is_some()
}

// Whether anything is given besides `-c FILE` and `--drill FILE`.
fn has_more(given: &Given<'_, '_>) -> bool
    ensures { IsTrue result ↔ HasMore given.now }
{
    given.verbose || given.print_conf || has_other(given)
}

// What is asked for, and what is not read.
fn asked_by<'a>(alloc: Global, given: Given<'a, '_>) -> Result<Asked<'a>, AllocError>
    ensures { IfOk result (λ asked. Asks given.entry asked.order) }
{
    let order = order_of(alloc, given)?;
    let unread = unread_by(alloc, &order, &given)?;
    Ok(Asked {
        order,
        has_log_time: given.log_time,
        unread,
    })
}

// With a drill's file no other argument is allowed; anything else needs a configuration.
fn order_of<'a>(alloc: Global, given: Given<'a, '_>) -> Result<Order<'a>, AllocError>
    ensures { IfOk result (Asks given.entry) }
{
    match (given.drill, given.config) {
        (None, Some(conf)) => order_on(alloc, conf, given),
        (Some(path), None) if !has_more(&given) => Ok(Order::Drill(path)),
        (Some(_), _) => mistake(alloc, "'--drill FILE' takes no other argument"),
        (None, None) => mistake(alloc, "'-c FILE' or '--drill FILE' is required"),
    }
}

fn order_on<'a>(alloc: Global, conf: &'a str, given: Given<'a, '_>) -> Result<Order<'a>, AllocError>
    ensures { IfOk result (AsksOf conf.now given.entry) }
{
    if given.print_conf {
        if has_other(&given) {
            return mistake(
                alloc,
                "'--print-conf' takes no other argument than '-c FILE' and '-v'",
            );
        }
        return Ok(Order::PrintConf {
            conf,
            verbose: given.verbose,
        });
    }
    if !listing_fits(&given) {
        return mistake(alloc, listing_mistake(&given));
    }
    if given.check {
        return Ok(Order::Check {
            conf,
            verbose: given.verbose,
        });
    }
    if given.owed {
        return Ok(Order::Owed {
            conf,
            listing: listing_of(alloc, &given)?,
            verbose: given.verbose,
        });
    }
    feed_on(alloc, conf, given)
}

// A feed, if its source is given as it has to be.
fn feed_on<'a>(alloc: Global, conf: &'a str, given: Given<'a, '_>) -> Result<Order<'a>, AllocError>
    ensures { IfOk result (AsksSourceOf conf.now given.entry) }
{
    match source_of(&given) {
        Ok(source) => Ok(Order::Feed {
            conf,
            source,
            drops_missing: given.expired,
            verbose: given.verbose,
        }),
        Err(what) => mistake(alloc, what),
    }
}

// Whether what says how much a list has is given only beside `--owed`.
fn listing_fits(given: &Given<'_, '_>) -> bool
    ensures { IsTrue result ↔ ListingFits given.now }
{
    given.owed || (!given.all && given.names.is_none() && !given.summary)
}

fn listing_mistake(given: &Given<'_, '_>) -> &'static str {
    if given.all {
        "'--all' requires '--owed'"
    } else if given.names.is_some() {
        "'--peer NAME' requires '--owed'"
    } else {
        "'--summary' requires '--owed'"
    }
}

fn listing_of<'a>(alloc: Global, given: &Given<'a, '_>) -> Result<Listing<'a>, AllocError>
    ensures { IfOk result (λ listing. AsksListing listing given.now) }
{
    Ok(Listing {
        scope: scope_of(given.all),
        names: names_of(alloc, given.names)?,
        is_summary: given.summary,
    })
}

fn scope_of(all: bool) -> Scope
    ensures { result ≡ scope_by all }
{
    if all { Scope::All } else { Scope::Peers }
}

fn names_of<'a>(alloc: Global, names: Option<&[&'a str]>) -> Result<Vec<&'a str>, AllocError>
    ensures { IfOk result (λ list. map (λ name. name.now) list.items
        ≡ names_in (option_map (λ names. map (λ name. name.now) names.now) names.entry)) }
{
    match names {
        Some(names) => Vec::from_slice(alloc, names),
        None => Ok(Vec::new(alloc)),
    }
}

// The source of a feed, or the mistake in the arguments that give it.
fn source_of<'a>(given: &Given<'a, '_>) -> Result<Source<'a>, &'static str>
    ensures ok { IfOk result (λ source. AsksSource source given.now) }
    ensures mistake { IsErr result ↔ (HasSource given.now → ⊥) }
{
    match (given.backlog, given.funnel) {
        (true, _) if given.follow => Err("'-x' and '--follow' cannot be used together"),
        (true, _) if given.tidy => Err("'-x' and '--tidy' cannot be used together"),
        (true, _) => Ok(Source::Backlogs),
        (false, Some(path)) => Ok(Source::Funnel {
            path,
            is_followed: given.follow,
            is_tidied: given.tidy,
        }),
        (false, None) if given.follow => Err("'--follow' requires FUNNEL"),
        (false, None) if given.tidy => Err("'--tidy' requires FUNNEL"),
        (false, None) => Err("FUNNEL or '-x' is required"),
    }
}

fn mistake<'a>(alloc: Global, what: &str) -> Result<Order<'a>, AllocError>
    ensures { IfOk result IsMistaken }
{
    Ok(Order::Mistake(String::from_str(alloc, what)?))
}

// What to do if `clap` finds no matches: print the help or the version if they are asked for; anything else is a
// mistake.
fn answer<'a>(alloc: Global, error: Error) -> Result<Order<'a>, AllocError>
    ensures printed { (kind_of error ≡ ErrorKind.DisplayHelp)
        ⊎ (kind_of error ≡ ErrorKind.DisplayVersion) → IfOk result IsPrinted }
    ensures no_memory { kind_of error ≡ ErrorKind.OutOfMemory → result ≡ Err alloc_error }
    ensures mistake { kind_of error ≢ ErrorKind.DisplayHelp
        → kind_of error ≢ ErrorKind.DisplayVersion → IfOk result IsMistaken }
    ensures other { IfOk result (λ order. order ≢ Order.DrillFromInput) }
{
    match error.kind() {
        ErrorKind::DisplayHelp | ErrorKind::DisplayVersion => {
            Ok(Order::Print(error.to_string(alloc)?))
        }
        ErrorKind::OutOfMemory => Err(AllocError),
        _ => {
            let text = error.to_string(alloc)?;
            Ok(Order::Mistake(mistake_in(alloc, text.as_str())?))
        }
    }
}

// The mistake, taken from the first paragraph of `clap`'s text, which names the argument at fault. Line ends and
// other control characters of the argument are shown as `?`.
fn mistake_in(alloc: Global, text: &str) -> Result<String, AllocError> {
    let text = text.strip_prefix("error: ").unwrap_or(text);
    let what = text.split("\n\n").next().unwrap_or(text);
    let mut shown = String::new(alloc);
    for letter in what.chars() {
        shown.push(if letter.is_control() { '?' } else { letter })?;
    }
    Ok(shown)
}

// What is given and not read, unless the arguments are wrong.
fn unread_by(
    alloc: Global,
    order: &Order<'_>,
    given: &Given<'_, '_>,
) -> Result<String, AllocError> {
    match order {
        Order::Mistake(_) => Ok(String::new(alloc)),
        _ if given.verbose => unread_lines(alloc, given),
        _ => Ok(String::new(alloc)),
    }
}

// A line for each argument that is given beside one that goes before it, so that it is not read.
fn unread_lines(alloc: Global, given: &Given<'_, '_>) -> Result<String, AllocError> {
    let mut lines = String::new(alloc);
    let beside = precedent_of(given);
    let feeds = !given.check && !given.owed;
    if given.funnel.is_some() {
        add_unread(&mut lines, "FUNNEL", beside)?;
    }
    if given.check && given.owed {
        add_unread(&mut lines, "--owed", beside)?;
    }
    if !feeds && given.backlog {
        add_unread(&mut lines, "-x", beside)?;
    }
    if !feeds && given.follow {
        add_unread(&mut lines, "--follow", beside)?;
    }
    if !feeds && given.tidy {
        add_unread(&mut lines, "--tidy", beside)?;
    }
    if !feeds && given.expired {
        add_unread(&mut lines, "--expired", beside)?;
    }
    Ok(lines)
}

// The option that the others give way to, if there is one.
fn precedent_of(given: &Given<'_, '_>) -> Option<&'static str> {
    if given.check {
        Some("-C")
    } else if given.owed {
        Some("--owed")
    } else if given.backlog {
        Some("-x")
    } else {
        None
    }
}

// `innfeed: WORD is not read with OPTION`.
fn add_unread(
    lines: &mut String,
    word: &str,
    beside: Option<&'static str>,
) -> Result<(), AllocError> {
    match beside {
        Some(beside) => writeln!(lines, "innfeed: {word} is not read with {beside}"),
        None => Ok(()),
    }
}
