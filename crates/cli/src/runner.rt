// What each order of the command line does (docs/MANUAL.md).
ghost use Rattle.std.specs.Prelude.{◌≡◌, ◌≢◌, List, ℕ, Option, IfOk, OnOk, false, option_map};
ghost use Rattle.std.specs.Io.KnownBytes.{Appends};
ghost use Rattle.feed_conf.specs.ConfView.{conf_view};
ghost use Rattle.cli.specs.Ends.{AreOnRefusal, Checks, Does, DrillsFile, DrillsInput, Prints, PrintsBeside, Runs};
ghost use Rattle.cli.specs.Ends.{Reports, TriesOn, Works, in_force, reported};
ghost use Rattle.cli.specs.Errand.{DoesErrand};
ghost use Rattle.cli.specs.Feeding.{asks_feeds, feeding_of};
ghost use Rattle.cli.specs.OrderFault.{Comes, IsLineOf};
ghost use Rattle.cli.specs.Strangers.{stranger_of_errand};

use crate::check::{Checked, check, settings_of};
use crate::exit::Exit;
use crate::fault::OrderFault;
use crate::files::ReadFile;
use crate::order::Order;
use crate::strangers::stranger_of;
use conf_text::conf_text;
use drill::{Ending, Refusal, Why, run_script};
use feed_conf::Conf;
use feed_ends::{FeedEnd, Feeds, Listing, Source};
use log_writer::LeveledWrite;
use script_fault_text::explain_fault;
use std::alloc::{AllocError, Global};
use std::io::{self, Read, Write};

/// How an order ended.
#[derive(Clone, Copy)]
pub struct Ended {
    pub exit: Exit,
    /// Whether its line on standard error was written; `Ok` if there was none.
    pub reported: io::Result<()>,
}

/// Does what an order asks for. If that fails, writes why on standard error, or nothing if memory was refused. The
/// status is the same whether or not that could be written. `err` learns which of the lines report faults.
pub fn run<F: ReadFile, P: Feeds, S: Read, W: Write, E: LeveledWrite>(
    alloc: Global,
    order: Order<'_>,
    files: &F,
    feeds: &mut P,
    input: &mut S,
    out: &mut W,
    err: &mut E,
) -> Ended
    ensures does { (line : Option (List ℕ))
        × Reports (E.contents err.old) (E.contents err.new) result.reported line
        × Does (F.says files.now)
        (feeding_of P.fed P.listed feeds.old feeds.new (W.contents out.old) (W.contents out.new))
        (S.remaining input.old) (W.contents out.old) (W.contents out.new)
        order.entry result.exit line }
    ensures unread { order.entry ≢ Order.DrillFromInput → input.new ≡ input.old }
    ensures unasked { asks_feeds order.entry ≡ false → feeds.new ≡ feeds.old }
{
    match perform(alloc, order, files, feeds, input, out) {
        Ok(exit) => Ended {
            exit,
            reported: Ok(()),
        },
        Err(fault) => Ended {
            exit: fault.exit(),
            reported: report_fault(alloc, &fault, err),
        },
    }
}

fn report_fault<E: LeveledWrite>(
    alloc: Global,
    fault: &OrderFault<'_>,
    err: &mut E,
) -> io::Result<()>
    ensures { (line : Option (List ℕ)) × IsLineOf fault.now line
        × Reports (E.contents err.old) (E.contents err.new) result line }
{
    match fault.line(alloc) {
        Ok(None) => Ok(()),
        Ok(Some(lines)) => write_lines(err, fault.fault_count(), &lines),
        Err(refused) => Err(io::Error::from(refused)),
    }
}

// Writes lines, of which so many report faults.
fn write_lines<E: LeveledWrite>(err: &mut E, fault_count: usize, lines: &[u8]) -> io::Result<()>
    ensures { OnOk result (Appends (E.contents err.old) (E.contents err.new) lines.now) }
{
    err.expect_faults(fault_count);
    write_whole(err, lines)
}

fn write_whole<W: Write>(writer: &mut W, text: &[u8]) -> io::Result<()>
    ensures { OnOk result (Appends (W.contents writer.old) (W.contents writer.new) text.now) }
{
    writer.write_all(text)?;
    writer.flush()
}

fn perform<'a, F: ReadFile, P: Feeds, S: Read, W: Write>(
    alloc: Global,
    order: Order<'a>,
    files: &F,
    feeds: &mut P,
    input: &mut S,
    out: &mut W,
) -> Result<Exit, OrderFault<'a>>
    ensures does { Comes (Does (F.says files.now)
        (feeding_of P.fed P.listed feeds.old feeds.new (W.contents out.old) (W.contents out.new))
        (S.remaining input.old) (W.contents out.old) (W.contents out.new) order.entry)
        result }
    ensures unread { order.entry ≢ Order.DrillFromInput → input.new ≡ input.old }
    ensures unasked { asks_feeds order.entry ≡ false → feeds.new ≡ feeds.old }
{
    match order {
        Order::DrillFromInput => drill_input(alloc, input, out),
        Order::Drill(path) => drill_file(alloc, files, path, out),
        Order::Check { conf, verbose } => check_file(alloc, files, conf, verbose, out),
        Order::PrintConf { conf, verbose } => show_file(alloc, files, conf, verbose, out),
        Order::Owed {
            conf,
            listing,
            verbose,
        } => {
            let errand = Errand::List { listing, verbose };
            serve(alloc, files, feeds, conf, verbose, errand, out)
        }
        Order::Feed {
            conf,
            source,
            drops_missing,
            verbose,
        } => {
            let errand = Errand::Feed {
                source,
                drops_missing,
                verbose,
            };
            serve(alloc, files, feeds, conf, verbose, errand, out)
        }
        Order::Print(text) => print(out, text.as_bytes()),
        Order::Mistake(what) => Err(OrderFault::Mistake(what)),
    }
}

fn drill_input<'a, S: Read, W: Write>(
    alloc: Global,
    input: &mut S,
    out: &mut W,
) -> Result<Exit, OrderFault<'a>>
    ensures { Comes
        (DrillsInput (S.remaining input.old) (W.contents out.old) (W.contents out.new))
        result }
{
    let mut script = Vec::new(alloc);
    match input.read_to_end(&mut script) {
        Ok(_) => drill(alloc, &script, "standard input", out),
        Err(error) => Err(OrderFault::of_input(error)),
    }
}

fn drill_file<'a, F: ReadFile, W: Write>(
    alloc: Global,
    files: &F,
    path: &'a str,
    out: &mut W,
) -> Result<Exit, OrderFault<'a>>
    ensures { Comes
        (DrillsFile (F.says files.now path.now) path.now (W.contents out.old) (W.contents out.new))
        result }
{
    match files.read_file(alloc, path) {
        Ok(script) => drill(alloc, &script, path, out),
        Err(error) => Err(OrderFault::of_file(path, error)),
    }
}

// Runs a drill script; messages name it by `source`.
fn drill<'a, W: Write>(
    alloc: Global,
    script: &[u8],
    source: &'a str,
    out: &mut W,
) -> Result<Exit, OrderFault<'a>>
    ensures { Comes
        (Runs script.now source.now (W.contents out.old) (W.contents out.new))
        result }
{
    let text = script;
    let mut script = text;
    match run_script(alloc, &mut script, out) {
        Ok(Ending::Refused(refusal)) => Err(OrderFault::Refused {
            source,
            refusal,
            more: more_on(alloc, source, text, refusal)?,
        }),
        Ok(Ending::NoTape(refusal)) => Err(OrderFault::NoTape(refusal)),
        Ok(ending) => Ok(Exit::from(ending)),
        Err(error) => Err(OrderFault::of_output(error)),
    }
}

// The lines that explain why a line of a script was refused; none if it is the step that was.
fn more_on(
    alloc: Global,
    source: &str,
    script: &[u8],
    refusal: Refusal,
) -> Result<Vec<u8>, AllocError>
    ensures { IfOk result (λ lines. AreOnRefusal source.now script.now refusal lines.items) }
{
    match refusal.why {
        Why::Script(reason) => {
            explain_fault(alloc, source.as_bytes(), script, refusal.line, reason)
        }
        Why::Step(_) => Ok(Vec::new(alloc)),
    }
}

fn check_file<'a, F: ReadFile, W: Write>(
    alloc: Global,
    files: &F,
    path: &'a str,
    verbose: bool,
    out: &mut W,
) -> Result<Exit, OrderFault<'a>>
    ensures { Comes
        (Checks (F.says files.now path.now) (reported verbose path.now) path.now verbose
        (W.contents out.old) (W.contents out.new))
        result }
{
    match files.read_file(alloc, path) {
        Ok(text) => print_checked(out, check(alloc, path, &text, verbose)?),
        Err(error) => Err(OrderFault::of_file(path, error)),
    }
}

// Prints the report of a configuration on standard output, and returns the advice for standard error.
fn print_checked<'a, W: Write>(out: &mut W, checked: Checked) -> Result<Exit, OrderFault<'a>>
    ensures { Comes (PrintsBeside (option_map (λ lines. lines.items) checked.advice)
        checked.report.items (W.contents out.old) (W.contents out.new)) result }
{
    let Checked { report, advice } = checked;
    match write_whole(out, &report) {
        Ok(()) => match advice {
            Some(lines) => Err(OrderFault::Checked(lines)),
            None => Ok(Exit::Done),
        },
        Err(error) => Err(OrderFault::of_output(error)),
    }
}

// Prints the settings in force.
fn show_file<'a, F: ReadFile, W: Write>(
    alloc: Global,
    files: &F,
    path: &'a str,
    verbose: bool,
    out: &mut W,
) -> Result<Exit, OrderFault<'a>>
    ensures { Comes
        (Checks (F.says files.now path.now) in_force path.now verbose
        (W.contents out.old) (W.contents out.new))
        result }
{
    match files.read_file(alloc, path) {
        Ok(text) => match settings_of(alloc, path, &text, verbose) {
            Ok(conf) => print(out, &conf_text(alloc, &conf)?),
            Err(fault) => Err(fault),
        },
        Err(error) => Err(OrderFault::of_file(path, error)),
    }
}

// What to do with the settings in a file.
#[derive(Drop)]
enum Errand<'a> {
    // List what their peers are owed, or all that waits.
    List {
        listing: Listing<'a>,
        verbose: bool,
    },
    // Feed their peers.
    Feed {
        source: Source<'a>,
        drops_missing: bool,
        verbose: bool,
    },
}

fn serve<'a, F: ReadFile, P: Feeds, W: Write>(
    alloc: Global,
    files: &F,
    feeds: &mut P,
    path: &'a str,
    verbose: bool,
    errand: Errand<'a>,
    out: &mut W,
) -> Result<Exit, OrderFault<'a>>
    ensures { Comes
        (Works (F.says files.now path.now) (stranger_of_errand errand.entry)
        (DoesErrand P.fed P.listed feeds.old feeds.new (W.contents out.old) (W.contents out.new)
        errand.entry)
        (feeds.new ≡ feeds.old) path.now verbose (W.contents out.old) (W.contents out.new))
        result }
{
    match files.read_file(alloc, path) {
        Ok(text) => match settings_of(alloc, path, &text, verbose) {
            Ok(conf) => serve_by(alloc, feeds, conf, path, errand, out),
            Err(fault) => Err(fault),
        },
        Err(error) => Err(OrderFault::of_file(path, error)),
    }
}

// Does what an errand asks for by these settings, unless it asks for a name that is no peer of theirs.
fn serve_by<'a, P: Feeds, W: Write>(
    alloc: Global,
    feeds: &mut P,
    conf: Conf,
    path: &'a str,
    errand: Errand<'a>,
    out: &mut W,
) -> Result<Exit, OrderFault<'a>>
    ensures { Comes
        (TriesOn (stranger_of_errand errand.entry)
        (DoesErrand P.fed P.listed feeds.old feeds.new (W.contents out.old) (W.contents out.new)
        errand.entry)
        (feeds.new ≡ feeds.old) path.now (W.contents out.old) (W.contents out.new)
        (conf_view conf))
        result }
{
    match stranger_in(alloc, &conf, &errand) {
        Ok(Some(name)) => Err(OrderFault::Stranger { name, path }),
        Ok(None) => Err(OrderFault::Fed(run_errand(alloc, feeds, conf, path, errand, out))),
        Err(_) => Err(OrderFault::NoMemory),
    }
}

// The first name that an errand asks for and that is no peer of these settings.
fn stranger_in<'a>(
    alloc: Global,
    conf: &Conf,
    errand: &Errand<'a>,
) -> Result<Option<&'a str>, AllocError>
    ensures { IfOk result (λ name. option_map (λ octets. octets.now) name
        ≡ stranger_of_errand errand.now (conf_view conf.now)) }
{
    match errand {
        Errand::List { listing, .. } => stranger_of(alloc, conf, listing),
        Errand::Feed { .. } => Ok(None),
    }
}

fn run_errand<P: Feeds, W: Write>(
    alloc: Global,
    feeds: &mut P,
    conf: Conf,
    path: &str,
    errand: Errand<'_>,
    out: &mut W,
) -> FeedEnd
    ensures { DoesErrand P.fed P.listed feeds.old feeds.new (W.contents out.old)
        (W.contents out.new) errand.entry (conf_view conf) result }
{
    match errand {
        Errand::List { listing, verbose } => feeds.list_owed(alloc, conf, &listing, verbose, out),
        Errand::Feed {
            source,
            drops_missing,
            verbose,
        } => feeds.feed(alloc, conf, path, source, drops_missing, verbose, out),
    }
}

fn print<'a, W: Write>(out: &mut W, text: &[u8]) -> Result<Exit, OrderFault<'a>>
    ensures { Comes (Prints text.now (W.contents out.old) (W.contents out.new)) result }
{
    match write_whole(out, text) {
        Ok(()) => Ok(Exit::Done),
        Err(error) => Err(OrderFault::of_output(error)),
    }
}
