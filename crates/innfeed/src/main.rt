//! `innfeed`, the outgoing feeder of a news server: the program.
//!
//! It may touch its arguments, the files that they and the configuration name, the commit beside the program, standard
//! input, both outputs, sockets and threads; the work is done by `cli`. `cli_args::read_args` makes an order of the
//! arguments, which `cli::run` does with the system's files and streams, and with `feed_run` if peers are to be fed.
//! Nothing stands above it: what it promises is what the contracts of those calls promise, and what their tests show.
#![tactic(auto)]

mod files;
mod given;
mod journal;
mod report_output;
mod streams;
mod version;

use cli::{Exit, Order, VERSION, run};
use cli_args::Asked;
use feed_ends::Feeds;
use feed_run::SystemFeeds;
use files::SystemFiles;
use given::Given;
use journal::is_journal;
use log::Level;
use log_writer::{LastLines, LeveledWrite, LineHead, RunLog};
use report_output::ReportOutput;
use std::io::{self, BufWriter, IsTerminal, Write};
use std::process::{self, ExitCode};
use std::rt::Files;
use streams::stand_in;

const NO_NULL: &str = "innfeed: cannot open /dev/null in place of closed standard streams";

const FROM_TERMINAL: &[u8] =
    b"innfeed: reading a drill script from the terminal, to its end (Ctrl-D); to feed peers: innfeed -c FILE FUNNEL; \
    all options: innfeed --help\n";

fn main(rt: HostRuntime) -> ExitCode {
    let has_level = is_journal(&rt);
    // Held to the end; nothing else is opened before.
    let Ok(_stand_ins) = stand_in(&rt) else {
        let head = LineHead {
            has_level,
            process: None,
        };
        let _ = head.write_line(rt.alloc(), &rt, &mut rt.stderr(), Level::Error, &NO_NULL);
        return ExitCode::from(Exit::Unreadable.status());
    };
    // Besides the order, the only failure is that memory is refused.
    let Ok(given) = Given::by_system(&rt) else {
        return ExitCode::from(Exit::NoMemory.status());
    };
    let Ok(asked) = given.asked(rt.alloc()) else {
        return ExitCode::from(Exit::NoMemory.status());
    };
    let head = LineHead {
        has_level,
        process: if asked.has_log_time {
            Some(process::id(rt.process()))
        } else {
            None
        },
    };
    // A feed begins it. From then on all lines on standard error go through it, the last ones too.
    let log = RunLog::new(head);
    let mut feeds = SystemFeeds::new(&rt, &rt, rt, &log, VERSION);
    let mut err = LastLines::new(&rt, rt.stderr(), &log);
    if matches!(&asked.order, Order::DrillFromInput) && rt.stdin().is_terminal() {
        err.expect_faults(0);
        let _ = err.write_all(FROM_TERMINAL);
    }
    let exit = obey(&rt, asked, &mut feeds, &mut err).unwrap_or(Exit::NoMemory);
    err.end();
    ExitCode::from(exit.status())
}

// Does what is asked for, with the system's files and streams.
fn obey<R: AllocGlobal + Input + Print + Files, P: Feeds, E: LeveledWrite>(
    rt: &R,
    asked: Asked<'_>,
    feeds: &mut P,
    err: &mut E,
) -> io::Result<Exit> {
    let Asked {
        order,
        has_log_time: _,
        unread,
    } = asked;
    if !unread.is_empty() {
        err.expect_faults(0);
        let _ = err.write_all(unread.as_bytes());
    }
    let output = ReportOutput::new(io::writer(rt), is_report(&order));
    let mut out = BufWriter::new(rt.alloc(), output)?;
    let files = SystemFiles { rt };
    let ended = run(
        rt.alloc(),
        order,
        &files,
        feeds,
        &mut rt.reader(),
        &mut out,
        err,
    );
    Ok(ended.exit)
}

// Whether an order only prints something, so that it is done once nobody reads that any more.
fn is_report(order: &Order<'_>) -> bool {
    match order {
        Order::Check { .. } | Order::PrintConf { .. } | Order::Owed { .. } | Order::Print(_) => {
            true
        }
        Order::DrillFromInput | Order::Drill(_) | Order::Feed { .. } | Order::Mistake(_) => false,
    }
}
