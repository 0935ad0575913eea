// Why an order failed, or how a feed ended, and the lines on standard error that report it (docs/MANUAL.md).
ghost use Rattle.std.specs.Prelude.{◌≡◌, ◌≢◌, ◌++◌, ◌∷◌, [], ℕ, List, IfOk, OnOk, codes};
ghost use Rattle.std.specs.Prelude.{option_map};
ghost use Rattle.cli.specs.OrderFault.{exit_of_fault, fault_count, IsFaultOf, IsLineOf};
ghost use Rattle.cli.specs.Lines.{config_text, mistake_text, no_tape_text, refusal_text};
ghost use Rattle.cli.specs.Lines.{no_peer_of, stranger_text, unread_lines};
ghost use Rattle.cli.specs.declared.fault.OrderFault.TheVariants.{NoMemory};

use crate::end_lines::{add_line, add_tape_line, end_lines};
use crate::exit::Exit;
use drill::{Refusal, TapeRefusal};
use feed_conf::ConfFault;
use feed_ends::FeedEnd;
use std::alloc::{AllocError, Global};
use std::io::{self, ErrorKind};

// The usage, which follows a mistake in the arguments.
const USAGE: &[u8] =
    b"; usage: innfeed -c FILE [-C] [-x] [-v] [--log-time] [--owed [--all] [--peer NAME ..] [--summary]] \
    [--follow] [--tidy] [--expired] [FUNNEL] | innfeed -c FILE --print-conf | innfeed --drill FILE \
    | innfeed < SCRIPT\n";

// What to do if a name is no peer.
const STRANGER_CURE: &[u8] = b"; name one of its peers, or add --all for a name that is none\n";

/// Why an order failed, or how a feed ended.
#[derive(Drop)]
pub enum OrderFault<'a> {
    /// Memory was refused. Nothing is printed.
    NoMemory,
    /// The configuration has this fault, and `more` explains it.
    Config {
        fault: ConfFault,
        more: Vec<u8>,
    },
    /// A configuration has no fault, and this is the advice on its settings.
    Checked(Vec<u8>),
    /// A line of the script from this source was refused, and `more` explains it.
    Refused {
        source: &'a str,
        refusal: Refusal,
        more: Vec<u8>,
    },
    /// The tape of a peer of a script, or of its intake, was refused.
    NoTape(TapeRefusal),
    /// The file at this path cannot be read, for this reason.
    Unread(&'a str, io::Error),
    /// Standard input cannot be read.
    Input(io::Error),
    /// Standard output cannot be written.
    Output(io::Error),
    /// This is wrong with the arguments.
    Mistake(String),
    /// What a name is owed was asked for, but it is no peer of the configuration in the file at `path`.
    Stranger {
        name: &'a str,
        path: &'a str,
    },
    /// A feed, or a list of what is owed, ended like this.
    Fed(FeedEnd),
}

impl From<AllocError> for OrderFault<'_> {
    ghost from_gives = { λ _ fault. fault ≡ NoMemory };

    fn from(_: AllocError) -> Self {
        OrderFault::NoMemory
    }
}

impl<'a> OrderFault<'a> {
    /// The fault if the file at this path could not be read: `NoMemory` if memory was refused for that.
    pub fn of_file(path: &'a str, error: io::Error) -> Self
        ensures { IsFaultOf error (OrderFault.Unread path.entry error) result }
    {
        match error.kind() {
            ErrorKind::OutOfMemory => OrderFault::NoMemory,
            _ => OrderFault::Unread(path, error),
        }
    }

    /// The fault if standard input could not be read: `NoMemory` if memory was refused for that.
    pub fn of_input(error: io::Error) -> Self
        ensures { IsFaultOf error (OrderFault.Input error) result }
    {
        match error.kind() {
            ErrorKind::OutOfMemory => OrderFault::NoMemory,
            _ => OrderFault::Input(error),
        }
    }

    /// The fault if standard output could not be written: `NoMemory` if memory was refused for that.
    pub fn of_output(error: io::Error) -> Self
        ensures { IsFaultOf error (OrderFault.Output error) result }
    {
        match error.kind() {
            ErrorKind::OutOfMemory => OrderFault::NoMemory,
            _ => OrderFault::Output(error),
        }
    }

    pub fn exit(&self) -> Exit
        ensures { result ≡ exit_of_fault self.now }
    {
        match self {
            OrderFault::NoMemory => Exit::NoMemory,
            OrderFault::Config { .. } | OrderFault::Refused { .. } => Exit::Refused,
            OrderFault::Checked(_) => Exit::Done,
            OrderFault::NoTape(_) => Exit::Tape,
            OrderFault::Unread(_, _) | OrderFault::Input(_) | OrderFault::Output(_) =>
                Exit::Unreadable,
            OrderFault::Mistake(_) | OrderFault::Stranger { .. } => Exit::Usage,
            OrderFault::Fed(end) => Exit::of_feed(end),
        }
    }

    /// How many of its lines, the first ones, report faults; the others are information. A text of unknown length is
    /// all faults, which is the greatest number.
    pub fn fault_count(&self) -> usize
        ensures { result ≡ fault_count self.now }
    {
        match self {
            OrderFault::Checked(_) => 0,
            OrderFault::Fed(end) => end.tapes.len().saturating_add(end.files.len()),
            _ => usize::MAX,
        }
    }

    /// The line that reports it, with its LF, or all lines of a feed. `None` if memory was refused.
    ///
    /// # Errors
    /// Memory was refused.
    pub fn line(&self, alloc: Global) -> Result<Option<Vec<u8>>, AllocError>
        ensures { IfOk result
            (λ line. IsLineOf self.now (option_map (λ octets. octets.items) line)) }
    {
        match self {
            OrderFault::NoMemory => Ok(None),
            OrderFault::Config { fault, more } => Ok(Some(config_lines(alloc, fault, more)?)),
            OrderFault::Checked(lines) => Ok(Some(Vec::from_slice(alloc, lines)?)),
            OrderFault::Refused {
                source,
                refusal,
                more,
            } => Ok(Some(refusal_lines(alloc, source, *refusal, more)?)),
            OrderFault::NoTape(refusal) => Ok(Some(no_tape_line(alloc, refusal)?)),
            OrderFault::Unread(path, error) => Ok(Some(unread_line(alloc, path, error)?)),
            OrderFault::Input(error) => {
                Ok(Some(stream_line(alloc, b"cannot read standard input", error)?))
            }
            OrderFault::Output(error) => {
                Ok(Some(stream_line(alloc, b"cannot write standard output", error)?))
            }
            OrderFault::Mistake(what) => Ok(Some(mistake_line(alloc, what.as_str())?)),
            OrderFault::Stranger { name, path } => Ok(Some(stranger_line(alloc, name, path)?)),
            OrderFault::Fed(end) => Ok(Some(end_lines(alloc, end)?)),
        }
    }
}

// `config line N: KIND`, and the explanation.
fn config_lines(alloc: Global, fault: &ConfFault, more: &[u8]) -> Result<Vec<u8>, AllocError>
    ensures { IfOk result (λ lines. lines.items ≡ config_text fault.now ++ more.now) }
{
    let mut line = Vec::from_slice(alloc, b"config line ")?;
    line.extend_from_slice(itoa::Buffer::new().format(fault.line).as_bytes())?;
    line.extend_from_slice(b": ")?;
    line.extend_from_slice(fault.kind.name().as_bytes())?;
    line.push(b'\n')?;
    line.extend_from_slice(more)?;
    Ok(line)
}

// `FILE: line N: REASON`, and the explanation.
fn refusal_lines(
    alloc: Global,
    source: &str,
    refusal: Refusal,
    more: &[u8],
) -> Result<Vec<u8>, AllocError>
    ensures { IfOk result
        (λ lines. lines.items ≡ refusal_text source.now refusal ++ more.now) }
{
    let mut line = Vec::from_slice(alloc, source.as_bytes())?;
    line.extend_from_slice(b": line ")?;
    line.extend_from_slice(itoa::Buffer::new().format(refusal.line).as_bytes())?;
    line.extend_from_slice(b": ")?;
    line.extend_from_slice(refusal.why.words().as_bytes())?;
    line.push(b'\n')?;
    line.extend_from_slice(more)?;
    Ok(line)
}

// `tape NAME: KIND`.
fn no_tape_line(alloc: Global, refusal: &TapeRefusal) -> Result<Vec<u8>, AllocError>
    ensures { IfOk result (λ line. line.items ≡ no_tape_text refusal.now) }
{
    let mut line = Vec::new(alloc);
    let name = match &refusal.peer {
        Some(name) => name.bytes(),
        None => b"~intake".as_slice(),
    };
    add_tape_line(&mut line, name, refusal.fault)?;
    Ok(line)
}

// `PATH: REASON`, and `cannot read PATH`.
fn unread_line(alloc: Global, path: &str, error: &io::Error) -> Result<Vec<u8>, AllocError>
    ensures { IfOk result
        (λ line. (reason : List ℕ) × (line.items ≡ unread_lines path.now reason)) }
{
    let reason = error.to_string(alloc)?;
    unread_line_of(alloc, path, reason.as_bytes())
}

fn unread_line_of(alloc: Global, path: &str, reason: &[u8]) -> Result<Vec<u8>, AllocError>
    ensures { IfOk result (λ line. line.items ≡ unread_lines path.now reason.now) }
{
    let mut lines = Vec::from_slice(alloc, path.as_bytes())?;
    add_line(&mut lines, b": ", reason)?;
    add_line(&mut lines, b"cannot read ", path.as_bytes())?;
    Ok(lines)
}

// `innfeed: WHAT: REASON`.
fn stream_line(alloc: Global, what: &[u8], error: &io::Error) -> Result<Vec<u8>, AllocError>
    ensures { IfOk result (λ line. (reason : List ℕ) ×
        (line.items ≡ codes "innfeed: " ++ what.now ++ codes ": " ++ reason ++ 10 ∷ [])) }
{
    let reason = error.to_string(alloc)?;
    let mut line = Vec::from_slice(alloc, b"innfeed: ")?;
    line.extend_from_slice(what)?;
    line.extend_from_slice(b": ")?;
    line.extend_from_slice(reason.as_bytes())?;
    line.push(b'\n')?;
    Ok(line)
}

// `innfeed: WHAT; usage: ..`.
fn mistake_line(alloc: Global, what: &str) -> Result<Vec<u8>, AllocError>
    ensures { IfOk result (λ line. line.items ≡ mistake_text what.now) }
{
    let mut line = Vec::from_slice(alloc, b"innfeed: ")?;
    line.extend_from_slice(what.as_bytes())?;
    line.extend_from_slice(USAGE)?;
    Ok(line)
}

// `innfeed: NAME is no peer of PATH; ..`.
fn stranger_line(alloc: Global, name: &str, path: &str) -> Result<Vec<u8>, AllocError>
    ensures { IfOk result (λ line. line.items ≡ stranger_text name.now path.now) }
{
    let mut line = Vec::from_slice(alloc, b"innfeed: ")?;
    line.extend_from_slice(name.as_bytes())?;
    add_no_peer_of(&mut line, path)?;
    Ok(line)
}

fn add_no_peer_of(line: &mut Vec<u8>, path: &str) -> Result<(), AllocError>
    ensures { OnOk result (line.new.items ≡ line.old.items ++ no_peer_of path.now) }
{
    line.extend_from_slice(b" is no peer of ")?;
    line.extend_from_slice(path.as_bytes())?;
    line.extend_from_slice(STRANGER_CURE)?;
    Ok(())
}
