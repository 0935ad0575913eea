// The report of a configuration: what is ignored or limited in it, and how many peers it has (docs/MANUAL.md).
ghost use Rattle.std.specs.Prelude.{◌≡◌, ◌≢◌, ◌++◌, ◌⊎◌, List, Ok, Err, IfOk, OnOk, MatchResult};
ghost use Rattle.std.specs.Prelude.{option_map};
ghost use Rattle.feed_conf.specs.ConfView.{conf_view};
ghost use Rattle.feed_conf.specs.ReaderView.{report_view};
ghost use Rattle.feed_conf.specs.Settings.{Outcome};
ghost use Rattle.cli.specs.Check.{advice_line, check_text, count_text, more_text, report_text};
ghost use Rattle.cli.specs.Ends.{LacksMemory, Means, Refuses};
ghost use Rattle.cli.specs.OrderFault.{ComesBy};

use crate::fault::OrderFault;
use feed_conf::{Conf, ConfFault, ConfFaultKind, Ignored, advise, explain, read_conf};
use std::alloc::{AllocError, Global};

/// The report of a configuration without a fault.
#[derive(Drop)]
pub struct Checked {
    /// On standard output: a line for each setting that is ignored or limited, and then how many peers there are.
    pub report: Vec<u8>,
    /// For standard error, if `verbose`: what that means for the feed.
    pub advice: Option<Vec<u8>>,
}

/// Checks the configuration with this text, which was read from the file at `path`.
///
/// # Errors
/// The configuration's fault; `NoMemory`.
pub fn check<'a>(
    alloc: Global,
    path: &str,
    text: &[u8],
    verbose: bool,
) -> Result<Checked, OrderFault<'a>>
    ensures { MatchResult result
        (λ checked. (outcome : Outcome) × Means text.now (Ok outcome)
        × (checked.report.items ≡ check_text outcome)
        × (option_map (λ lines. lines.items) checked.advice ≡ advice_line verbose path.now outcome))
        (ComesBy (λ exit line. Refuses verbose path.now text.now exit line
        ⊎ LacksMemory exit line)) }
{
    match settings_of(alloc, path, text, verbose) {
        Ok(conf) => Ok(Checked {
            report: report(alloc, &conf)?,
            advice: advice(alloc, path, &conf, verbose)?,
        }),
        Err(fault) => Err(fault),
    }
}

/// Reads the settings in this text, which was read from the file at `path`.
///
/// # Errors
/// The configuration's fault, with an explanation if `verbose`; `NoMemory`.
pub fn settings_of<'a>(
    alloc: Global,
    path: &str,
    text: &[u8],
    verbose: bool,
) -> Result<Conf, OrderFault<'a>>
    ensures { MatchResult result
        (λ conf. Means text.now (Ok (conf_view conf)))
        (ComesBy (λ exit line. Refuses verbose path.now text.now exit line
        ⊎ LacksMemory exit line)) }
{
    match read_conf(alloc, text) {
        Ok(conf) => Ok(conf),
        Err(fault) if fault.kind == ConfFaultKind::NoMemory => Err(OrderFault::NoMemory),
        Err(fault) => Err(OrderFault::Config {
            fault,
            more: more(alloc, path, text, fault, verbose)?,
        }),
    }
}

fn more(
    alloc: Global,
    path: &str,
    text: &[u8],
    fault: ConfFault,
    verbose: bool,
) -> Result<Vec<u8>, AllocError>
    ensures { IfOk result (λ lines. lines.items ≡ more_text verbose path.now text.now fault) }
{
    if verbose {
        explain(alloc, path.as_bytes(), text, fault)
    } else {
        Ok(Vec::new(alloc))
    }
}

fn advice(
    alloc: Global,
    path: &str,
    conf: &Conf,
    verbose: bool,
) -> Result<Option<Vec<u8>>, AllocError>
    ensures { IfOk result (λ advice. option_map (λ lines. lines.items) advice
        ≡ advice_line verbose path.now (conf_view conf.now)) }
{
    if verbose {
        Ok(Some(advise(alloc, path.as_bytes(), conf)?))
    } else {
        Ok(None)
    }
}

fn report(alloc: Global, conf: &Conf) -> Result<Vec<u8>, AllocError>
    ensures { IfOk result (λ text. text.items ≡ check_text (conf_view conf.now)) }
{
    let mut text = Vec::new(alloc);
    let reports = conf.ignored();
    for report in reports {
        add_report(&mut text, report)?;
    }
    add_count(&mut text, conf.peers().len())?;
    Ok(text)
}

// `line N: KEY ignored` or `line N: KEY limited`.
fn add_report(out: &mut Vec<u8>, report: &Ignored) -> Result<(), AllocError>
    ensures { OnOk result (out.new.items ≡ out.old.items ++ report_text (report_view report.now)) }
{
    out.extend_from_slice(b"line ")?;
    out.extend_from_slice(itoa::Buffer::new().format(report.line).as_bytes())?;
    out.extend_from_slice(b": ")?;
    out.extend_from_slice(&report.key)?;
    if report.limited {
        out.extend_from_slice(b" limited\n")
    } else {
        out.extend_from_slice(b" ignored\n")
    }
}

// `peers N`.
fn add_count(out: &mut Vec<u8>, count: usize) -> Result<(), AllocError>
    ensures { OnOk result (out.new.items ≡ out.old.items ++ count_text count) }
{
    out.extend_from_slice(b"peers ")?;
    out.extend_from_slice(itoa::Buffer::new().format(count as u64).as_bytes())?;
    out.push(b'\n')?;
    Ok(())
}
