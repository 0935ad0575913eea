// Messages on settings that are ignored, limited or without effect, and on a configuration without peers
// (docs/MANUAL.md).
ghost use Rattle.std.specs.Prelude.{◌≡◌, ◌++◌, IfOk, OnOk, flat_map, map};
ghost use Rattle.std.specs.Option.{option_map};
ghost use Rattle.feed_conf.specs.Advice.{advice, advice_text, changed_text, cycbuffs_text, effect_text, foreign_text};
ghost use Rattle.feed_conf.specs.Advice.{is_address, is_closing, is_default_address, is_default_growth};
ghost use Rattle.feed_conf.specs.Advice.{is_default_time, is_default_water, is_growth, is_import, is_inn_default};
ghost use Rattle.feed_conf.specs.Advice.{is_house, is_login, is_mail, is_off_by_default, is_source};
ghost use Rattle.feed_conf.specs.Advice.{is_ten_minutes, is_timing, lone_cycbuffs_text, no_peers_text, peers_text};
ghost use Rattle.feed_conf.specs.Advice.{report_text};
ghost use Rattle.feed_conf.specs.ConfView.{conf_view};
ghost use Rattle.feed_conf.specs.Keys.{key_of};
ghost use Rattle.feed_conf.specs.PeerView.{settings_view};
ghost use Rattle.feed_conf.specs.ReaderView.{report_view};

use crate::conf::{Conf, Ignored, PeerConf};
use crate::explanation::add_place;
use crate::item::is_text;
use crate::key::find_key;
use crate::value::spells_false;
use std::alloc::{AllocError, Global};

/// The messages on `conf`, which was read from `file`: one for each setting that is ignored or limited, in reading
/// order, with what that means for the feed, one if innd's list of CNFS buffers is given without its spool, and one if
/// there are no peers. Empty if there is nothing to report.
///
/// # Errors
/// Memory was refused.
pub fn advise(alloc: Global, file: &[u8], conf: &Conf) -> Result<Vec<u8>, AllocError>
    ensures { IfOk result (λ lines. lines.items ≡ advice file.now (conf_view conf.now)) }
{
    let mut lines = Vec::new(alloc);
    let reports = conf.ignored();
    for report in reports {
        add_report(&mut lines, file, report)?;
    }
    add_cycbuffs(&mut lines, file, conf.innd_spool(), conf.innd_cycbuffs())?;
    add_peers(&mut lines, file, conf.peers())?;
    Ok(lines)
}

fn add_report(out: &mut Vec<u8>, file: &[u8], report: &Ignored) -> Result<(), AllocError>
    ensures { OnOk result
        (out.new.items ≡ out.old.items ++ report_text file.now (report_view report.now)) }
{
    add_place(out, file, report.line)?;
    out.extend_from_slice(&report.key)?;
    if report.limited {
        out.extend_from_slice(b": limited; the greatest value that is allowed is taken\n")
    } else {
        out.extend_from_slice(b": ignored; ")?;
        out.extend_from_slice(effect(&report.key, &report.value))?;
        out.push(b'\n')?;
        Ok(())
    }
}

// The list of CNFS buffers is used only beside innd's spool.
fn add_cycbuffs(
    out: &mut Vec<u8>,
    file: &[u8],
    spool: Option<&[u8]>,
    cycbuffs: Option<&[u8]>,
) -> Result<(), AllocError>
    ensures { OnOk result (out.new.items ≡ out.old.items
        ++ cycbuffs_text file.now (option_map (λ path. path.now) spool.entry)
        (option_map (λ path. path.now) cycbuffs.entry)) }
{
    match (spool, cycbuffs) {
        (None, Some(_)) => add_lone_cycbuffs(out, file),
        (None, None) => Ok(()),
        (Some(_), _) => Ok(()),
    }
}

fn add_lone_cycbuffs(out: &mut Vec<u8>, file: &[u8]) -> Result<(), AllocError>
    ensures { OnOk result (out.new.items ≡ out.old.items ++ lone_cycbuffs_text file.now) }
{
    out.extend_from_slice(file)?;
    out.extend_from_slice(b": innd-cycbuffs has no effect without innd-spool")?;
    out.push(b'\n')?;
    Ok(())
}

fn add_peers(out: &mut Vec<u8>, file: &[u8], peers: &[PeerConf]) -> Result<(), AllocError>
    ensures { OnOk result
        (out.new.items ≡ out.old.items ++ peers_text file.now (map settings_view peers.now)) }
{
    match peers {
        [] => add_no_peers(out, file),
        [_, ..] => Ok(()),
    }
}

fn add_no_peers(out: &mut Vec<u8>, file: &[u8]) -> Result<(), AllocError>
    ensures { OnOk result (out.new.items ≡ out.old.items ++ no_peers_text file.now) }
{
    out.extend_from_slice(file)?;
    out.extend_from_slice(b": no peers; nothing will be fed")?;
    out.push(b'\n')?;
    Ok(())
}

// What it means that a setting of this name is ignored, whether or not the profile has it.
fn effect(name: &[u8], value: &[u8]) -> &'static [u8]
    ensures { result.now ≡ effect_text name.now value.now (key_of name.now) }
{
    match find_key(name) {
        Some(_) => b"belongs outside all blocks",
        None => foreign_effect(name, value),
    }
}

// The same for a name that the profile does not have: a setting of INN's, or an unknown one.
fn foreign_effect(name: &[u8], value: &[u8]) -> &'static [u8]
    ensures { result.now ≡ foreign_text name.now value.now }
{
    if is_inn_default(name, value) {
        b"does not change the feed: this is INN's default"
    } else {
        changed_effect(name)
    }
}

// The same, unless the value is INN's default.
fn changed_effect(name: &[u8]) -> &'static [u8]
    ensures { result.now ≡ changed_text name.now }
{
    if is_login(name) {
        b"changes the feed: innfeed does not log in to its peers"
    } else if is_source(name) {
        b"changes the feed: the system chooses the addresses of connections"
    } else if is_growth(name) {
        b"changes the feed: connections are opened as the queue grows"
    } else if is_closing(name) {
        b"changes the feed: no connection closes for its age; idle ones do with --follow"
    } else if is_text(name, b"no-backlog") {
        b"changes the feed: what a peer does not take stays queued"
    } else if is_text(name, b"backlog-feed-first") {
        b"changes the feed: the oldest article is offered first"
    } else if is_import(name) {
        b"changes the feed: backlog files are taken in at the start alone"
    } else if is_text(name, b"input-file") {
        b"changes the feed: FUNNEL is an argument"
    } else if is_house(name) || is_timing(name) || is_mail(name) {
        b"does not change the feed"
    } else {
        b"innfeed.conf(5) has no such setting"
    }
}

// INN's default for a setting that would change the feed.
fn is_inn_default(name: &[u8], value: &[u8]) -> bool
    ensures { result ≡ is_inn_default name.now value.now }
{
    (is_off_by_default(name) && spells_false(value))
        || is_default_address(name, value)
        || is_default_time(name, value)
        || is_default_growth(name, value)
}

// Settings that are off by default.
fn is_off_by_default(name: &[u8]) -> bool
    ensures { result ≡ is_off_by_default name.now }
{
    is_text(name, b"force-ipv4")
        || is_text(name, b"min-queue-connection")
        || is_text(name, b"no-backlog")
        || is_text(name, b"backlog-feed-first")
}

// INN's default addresses.
fn is_default_address(name: &[u8], value: &[u8]) -> bool
    ensures { result ≡ is_default_address name.now value.now }
{
    is_address(name) && is_text(value, b"any")
}

fn is_address(name: &[u8]) -> bool
    ensures { result ≡ is_address name.now }
{
    is_text(name, b"bindaddress") || is_text(name, b"bindaddress6")
}

// INN's default times, in seconds.
fn is_default_time(name: &[u8], value: &[u8]) -> bool
    ensures { result ≡ is_default_time name.now value.now }
{
    (is_ten_minutes(name) && is_text(value, b"600"))
        || (is_text(name, b"backlog-rotate-period") && is_text(value, b"60"))
        || (is_text(name, b"close-period") && is_text(value, b"86400"))
}

// Settings whose default is ten minutes.
fn is_ten_minutes(name: &[u8]) -> bool
    ensures { result ≡ is_ten_minutes name.now }
{
    is_text(name, b"article-timeout") || is_text(name, b"backlog-newfile-period")
}

// INN's defaults for how the number of connections grows.
fn is_default_growth(name: &[u8], value: &[u8]) -> bool
    ensures { result ≡ is_default_growth name.now value.now }
{
    (is_text(name, b"initial-connections") && is_text(value, b"1"))
        || (is_text(name, b"dynamic-method") && is_text(value, b"3"))
        || is_default_water(name, value)
}

// INN's defaults for the waters of a queue by which the number of connections grows.
fn is_default_water(name: &[u8], value: &[u8]) -> bool
    ensures { result ≡ is_default_water name.now value.now }
{
    (is_text(name, b"dynamic-backlog-low") && is_text(value, b"20.0"))
        || (is_text(name, b"dynamic-backlog-high") && is_text(value, b"50.0"))
        || (is_text(name, b"dynamic-backlog-filter") && is_text(value, b"0.7"))
}

// Settings by which a connection logs in.
fn is_login(name: &[u8]) -> bool
    ensures { result ≡ is_login name.now }
{
    is_text(name, b"username") || is_text(name, b"password")
}

// Settings that choose the source address of a connection.
fn is_source(name: &[u8]) -> bool
    ensures { result ≡ is_source name.now }
{
    is_text(name, b"bindaddress") || is_text(name, b"bindaddress6") || is_text(name, b"force-ipv4")
}

// Settings that let the number of connections grow.
fn is_growth(name: &[u8]) -> bool
    ensures { result ≡ is_growth name.now }
{
    is_text(name, b"initial-connections")
        || is_text(name, b"dynamic-method")
        || is_text(name, b"dynamic-backlog-low")
        || is_text(name, b"dynamic-backlog-high")
        || is_text(name, b"dynamic-backlog-filter")
        || is_text(name, b"min-queue-connection")
}

// Settings that close connections after a time.
fn is_closing(name: &[u8]) -> bool
    ensures { result ≡ is_closing name.now }
{
    is_text(name, b"close-period") || is_text(name, b"article-timeout")
}

// Settings of logs, status pages and files, and of the process.
fn is_house(name: &[u8]) -> bool
    ensures { result ≡ is_house name.now }
{
    is_text(name, b"pid-file")
        || is_text(name, b"log-file")
        || is_text(name, b"log-time-format")
        || is_text(name, b"debug-level")
        || is_text(name, b"debug-shrinking")
        || is_text(name, b"gen-html")
        || is_text(name, b"connection-stats")
        || is_text(name, b"stats-period")
        || is_text(name, b"stats-reset")
        || is_text(name, b"fast-exit")
        || is_text(name, b"use-mmap")
        || is_text(name, b"stdio-fdmax")
}

// Settings that say how often INN looks for backlog files while it runs.
fn is_import(name: &[u8]) -> bool
    ensures { result ≡ is_import name.now }
{
    is_text(name, b"backlog-rotate-period") || is_text(name, b"backlog-newfile-period")
}

// Settings that say when files and names are renewed, and what waits in memory.
fn is_timing(name: &[u8]) -> bool
    ensures { result ≡ is_timing name.now }
{
    is_text(name, b"backlog-ckpt-period")
        || is_text(name, b"backlog-highwater")
        || is_text(name, b"host-queue-highwater")
        || is_text(name, b"initial-sleep")
        || is_text(name, b"dns-retry")
        || is_text(name, b"dns-expire")
}

// Settings for mail, which innfeed does not send.
fn is_mail(name: &[u8]) -> bool
    ensures { result ≡ is_mail name.now }
{
    is_text(name, b"deliver-authname")
        || is_text(name, b"deliver-password")
        || is_text(name, b"deliver-username")
        || is_text(name, b"deliver-realm")
        || is_text(name, b"deliver-rcpt-to")
        || is_text(name, b"deliver-to-header")
}
