// The settings of the file, and its peers.
ghost use Rattle.std.specs.Prelude.{◌≡◌, ◌++◌, IfOk, OnOk, flat_map, map};
ghost use Rattle.std.specs.Option.{option_map};
ghost use Rattle.conf_text.specs.ConfText.{conf_text, file_text, innd_text, login_text, path_text, peer_text};
ghost use Rattle.conf_text.specs.ConfText.{period_text, state_text, sync_text};
ghost use Rattle.feed_conf.specs.ConfView.{conf_view};
ghost use Rattle.feed_conf.specs.PeerView.{settings_view};

use crate::line::{add_number, add_switch, add_text};
use crate::peer::add_peer;
use feed_conf::{Conf, PeerConf};
use std::alloc::{AllocError, Global};

/// The text of a configuration with all its settings in force: first those of the file, then each peer's, in the order
/// of their declarations. Defaults are filled in, and limits are applied.
///
/// # Errors
/// Memory was refused.
pub fn conf_text(alloc: Global, conf: &Conf) -> Result<Vec<u8>, AllocError>
    ensures { IfOk result (λ text. text.items ≡ conf_text (conf_view conf.now)) }
{
    let mut text = Vec::new(alloc);
    add_file(&mut text, conf)?;
    add_innd(&mut text, conf)?;
    add_login(&mut text, conf)?;
    add_state(&mut text, conf)?;
    add_peers(&mut text, conf.peers())?;
    Ok(text)
}

fn add_file(out: &mut Vec<u8>, conf: &Conf) -> Result<(), AllocError>
    ensures { OnOk result (out.new.items ≡ out.old.items ++ file_text (conf_view conf.now)) }
{
    add_text(out, b"", b"news-spool", conf.news_spool())?;
    add_text(out, b"", b"backlog-directory", conf.backlog_directory())?;
    add_text(out, b"", b"status-file", conf.status_file())?;
    add_number(out, b"", b"unknown-limit", conf.unknown_limit())?;
    Ok(())
}

fn add_innd(out: &mut Vec<u8>, conf: &Conf) -> Result<(), AllocError>
    ensures { OnOk result (out.new.items ≡ out.old.items ++ innd_text (conf_view conf.now)) }
{
    add_path(out, b"innd-spool", conf.innd_spool())?;
    add_path(out, b"innd-cycbuffs", conf.innd_cycbuffs())?;
    add_sync(out, conf.sync_spool())?;
    Ok(())
}

fn add_login(out: &mut Vec<u8>, conf: &Conf) -> Result<(), AllocError>
    ensures { OnOk result (out.new.items ≡ out.old.items ++ login_text (conf_view conf.now)) }
{
    add_path(out, b"authinfo-file", conf.authinfo_file())?;
    Ok(())
}

fn add_state(out: &mut Vec<u8>, conf: &Conf) -> Result<(), AllocError>
    ensures { OnOk result (out.new.items ≡ out.old.items ++ state_text (conf_view conf.now)) }
{
    add_path(out, b"status-json", conf.status_json())?;
    add_path(out, b"metrics-file", conf.metrics_file())?;
    add_period(out, conf.status_period())?;
    Ok(())
}

// A path, if it is given.
fn add_path(out: &mut Vec<u8>, key: &[u8], path: Option<&[u8]>) -> Result<(), AllocError>
    ensures { OnOk result (out.new.items
        ≡ out.old.items ++ path_text key.now (option_map (λ path. path.now) path.entry)) }
{
    match path {
        None => Ok(()),
        Some(path) => add_text(out, b"", key, path),
    }
}

// Whether innd's CNFS buffers are synced, if they are.
fn add_sync(out: &mut Vec<u8>, on: bool) -> Result<(), AllocError>
    ensures { OnOk result (out.new.items ≡ out.old.items ++ sync_text on) }
{
    if on {
        add_switch(out, b"", b"sync-spool", on)
    } else {
        Ok(())
    }
}

// Every how many seconds the state of the peers is written, unless it is the default.
fn add_period(out: &mut Vec<u8>, period: u64) -> Result<(), AllocError>
    ensures { OnOk result (out.new.items ≡ out.old.items ++ period_text period) }
{
    if period == 60 {
        Ok(())
    } else {
        add_number(out, b"", b"status-period", period)
    }
}

fn add_peers(out: &mut Vec<u8>, peers: &[PeerConf]) -> Result<(), AllocError>
    ensures { OnOk result (out.new.items
        ≡ out.old.items ++ flat_map peer_text (map settings_view peers.now)) }
{
    add_each(out, peers)?;
    Ok(())
}

fn add_each(out: &mut Vec<u8>, peers: &[PeerConf]) -> Result<(), AllocError>
    ensures { OnOk result (out.new.items
        ≡ out.old.items ++ flat_map (λ peer. peer_text (settings_view peer)) peers.now) }
{
    for peer in peers {
        add_peer(out, peer)?;
    }
    Ok(())
}
