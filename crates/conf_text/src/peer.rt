// The settings of a peer.
ghost use Rattle.std.specs.Prelude.{◌≡◌, ◌++◌, OnOk, codes};
ghost use Rattle.conf_text.specs.ConfText.{backlog_text, check_text, connections_text, head_text, high_text};
ghost use Rattle.conf_text.specs.ConfText.{is_made, least_factor, peer_text, rest_text, waits_text};
ghost use Rattle.feed_conf.specs.PeerView.{settings_view};

use crate::line::{INSIDE, add_fraction, add_number, add_switch, add_text};
use feed_conf::PeerConf;
use std::alloc::AllocError;

/// Adds a peer's block, with all its settings.
///
/// # Errors
/// Memory was refused.
pub(crate) fn add_peer(out: &mut Vec<u8>, peer: &PeerConf) -> Result<(), AllocError>
    ensures { OnOk result
        (out.new.items ≡ out.old.items ++ peer_text (settings_view peer.now)) }
{
    add_head(out, peer.name.bytes())?;
    add_connections(out, peer)?;
    add_check(out, peer)?;
    add_rest(out, peer)
}

fn add_head(out: &mut Vec<u8>, name: &[u8]) -> Result<(), AllocError>
    ensures { OnOk result (out.new.items ≡ out.old.items ++ head_text name.now) }
{
    out.extend_from_slice(b"peer ")?;
    out.extend_from_slice(name)?;
    out.extend_from_slice(b" {\n")
}

// How long it waits, its backlog, and the end of the block.
fn add_rest(out: &mut Vec<u8>, peer: &PeerConf) -> Result<(), AllocError>
    ensures { OnOk result
        (out.new.items ≡ out.old.items ++ rest_text (settings_view peer.now)) }
{
    add_waits(out, peer)?;
    add_backlog(out, peer)?;
    out.extend_from_slice(b"}\n")
}

// Where it is, and how many connections there are.
fn add_connections(out: &mut Vec<u8>, peer: &PeerConf) -> Result<(), AllocError>
    ensures { OnOk result
        (out.new.items ≡ out.old.items ++ connections_text (settings_view peer.now)) }
{
    add_text(out, INSIDE, b"ip-name", &peer.ip_name)?;
    add_number(out, INSIDE, b"port-number", peer.port)?;
    add_switch(out, INSIDE, b"streaming", peer.streaming)?;
    add_number(out, INSIDE, b"max-connections", peer.max_connections)?;
    add_number(out, INSIDE, b"max-queue-size", peer.max_queue)?;
    Ok(())
}

// When CHECK is left out.
fn add_check(out: &mut Vec<u8>, peer: &PeerConf) -> Result<(), AllocError>
    ensures { OnOk result
        (out.new.items ≡ out.old.items ++ check_text (settings_view peer.now)) }
{
    add_fraction(out, INSIDE, b"no-check-high", peer.check_high)?;
    add_fraction(out, INSIDE, b"no-check-low", peer.check_low)?;
    add_number(out, INSIDE, b"no-check-filter", peer.check_filter)
}

// How long it waits, and whether it gives up what is deferred.
fn add_waits(out: &mut Vec<u8>, peer: &PeerConf) -> Result<(), AllocError>
    ensures { OnOk result
        (out.new.items ≡ out.old.items ++ waits_text (settings_view peer.now)) }
{
    add_number(out, INSIDE, b"response-timeout", peer.response_timeout)?;
    add_number(out, INSIDE, b"initial-reconnect-time", peer.first_wait)?;
    add_number(out, INSIDE, b"max-reconnect-time", peer.most_wait)?;
    add_switch(out, INSIDE, b"drop-deferred", peer.drop_deferred)
}

fn add_backlog(out: &mut Vec<u8>, peer: &PeerConf) -> Result<(), AllocError>
    ensures { OnOk result
        (out.new.items ≡ out.old.items ++ backlog_text (settings_view peer.now)) }
{
    add_number(out, INSIDE, b"backlog-limit", peer.backlog_limit)?;
    add_high(out, peer.backlog_limit, peer.backlog_high)?;
    Ok(())
}

// The high water of a backlog, or the least factor that makes it.
fn add_high(out: &mut Vec<u8>, limit: u64, high: u64) -> Result<(), AllocError>
    ensures { OnOk result (out.new.items ≡ out.old.items ++ high_text limit high) }
{
    if is_made(limit, high) {
        let factor = (high * 100 + (limit - 1)) / limit;
        add_fraction(out, INSIDE, b"backlog-factor", factor)
    } else {
        add_number(out, INSIDE, b"backlog-limit-highwater", high)
    }
}

// A high water that its key cannot have was made by a factor.
fn is_made(limit: u64, high: u64) -> bool
    ensures { result ≡ is_made limit high }
{
    4_294_967_296 < high && high <= 429_496_729_600 && 1 <= limit && limit <= 4_294_967_296
}
