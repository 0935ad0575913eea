// The values of peers, looked up in the table of uses.
ghost use Rattle.std.specs.Prelude.{◌≡◌, ◌<◌, ◌*◌, ◌^◌, ◌++◌, ◌∷◌, [], IfErr, IfOk, List};
ghost use Rattle.std.specs.Prelude.{MatchResult, map};
ghost use Rattle.feed_conf.specs.declared.fault.ConfFaultKind.TheVariants.{NoMemory};
ghost use Rattle.feed_conf.specs.Reading.{Use};
ghost use Rattle.feed_conf.specs.ReaderView.{declared_view};
ghost use Rattle.feed_conf.specs.Settings.{high_water, settings_of};
ghost use Rattle.feed_conf.specs.Bounds.{HoldsBounded};
ghost use Rattle.feed_conf.specs.TableView.{IsTableOf};
ghost use Rattle.feed_conf.specs.PeerView.{Judges, settings_view};

use crate::conf::PeerConf;
use crate::fault::{ConfFault, ConfFaultKind};
use crate::key::SettingKey;
use crate::reader::Declared;
use crate::table::Table;
use std::alloc::Global;

// The high water of a backlog. The bounds of both keys keep the product far below 2 ^ 64.
fn high_water(written: u64, limit: u64, factor: u64) -> u64
    requires { limit * factor < 2 ^ 64 }
    ensures { result ≡ high_water written limit factor }
{
    if written == 0 {
        limit * factor / 100
    } else {
        written
    }
}

fn peer_conf(
    alloc: Global,
    table: &Table<'_>,
    outer: &[usize],
    peer: &Declared,
) -> Result<PeerConf, ConfFaultKind>
    requires { HoldsBounded table.now }
    ensures value { (uses : List Use) → IsTableOf table.now uses
        → IfOk result (λ conf. settings_view conf
        ≡ settings_of uses outer.now (declared_view peer.now)) }
    ensures fault { IfErr result (λ kind. kind ≡ NoMemory) }
{
    let written = table.number(outer, peer, SettingKey::BacklogLimitHighwater);
    let backlog_limit = table.number(outer, peer, SettingKey::BacklogLimit);
    let factor = table.number(outer, peer, SettingKey::BacklogFactor);
    let backlog_high = high_water(written, backlog_limit, factor);
    let name = peer.name.clone()?;
    let ip_name = table.text(alloc, outer, peer, SettingKey::IpName)?;
    Ok(PeerConf {
        name,
        ip_name,
        port: table.number(outer, peer, SettingKey::PortNumber),
        streaming: table.switch(outer, peer, SettingKey::Streaming),
        max_connections: table.number(outer, peer, SettingKey::MaxConnections),
        max_queue: table.number(outer, peer, SettingKey::MaxQueueSize),
        check_high: table.number(outer, peer, SettingKey::NoCheckHigh),
        check_low: table.number(outer, peer, SettingKey::NoCheckLow),
        check_filter: table.number(outer, peer, SettingKey::NoCheckFilter),
        response_timeout: table.number(outer, peer, SettingKey::ResponseTimeout),
        first_wait: table.number(outer, peer, SettingKey::InitialReconnectTime),
        most_wait: table.number(outer, peer, SettingKey::MaxReconnectTime),
        drop_deferred: table.switch(outer, peer, SettingKey::DropDeferred),
        backlog_limit,
        backlog_high,
    })
}

fn add_conf(mut confs: Vec<PeerConf>, conf: PeerConf) -> Result<Vec<PeerConf>, ConfFaultKind>
    ensures { MatchResult result (λ more. more.items ≡ confs.items ++ conf ∷ [])
        (λ kind. kind ≡ NoMemory) }
{
    confs.push(conf)?;
    Ok(confs)
}

// Fails at the first peer whose shares are crossed.
pub(crate) fn peer_confs(
    alloc: Global,
    table: &Table<'_>,
    outer: &[usize],
    peers: &[Declared],
) -> Result<Vec<PeerConf>, ConfFault>
    requires { HoldsBounded table.now }
    ensures { (uses : List Use) → IsTableOf table.now uses
        → Judges uses outer.now (map declared_view peers.now) result }
{
    let mut confs = Vec::new(alloc);
    for peer in peers {
        match peer_conf(alloc, table, outer, peer) {
            Err(kind) => return Err(ConfFault {
                line: peer.line,
                kind,
            }),
            Ok(conf) => {
                if conf.check_high < conf.check_low {
                    return Err(ConfFault {
                        line: peer.line,
                        kind: ConfFaultKind::LowAboveHigh,
                    });
                }
                match add_conf(confs, conf) {
                    Ok(more) => confs = more,
                    Err(kind) => return Err(ConfFault {
                        line: peer.line,
                        kind,
                    }),
                }
            }
        }
    }
    Ok(confs)
}
