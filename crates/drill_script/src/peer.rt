// What a script's `peer` line declares (docs/FORMATS.md).
ghost use Rattle.std.specs.Prelude.{◌≡◌, ◌≢◌, ◌∷◌, ◌++◌, [], IfOk, IsTrue, MatchOption, codes};
ghost use Rattle.funnel.specs.Names.{is_peer_name};
ghost use Rattle.feed_conf.specs.PeerView.{settings_view};
ghost use Rattle.feed_conf.specs.Settings.{Settings};
ghost use Rattle.feed_conf.specs.declared.conf.PeerConf.{PeerConf};
ghost use Rattle.drill_script.specs.Peer.{IsNamedWith, SaysPeer, peer_text};
ghost use Rattle.drill_script.specs.Words.{IsSolid};

use crate::words::split_word;
use feed_conf::{ConfFaultKind, PeerConf, read_conf};
use std::alloc::{AllocError, Global};

/// Reads the text after `peer `: the settings of a name and its items on one line, if they are those of one peer of
/// that name. Items may close their block, so another peer may follow it; text without a name declares none.
///
/// # Errors
/// Memory was refused.
pub fn read_peer(alloc: Global, declaration: &[u8]) -> Result<Option<PeerConf>, AllocError>
    ensures { IfOk result (λ found. MatchOption found
        ((peer : Settings) → SaysPeer (codes "peer " ++ declaration.now) peer → ⊥)
        (λ conf. SaysPeer (codes "peer " ++ declaration.now) (settings_view conf))) }
{
    let (name, items) = split_peer(declaration);
    let text = write_peer(alloc, name, items)?;
    match read_conf(alloc, &text) {
        Ok(conf) => Ok(only_peer(conf.into_peers(), name)),
        Err(fault) => match fault.kind {
            ConfFaultKind::NoMemory => Err(AllocError),
            _ => Ok(None),
        },
    }
}

/// Splits the text after `peer `: the name, and the items after its space, if there are any.
pub fn split_peer(declaration: &[u8]) -> (&[u8], &[u8])
    ensures parts { IsNamedWith declaration.now result.0.now result.1.now }
    ensures solid { IsSolid result.0.now }
{
    match split_word(declaration) {
        (name, Some(items)) => (name, items),
        (name, None) => (name, &[]),
    }
}

/// The block of a peer's settings, on one line.
///
/// # Errors
/// Memory was refused.
pub fn write_peer(alloc: Global, name: &[u8], items: &[u8]) -> Result<Vec<u8>, AllocError>
    ensures { IfOk result (λ text. text.items ≡ peer_text name.now items.now) }
{
    let mut text = Vec::new(alloc);
    text.extend_from_slice(b"peer ")?;
    text.extend_from_slice(name)?;
    text.extend_from_slice(b" { ")?;
    text.extend_from_slice(items)?;
    text.extend_from_slice(b" }")?;
    Ok(text)
}

// The peer, if it is the only one and has this name.
fn only_peer(mut peers: Vec<PeerConf>, name: &[u8]) -> Option<PeerConf>
    ensures { MatchOption result
        ((conf : PeerConf) → peers.items ≡ conf ∷ [] → conf.name ≢ name.now)
        (λ conf. (peers.items ≡ conf ∷ []) × (conf.name ≡ name.now)
        × IsTrue (is_peer_name name.now)) }
{
    let conf = peers.pop()?;
    if peers.is_empty() && conf.name.bytes() == name {
        Some(conf)
    } else {
        None
    }
}
