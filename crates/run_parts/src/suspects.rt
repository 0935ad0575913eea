// Suspects, from one run to the next.
use connections::Suspects;
use feed_conf::PeerConf;
use intake::{keep_suspects, log_malformed_suspects, read_suspects};
use log::Log;
use std::alloc::AllocError;
use std::fs::File;
use std::rt::Files;
use std::sync::Wait;

/// The suspects of these peers, in their order, as earlier runs have kept them in the backlog directory at this path.
///
/// # Errors
/// Memory was refused.
pub(crate) fn suspects_of<R: Log, F: AllocGlobal + Files<File = File>>(
    rt: &R,
    files: &F,
    directory: &str,
    peers: &[PeerConf],
) -> Result<Suspects, AllocError> {
    let mut suspects = Suspects::new(files.alloc());
    for peer in peers {
        let text = read_suspects(rt, files, directory, peer.name.bytes())?;
        let malformed = suspects.add_peer(peer.name.clone()?, &text)?;
        log_malformed_suspects(rt, directory, peer.name.bytes(), malformed);
    }
    Ok(suspects)
}

/// Keeps the suspects of each peer for the next run, in the backlog directory at this path. If memory is refused, those
/// of earlier runs stay there.
pub fn keep_all<R: Wait + Log, F: AllocGlobal + Files<File = File>>(
    rt: &R,
    files: &F,
    directory: &str,
    suspects: &Suspects,
) {
    for peer in 0..suspects.peers() {
        if let Some(name) = suspects.name(peer)
            && let Ok(text) = suspects.text(rt, peer)
        {
            let _ = keep_suspects(rt, files, directory, name.bytes(), &text);
        }
    }
}
