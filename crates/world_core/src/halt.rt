// What a stop makes of all stations: they close, and each disk keeps what the stop's choice leaves of it.
ghost use Rattle.std.specs.Prelude.{◌≡◌, ◌≤◌, [], List, length, map, IfOk, vec_capacity, vec_len};
ghost use Rattle.std.specs.List.{AllZip};
ghost use Rattle.world_core.specs.Halting.{AreLeftBy, IsLeftOf, with_disks};
ghost use Rattle.world_core.specs.Halts.{AtRest, left_peer};
ghost use Rattle.world_core.specs.Past.{PeerPast};
ghost use Rattle.world_core.specs.Stands.{PeerStands, StoppedStands};

use crate::peer::{Peer, StoppedPeer};
use crate::stations::Stations;
use crate::stop::StopDisk;
use disk_model::Choice;
use std::alloc::{AllocError, Global};

impl Peer<StopDisk> {
    // Stops it: pending notes are gone, and its disks stay as they are.
    fn halt(self) -> StoppedPeer
        ensures { (past : PeerPast) → PeerStands past self
            → StoppedStands (left_peer AtRest past) result }
    {
        let Peer { conf, station, .. } = self;
        let disks = station.into_disks();
        StoppedPeer { conf, disks }
    }
}

impl Stations<StopDisk> {
    ghost use Rattle.world_core.specs.Halting.{TapesStop};
    ghost use Rattle.world_core.specs.Halts.{left};
    ghost use Rattle.world_core.specs.Past.{Past};
    ghost use Rattle.world_core.specs.Stands.{Stands};

    // Stops all peers, for which there is room, and the intake: pending notes are gone, and all disks stay as they are.
    pub(crate) fn halt(self, room: Vec<StoppedPeer>) -> (Vec<StoppedPeer>, (StopDisk, StopDisk))
        requires empty { room.items ≡ [] }
        requires room { vec_len self.peers ≤ vec_capacity room }
        ensures { (past : Past) → Stands self past
            → TapesStop (left AtRest past) result.0.items result.1 }
    {
        let Stations { peers, intake, .. } = self;
        (halt_each(peers, room), intake.into_disks())
    }
}

pub(crate) fn halt_each(peers: Vec<Peer<StopDisk>>, mut room: Vec<StoppedPeer>) -> Vec<StoppedPeer>
    requires empty { room.items ≡ [] }
    requires room { vec_len peers ≤ vec_capacity room }
    ensures stops { (pasts : List PeerPast) → AllZip PeerStands pasts peers.items
        → AllZip StoppedStands (map (left_peer AtRest) pasts) result.items }
    ensures count { vec_len result ≡ vec_len peers }
    ensures room { vec_capacity result ≡ vec_capacity room }
{
    for peer in peers {
        room.push_reserved(peer.halt());
    }
    room
}

// What the choice leaves of two disks, as new disks.
pub(crate) fn left_disks(
    disks: &(StopDisk, StopDisk),
    choice: Choice,
) -> Result<(StopDisk, StopDisk), AllocError>
    ensures { IfOk result (AreLeftBy choice disks.now) }
{
    Ok((disks.0.left(choice)?, disks.1.left(choice)?))
}

// What the choice leaves of the disks of these peers, as new disks.
pub(crate) fn left_each(
    alloc: Global,
    peers: &[StoppedPeer],
    choice: Choice,
) -> Result<Vec<(StopDisk, StopDisk)>, AllocError>
    ensures { IfOk result (λ disks. AllZip (IsLeftOf choice) peers.now disks.items) }
{
    let mut disks = Vec::new(alloc);
    for peer in peers {
        disks.push(left_disks(&peer.disks, choice)?)?;
    }
    Ok(disks)
}

// Replaces the disks of each of these peers. There is room for them.
pub(crate) fn with_disks(
    peers: Vec<StoppedPeer>,
    disks: Vec<(StopDisk, StopDisk)>,
    mut room: Vec<StoppedPeer>,
) -> Vec<StoppedPeer>
    requires empty { room.items ≡ [] }
    requires room { vec_len peers ≤ vec_capacity room }
    ensures { result.items ≡ with_disks peers.items disks.items }
{
    let mut disks = disks.into_iter();
    for peer in peers {
        match disks.next() {
            Some(disks) => room.push_reserved(StoppedPeer {
                conf: peer.conf,
                disks,
            }),
            None => room.push_reserved(peer),
        }
    }
    room
}
