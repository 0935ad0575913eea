// The steps of a world on its connections: each finds the connection and its peer, and reports what comes of it.
ghost use Rattle.std.specs.Prelude.{◌≡◌, ◌≢◌, ◌+◌, ◌<◌, ◌^◌, [], Some, length, map, slice_get};
ghost use Rattle.std.specs.Prelude.{IfErr, IfNone, IfOk, IfSome, OnOk, vec_len};
ghost use Rattle.std.specs.List.{AllByRecursion};
ghost use Rattle.std.specs.List.Sorted.{IsStrictlyIncreasing};
ghost use Rattle.world_core.specs.Exchange.{FailsToBreak, FailsToHand, FailsToRead, FailsToSupply, OnPair};
ghost use Rattle.world_core.specs.Exchange.{RefusesConnect, RefusesOn, RefusesTick, TakesArticle, TakesBreak};
ghost use Rattle.world_core.specs.Exchange.{TakesBytes, TakesConnect, TakesHand, TakesTick};
ghost use Rattle.world_core.specs.Past.{Life};
ghost use Rattle.world_core.specs.declared.connection.Connection.{Connection};

use crate::connection::Connection;
use crate::fault::Fault;
use crate::output::Output;
use crate::stations::Stations;
use crate::world::{Stage, World};
use article_store::Found;
use disk_model::Disk;
use funnel::PeerName;

impl World {
    ghost use Rattle.world_core.specs.Runs.{OnWorld, RefusesWorld};
    ghost use Rattle.world_core.specs.Stands.{WorldStands};
    ghost use Rattle.world_core.specs.Turn.{Made, Refused};

    /// Makes a connection to the peer of this name, with the number after the last.
    ///
    /// # Errors
    /// `Stopped`; `NoPeer` if no peer has this name; `CountFull`; `NoMemory`.
    pub(crate) fn connect(&mut self, name: &PeerName, out: &mut Vec<Output>) -> Result<(), Fault>
        requires { out.old.items ≡ [] }
        ensures ok { (life : Life) → WorldStands self.old life → OnOk result
            (Made (OnWorld (TakesConnect name.now)) life out.new.items self.new) }
        ensures err { (life : Life) → WorldStands self.old life → IfErr result
            (λ fault. Refused (RefusesWorld (RefusesConnect name.now)) life fault self.new) }
    {
        let Stage::Running(stations, connections) = &mut self.stage else {
            return Err(Fault::Stopped);
        };
        self.connected = stations.connect(connections, self.connected, name, out)?;
        Ok(())
    }

    /// Claims the least candidate of this connection's peer, and offers it.
    ///
    /// # Errors
    /// `Stopped`; `NoConnection`; `NoMemory`; the station's.
    pub(crate) fn hand(&mut self, id: u64, out: &mut Vec<Output>) -> Result<(), Fault>
        requires { out.old.items ≡ [] }
        ensures ok { (life : Life) → WorldStands self.old life → OnOk result
            (Made (OnWorld (OnPair TakesHand id)) life out.new.items self.new) }
        ensures err { (life : Life) → WorldStands self.old life → IfErr result
            (λ fault. Refused (RefusesWorld (RefusesOn FailsToHand id)) life fault self.new) }
    {
        let Stage::Running(stations, connections) = &mut self.stage else {
            return Err(Fault::Stopped);
        };
        stations.hand(connections, id, self.now, out)
    }

    /// Takes in these octets on this connection.
    ///
    /// # Errors
    /// `Stopped`; `NoConnection`; `NoMemory`; the station's.
    pub(crate) fn bytes(
        &mut self,
        id: u64,
        octets: &[u8],
        out: &mut Vec<Output>,
    ) -> Result<(), Fault>
        requires { out.old.items ≡ [] }
        ensures ok { (life : Life) → WorldStands self.old life → OnOk result
            (Made (OnWorld (OnPair (TakesBytes octets.now) id)) life out.new.items self.new) }
        ensures err { (life : Life) → WorldStands self.old life → IfErr result
            (λ fault. Refused (RefusesWorld (RefusesOn (FailsToRead octets.now) id))
            life fault self.new) }
    {
        let Stage::Running(stations, connections) = &mut self.stage else {
            return Err(Fault::Stopped);
        };
        stations.bytes(connections, id, octets, self.now, out)
    }

    /// Hands in what was found of the article that this connection wants.
    ///
    /// # Errors
    /// `Stopped`; `NoConnection`; `NotNeeded` if it wants none; `NoMemory`; the station's.
    pub(crate) fn article(
        &mut self,
        id: u64,
        found: &Found,
        out: &mut Vec<Output>,
    ) -> Result<(), Fault>
        requires { out.old.items ≡ [] }
        ensures ok { (life : Life) → WorldStands self.old life → OnOk result
            (Made (OnWorld (OnPair (TakesArticle found.now) id)) life out.new.items self.new) }
        ensures err { (life : Life) → WorldStands self.old life → IfErr result
            (λ fault. Refused (RefusesWorld (RefusesOn (FailsToSupply found.now) id))
            life fault self.new) }
    {
        let Stage::Running(stations, connections) = &mut self.stage else {
            return Err(Fault::Stopped);
        };
        stations.article(connections, id, found, self.now, out)
    }

    /// Breaks this connection.
    ///
    /// # Errors
    /// `Stopped`; `NoConnection`; `NoMemory`; the station's.
    pub(crate) fn break_off(&mut self, id: u64, out: &mut Vec<Output>) -> Result<(), Fault>
        requires { out.old.items ≡ [] }
        ensures ok { (life : Life) → WorldStands self.old life → OnOk result
            (Made (OnWorld (OnPair TakesBreak id)) life out.new.items self.new) }
        ensures err { (life : Life) → WorldStands self.old life → IfErr result
            (λ fault. Refused (RefusesWorld (RefusesOn FailsToBreak id)) life fault self.new) }
    {
        let Stage::Running(stations, connections) = &mut self.stage else {
            return Err(Fault::Stopped);
        };
        stations.break_off(connections, id, self.now, out)
    }

    /// Sets the moment of all connections, in the order of their numbers.
    ///
    /// # Errors
    /// `Stopped`; `NoMemory`; the stations'.
    pub(crate) fn tick(&mut self, now: u64, out: &mut Vec<Output>) -> Result<(), Fault>
        requires { out.old.items ≡ [] }
        ensures ok { (life : Life) → WorldStands self.old life → OnOk result
            (Made (OnWorld (TakesTick now)) life out.new.items self.new) }
        ensures err { (life : Life) → WorldStands self.old life → IfErr result
            (λ fault. Refused (RefusesWorld (RefusesTick now)) life fault self.new) }
    {
        let Stage::Running(stations, connections) = &mut self.stage else {
            return Err(Fault::Stopped);
        };
        self.now = now;
        stations.tick(connections, now, out)
    }
}

impl<D: Disk> Stations<D> {
    ghost use Rattle.world_core.specs.Exchange.{TicksNot, TicksOne, TicksOneNot, TicksSome};
    ghost use Rattle.world_core.specs.Joined.{AreRunning, FoundConn, MadeOn, RefusedOn};

    // Makes a connection to the peer of this name, with the number after the last, and reports it.
    fn connect(
        &mut self,
        connections: &mut Vec<Connection>,
        last: u64,
        name: &PeerName,
        outputs: &mut Vec<Output>,
    ) -> Result<u64, Fault>
        ensures ok { (life : Life) → AreRunning life self.old connections.old.items
            → life.connected ≡ last → IfOk result (λ number.
            MadeOn (TakesConnect name.now) number life outputs.old.items outputs.new.items
            self.new connections.new.items) }
        ensures err { (life : Life) → AreRunning life self.old connections.old.items
            → life.connected ≡ last → IfErr result (λ fault.
            RefusedOn (RefusesConnect name.now) life fault self.new connections.new.items) }
    {
        let Some(rank) = self.rank_of(name) else {
            return Err(Fault::NoPeer);
        };
        let Some(number) = last.checked_add(1) else {
            return Err(Fault::CountFull);
        };
        outputs.reserve(1)?;
        connections.reserve(1)?;
        let name = name.clone()?;
        let connection = Connection::new(self.alloc, number, rank, &self.peers[rank].conf)?;
        connections.push_reserved(connection);
        outputs.push_reserved(Output::Connected {
            connection: number,
            name,
        });
        Ok(number)
    }

    fn hand(
        &mut self,
        connections: &mut Vec<Connection>,
        id: u64,
        now: u64,
        outputs: &mut Vec<Output>,
    ) -> Result<(), Fault>
        ensures ok { (life : Life) → AreRunning life self.old connections.old.items
            → life.now ≡ now → OnOk result
            (MadeOn (OnPair TakesHand id) life.connected life outputs.old.items outputs.new.items
            self.new connections.new.items) }
        ensures err { (life : Life) → AreRunning life self.old connections.old.items
            → life.now ≡ now → IfErr result (λ fault. RefusedOn
            (RefusesOn FailsToHand id) life fault self.new connections.new.items) }
    {
        let Some((index, rank)) = self.find_conn(connections, id) else {
            return Err(Fault::NoConnection);
        };
        let connection = &mut connections[index];
        let peer = &mut self.peers[rank];
        connection.hand(peer, now, outputs)
    }

    fn bytes(
        &mut self,
        connections: &mut Vec<Connection>,
        id: u64,
        octets: &[u8],
        now: u64,
        outputs: &mut Vec<Output>,
    ) -> Result<(), Fault>
        ensures ok { (life : Life) → AreRunning life self.old connections.old.items
            → life.now ≡ now → OnOk result
            (MadeOn (OnPair (TakesBytes octets.now) id) life.connected life outputs.old.items
            outputs.new.items self.new connections.new.items) }
        ensures err { (life : Life) → AreRunning life self.old connections.old.items
            → life.now ≡ now → IfErr result (λ fault. RefusedOn
            (RefusesOn (FailsToRead octets.now) id) life fault
            self.new connections.new.items) }
    {
        let Some((index, rank)) = self.find_conn(connections, id) else {
            return Err(Fault::NoConnection);
        };
        let connection = &mut connections[index];
        let peer = &mut self.peers[rank];
        connection.receive(peer, octets, now, outputs)
    }

    fn article(
        &mut self,
        connections: &mut Vec<Connection>,
        id: u64,
        found: &Found,
        now: u64,
        outputs: &mut Vec<Output>,
    ) -> Result<(), Fault>
        ensures ok { (life : Life) → AreRunning life self.old connections.old.items
            → life.now ≡ now → OnOk result
            (MadeOn (OnPair (TakesArticle found.now) id) life.connected life outputs.old.items
            outputs.new.items self.new connections.new.items) }
        ensures err { (life : Life) → AreRunning life self.old connections.old.items
            → life.now ≡ now → IfErr result (λ fault. RefusedOn
            (RefusesOn (FailsToSupply found.now) id) life fault
            self.new connections.new.items) }
    {
        let Some((index, rank)) = self.find_conn(connections, id) else {
            return Err(Fault::NoConnection);
        };
        let connection = &mut connections[index];
        let peer = &mut self.peers[rank];
        connection.supply(peer, found, now, outputs)
    }

    fn break_off(
        &mut self,
        connections: &mut Vec<Connection>,
        id: u64,
        now: u64,
        outputs: &mut Vec<Output>,
    ) -> Result<(), Fault>
        ensures ok { (life : Life) → AreRunning life self.old connections.old.items
            → life.now ≡ now → OnOk result
            (MadeOn (OnPair TakesBreak id) life.connected life outputs.old.items outputs.new.items
            self.new connections.new.items) }
        ensures err { (life : Life) → AreRunning life self.old connections.old.items
            → life.now ≡ now → IfErr result (λ fault. RefusedOn
            (RefusesOn FailsToBreak id) life fault self.new connections.new.items) }
    {
        let Some((index, rank)) = self.find_conn(connections, id) else {
            return Err(Fault::NoConnection);
        };
        let connection = &mut connections[index];
        let peer = &mut self.peers[rank];
        connection.break_off(peer, now, outputs)
    }

    fn tick(
        &mut self,
        connections: &mut Vec<Connection>,
        now: u64,
        outputs: &mut Vec<Output>,
    ) -> Result<(), Fault>
        ensures ok { (life : Life) → AreRunning life self.old connections.old.items
            → life.now ≡ now → OnOk result
            (MadeOn (TicksSome (length life.conns)) life.connected life outputs.old.items
            outputs.new.items self.new connections.new.items) }
        ensures err { (life : Life) → AreRunning life self.old connections.old.items
            → life.now ≡ now → IfErr result (λ fault. RefusedOn TicksNot life fault
            self.new connections.new.items) }
    {
        for index in 0..connections.len() {
            self.tick_at(connections, index, now, outputs)?;
        }
        Ok(())
    }

    // Sets the moment of the connection at this index.
    fn tick_at(
        &mut self,
        connections: &mut Vec<Connection>,
        index: usize,
        now: u64,
        outputs: &mut Vec<Output>,
    ) -> Result<(), Fault>
        requires { index < vec_len connections.old }
        ensures ok { (life : Life) → AreRunning life self.old connections.old.items
            → life.now ≡ now → OnOk result
            (MadeOn (TicksOne index) life.connected life outputs.old.items outputs.new.items
            self.new connections.new.items) }
        ensures err { (life : Life) → AreRunning life self.old connections.old.items
            → life.now ≡ now → IfErr result (λ fault. RefusedOn (TicksOneNot index) life fault
            self.new connections.new.items) }
        ensures count { vec_len connections.new ≡ vec_len connections.old }
    {
        let connection = &mut connections[index];
        let rank = connection.rank;
        if rank >= self.peers.len() {
            return Err(Fault::NoPeer);
        }
        let peer = &mut self.peers[rank];
        connection.tick(peer, now, outputs)
    }

    // The index of the connection of this number, and the rank of its peer.
    fn find_conn(&self, connections: &[Connection], id: u64) -> Option<(usize, usize)>
        ensures found { (life : Life) → AreRunning life self.now connections.now
            → FoundConn life id result }
        ensures within { IfSome result (λ at.
            (at.0 < length connections.now) × (at.1 < vec_len self.now.peers)) }
    {
        let index = index_of(connections, id)?;
        let rank = connections[index].rank;
        if rank < self.peers.len() {
            Some((index, rank))
        } else {
            None
        }
    }
}

// The index of the connection of this number, by binary search: the numbers rise.
fn index_of(connections: &[Connection], id: u64) -> Option<usize>
    ensures some { IfSome result (λ index. (index < length connections.now)
        × ((c : Connection) → slice_get connections.now index ≡ Some c → c.conn.id.0 ≡ id)) }
    ensures none { IsStrictlyIncreasing (map (λ (c : Connection). c.conn.id.0) connections.now)
        → IfNone result
        (AllByRecursion (λ (c : Connection). c.conn.id.0 ≢ id) connections.now) }
{
    connections
        .binary_search_by(|connection| connection.conn.id().0.cmp(&id))
        .ok()
}
