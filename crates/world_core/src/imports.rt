// The import of backlog files: the good lines of a text, and what becomes of them at their peer.
ghost use Rattle.std.specs.Prelude.{◌≡◌, ◌<◌, ◌≤◌, ℕ, [], map, IfErr, IfOk, OnOk, vec_len};
ghost use Rattle.std.specs.Global.{Vec};
ghost use Rattle.world_core.specs.Imports.{HasGood};
ghost use Rattle.world_core.specs.Importing.{Gains, good_of, one_new};

use crate::fault::Fault;
use crate::output::Output;
use crate::stations::Stations;
use disk_model::Disk;
use funnel::{LineFault, MsgId, PeerName, Token, first_line, read_backlog_line};
use peer_queue::Owed;
use std::alloc::{AllocError, Global};

// A good line of a backlog file.
#[derive(Debug, Drop)]
struct BacklogLine {
    // Its number among all lines, from 1 up.
    number: u64,
    token: Token,
    id: MsgId,
}

impl<D: Disk> Stations<D> {
    ghost use Rattle.world_core.specs.Events.{Closes, Imports, Spills};
    ghost use Rattle.world_core.specs.Importing.{DidAt, HasImported, IsAt, MadeNoRoom, MadeRoom, answer_above};
    ghost use Rattle.world_core.specs.Importing.{pending_for, room_for};
    ghost use Rattle.world_core.specs.Imports.{close_events, import_events, good_events, mark_behind};
    ghost use Rattle.world_core.specs.Imports.{pending_behind, room_events, with_room};
    ghost use Rattle.world_core.specs.Past.{Past};
    ghost use Rattle.world_core.specs.Stands.{ClosedOne, DidOne, FailedOne, ImportedOne, Stands};
    ghost use Rattle.world_core.specs.Stepped.{Did, Failed, TookTapes, TookNot};
    ghost use Rattle.world_core.specs.declared.step.Step.TheVariants.{Import};

    /// Imports a backlog file of this peer, which has this text: each good line is owed, their source is closed, and
    /// the peer is flushed. The peer is also flushed before each note for which there would be no room.
    ///
    /// # Errors
    /// `NoPeer` if none has this name; `NoMemory`; the station's.
    pub(crate) fn import(&mut self, name: &PeerName, text: &[u8]) -> Result<Vec<Output>, Fault>
        ensures ok { (past : Past) (file : Vec ℕ) → file.items ≡ text.now
            → Stands self.old past
            → IfOk result (λ outputs.
            TookTapes (Import name.now file) past outputs.items self.new) }
        ensures err { (past : Past) (file : Vec ℕ) → file.items ≡ text.now
            → Stands self.old past
            → IfErr result (λ fault. TookNot (Import name.now file) past fault self.new) }
    {
        let Some(rank) = self.rank_of(name) else {
            return Err(Fault::NoPeer);
        };
        let mut outputs = Vec::with_capacity(self.alloc, 1)?;
        let name = name.clone()?;
        let lines = read_lines(self.alloc, text)?;
        let count = self.import_each(rank, &lines)?;
        let source = self.close_all(rank)?;
        outputs.push_reserved(Output::Imported {
            name,
            source,
            new: count,
        });
        Ok(outputs)
    }

    // Owes each of these lines at the peer of this rank, and returns how many are new.
    fn import_each(&mut self, rank: usize, lines: &[BacklogLine]) -> Result<u64, Fault>
        requires { rank < vec_len self.old.peers }
        ensures ok { (past : Past) (source pending mark : ℕ) → Stands self.old past
            → IsAt past rank source pending mark → IfOk result (λ new.
            HasImported past rank source pending mark (map good_of lines.now) [] new self.new) }
        ensures err { (past : Past) (source pending mark : ℕ) → Stands self.old past
            → IsAt past rank source pending mark → IfErr result (λ fault.
            Failed past (import_events rank pending mark (map good_of lines.now)) fault self.new) }
        ensures count { vec_len self.new.peers ≡ vec_len self.old.peers }
    {
        let mut new = 0;
        for line in lines {
            let owed = self.import_line(rank, line)?;
            new += count_new(owed);
        }
        Ok(new)
    }

    // Closes the source that is open at the peer of this rank, flushes the peer, and returns the source.
    fn close_all(&mut self, rank: usize) -> Result<u32, Fault>
        requires { rank < vec_len self.old.peers }
        ensures ok { (past : Past) (source pending mark : ℕ) → Stands self.old past
            → IsAt past rank source pending mark → IfOk result (λ closed. (closed ≡ source)
            × Did past (close_events rank pending) self.new) }
        ensures err { (past : Past) (source pending mark : ℕ) → Stands self.old past
            → IsAt past rank source pending mark
            → IfErr result (λ fault. Failed past (close_events rank pending) fault self.new) }
    {
        self.make_room(rank)?;
        let source = self.close_at(rank)?;
        self.spill_at(rank)?;
        Ok(source)
    }

    // Owes a line at the peer of this rank, and returns what came of it; makes room first.
    fn import_line(&mut self, rank: usize, line: &BacklogLine) -> Result<Owed, Fault>
        requires { rank < vec_len self.old.peers }
        ensures ok { (past : Past) (source pending mark : ℕ) → Stands self.old past
            → IsAt past rank source pending mark → IfOk result (λ owed.
            (owed ≡ answer_above mark line.now.number)
            × DidAt past (good_events rank pending mark (good_of line.now)) rank source
            (pending_behind pending mark (good_of line.now))
            (mark_behind mark (good_of line.now)) self.new) }
        ensures err { (past : Past) (source pending mark : ℕ) → Stands self.old past
            → IsAt past rank source pending mark → IfErr result (λ fault.
            Failed past (good_events rank pending mark (good_of line.now)) fault self.new) }
        ensures count { vec_len self.new.peers ≡ vec_len self.old.peers }
    {
        self.make_room_for(rank, line.number)?;
        self.import_at(rank, line)
    }

    // Makes room for the note of a line of this number, if it is above the mark of the source that is open.
    fn make_room_for(&mut self, rank: usize, number: u64) -> Result<(), Fault>
        requires { rank < vec_len self.old.peers }
        ensures ok { (past : Past) (source pending mark : ℕ) → Stands self.old past
            → IsAt past rank source pending mark → OnOk result (MadeRoom past
            (room_for rank pending mark number) rank source
            (pending_for pending mark number) mark self.new) }
        ensures err { (past : Past) (source pending mark : ℕ) → Stands self.old past
            → IsAt past rank source pending mark → IfErr result (λ fault.
            MadeNoRoom past (room_for rank pending mark number) rank fault self.new) }
        ensures count { vec_len self.new.peers ≡ vec_len self.old.peers }
    {
        let peer = &self.peers[rank];
        if number <= peer.station.import_mark() {
            return Ok(());
        }
        self.make_room(rank)
    }

    // Flushes the peer of this rank if no more notes may pend.
    fn make_room(&mut self, rank: usize) -> Result<(), Fault>
        requires { rank < vec_len self.old.peers }
        ensures ok { (past : Past) (source pending mark : ℕ) → Stands self.old past
            → IsAt past rank source pending mark → OnOk result (MadeRoom past
            (room_events rank pending) rank source (with_room pending) mark self.new) }
        ensures err { (past : Past) (source pending mark : ℕ) → Stands self.old past
            → IsAt past rank source pending mark → IfErr result (λ fault.
            MadeNoRoom past (room_events rank pending) rank fault self.new) }
        ensures count { vec_len self.new.peers ≡ vec_len self.old.peers }
    {
        let peer = &self.peers[rank];
        if peer.station.room() > 0 {
            return Ok(());
        }
        self.spill_at(rank)
    }

    // Owes a line at the peer of this rank, for which there is room.
    fn import_at(&mut self, rank: usize, line: &BacklogLine) -> Result<Owed, Fault>
        requires { rank < vec_len self.old.peers }
        ensures ok { (past : Past) → Stands self.old past → IfOk result (λ owed.
            ImportedOne past rank line.now.number line.now.token line.now.id owed self.new) }
        ensures err { (past : Past) → Stands self.old past → IfErr result (λ fault. FailedOne past
            (Imports rank line.now.number line.now.token line.now.id) fault self.new) }
        ensures count { vec_len self.new.peers ≡ vec_len self.old.peers }
    {
        let peer = &mut self.peers[rank];
        peer.import(line.number, &line.token, &line.id)
    }

    fn close_at(&mut self, rank: usize) -> Result<u32, Fault>
        requires { rank < vec_len self.old.peers }
        ensures ok { (past : Past) → Stands self.old past
            → IfOk result (λ source. ClosedOne past rank source self.new) }
        ensures err { (past : Past) → Stands self.old past
            → IfErr result (λ fault. FailedOne past (Closes rank) fault self.new) }
        ensures count { vec_len self.new.peers ≡ vec_len self.old.peers }
    {
        let peer = &mut self.peers[rank];
        peer.close()
    }

    fn spill_at(&mut self, rank: usize) -> Result<(), Fault>
        requires { rank < vec_len self.old.peers }
        ensures ok { (past : Past) → Stands self.old past
            → OnOk result (DidOne past (Spills rank) self.new) }
        ensures err { (past : Past) → Stands self.old past
            → IfErr result (λ fault. FailedOne past (Spills rank) fault self.new) }
        ensures count { vec_len self.new.peers ≡ vec_len self.old.peers }
    {
        let peer = &mut self.peers[rank];
        peer.spill()
    }
}

// 1 if the line is new.
fn count_new(owed: Owed) -> u64
    ensures is { result ≡ one_new owed }
    ensures most { result ≤ 1 }
{
    match owed {
        Owed::New => 1,
        Owed::Already => 0,
    }
}

fn read_lines(alloc: Global, text: &[u8]) -> Result<Vec<BacklogLine>, AllocError>
    ensures { IfOk result (λ lines. HasGood text.now (map good_of lines.items)) }
{
    let mut lines = Vec::new(alloc);
    let mut rest = text;
    let mut number = 0;
    while let Some((line, behind)) = first_line(rest) {
        number += 1;
        add_line(alloc, number, line, &mut lines)?;
        rest = behind;
    }
    Ok(lines)
}

fn add_line(
    alloc: Global,
    number: u64,
    line: &[u8],
    lines: &mut Vec<BacklogLine>,
) -> Result<(), AllocError>
    ensures { OnOk result
        (Gains number line.now (map good_of lines.old.items) (map good_of lines.new.items)) }
{
    match read_backlog_line(alloc, line) {
        Ok((token, id)) => {
            lines.push(BacklogLine { number, token, id })?;
            Ok(())
        }
        Err(LineFault::NoMemory) => Err(AllocError),
        Err(_fault) => Ok(()),
    }
}
