// A configuration, read as a whole.
ghost use Rattle.std.specs.Prelude.{◌≡◌, ◌&&◌, List, MatchResult, Ok, false, is_none, true};
ghost use Rattle.feed_conf.specs.Bounds.{AreBounded};
ghost use Rattle.feed_conf.specs.Lexemes.{Lexeme};
ghost use Rattle.feed_conf.specs.Reading.{HaveLexemes, lines_of};
ghost use Rattle.feed_conf.specs.ReaderView.{IsNamed, reader_view};
ghost use Rattle.feed_conf.specs.Settings.{judged, last_line, meaning, path_in};
ghost use Rattle.feed_conf.specs.TableView.{uses_view};
ghost use Rattle.feed_conf.specs.declared.fault.ConfFaultKind.TheVariants.{NoCycbuffs};
ghost use Rattle.feed_conf.specs.declared.key.SettingKey.TheVariants.{SyncSpool};
ghost use Rattle.feed_conf.specs.ConfView.{Makes};

use crate::conf::Conf;
use crate::fault::{ConfFault, ConfFaultKind};
use crate::key::SettingKey;
use crate::peers::peer_confs;
use crate::read::read_text;
use crate::reader::{Reader, Use};
use crate::table::{last_line, table_of};
use std::alloc::Global;

// CNFS buffers are synced only if innd's list of them is given.
fn check_sync(uses: &[Use<'_>], sync_spool: bool, cycbuffs: &[u8]) -> Result<(), ConfFault>
    ensures { MatchResult result
        (λ _. (sync_spool && is_none (path_in cycbuffs.now)) ≡ false)
        (λ fault. ((sync_spool && is_none (path_in cycbuffs.now)) ≡ true)
        × (fault ≡ record { line = last_line SyncSpool (uses_view uses.now); kind = NoCycbuffs })) }
{
    if sync_spool && cycbuffs.is_empty() {
        return Err(ConfFault {
            line: last_line(uses, SettingKey::SyncSpool),
            kind: ConfFaultKind::NoCycbuffs,
        });
    }
    Ok(())
}

fn make_conf(alloc: Global, reader: Reader<'_>) -> Result<Conf, ConfFault>
    requires named { IsNamed reader }
    requires bounded { AreBounded (reader_view reader).uses }
    ensures { Makes (judged (Ok (reader_view reader.entry))) result }
{
    let table = table_of(alloc, &reader.uses)?;
    let peers = peer_confs(alloc, &table, &reader.outer, &reader.peers)?;
    let news_spool = table.file_text(alloc, SettingKey::NewsSpool)?;
    let backlog_directory = table.file_text(alloc, SettingKey::BacklogDirectory)?;
    let status_file = table.file_text(alloc, SettingKey::StatusFile)?;
    let unknown_limit = table.file_number(SettingKey::UnknownLimit);
    let innd_spool = table.file_text(alloc, SettingKey::InndSpool)?;
    let innd_cycbuffs = table.file_text(alloc, SettingKey::InndCycbuffs)?;
    let sync_spool = table.file_switch(SettingKey::SyncSpool);
    check_sync(&reader.uses, sync_spool, &innd_cycbuffs)?;
    let authinfo_file = table.file_text(alloc, SettingKey::AuthinfoFile)?;
    let status_json = table.file_text(alloc, SettingKey::StatusJson)?;
    let metrics_file = table.file_text(alloc, SettingKey::MetricsFile)?;
    let status_period = table.file_number(SettingKey::StatusPeriod);
    let Reader { ignored, names, .. } = reader;
    Ok(Conf {
        news_spool,
        backlog_directory,
        status_file,
        unknown_limit,
        innd_spool,
        innd_cycbuffs,
        sync_spool,
        authinfo_file,
        status_json,
        metrics_file,
        status_period,
        peers,
        ignored,
        names,
    })
}

/// Reads a configuration (innfeed.conf(5), in this profile).
///
/// # Errors
/// The first fault in reading order. A peer whose shares are crossed counts only if the text has no other fault: the
/// first such peer is reported, at the line of its declaration. If there is none, `NoCycbuffs` is reported if
/// `sync-spool` is true and `innd-cycbuffs` is not given or empty, at the line of the last use of `sync-spool` outside
/// all blocks. `NoMemory` if memory was refused.
pub fn read_conf(alloc: Global, text: &[u8]) -> Result<Conf, ConfFault>
    ensures meaning { (lines : List (List Lexeme)) → HaveLexemes (lines_of text.now) lines
        → Makes (meaning lines) result }
    ensures lexemes { (lines : List (List Lexeme)) × HaveLexemes (lines_of text.now) lines }
{
    match read_text(alloc, text) {
        Ok(reader) => make_conf(alloc, reader),
        Err(fault) => Err(fault),
    }
}
