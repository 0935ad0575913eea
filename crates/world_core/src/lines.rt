// What steps report, as the lines of the script's format (docs/FORMATS.md).
ghost use Rattle.std.specs.Prelude.{◌≡◌, [], ◌∷◌, ◌++◌, decimal as digits_of, flat_map, map, IfOk};
ghost use Rattle.std.specs.Prelude.{OnOk};
ghost use Rattle.ledger_core.specs.Keys.{key_text};
ghost use Rattle.world_core.specs.Lines.{handed_text, keys_text, line_text, owed_text};
ghost use Rattle.world_core.specs.Lines.{reason_text, settled_text, output_text};
ghost use Rattle.world_core.specs.Output.{view_of};
ghost use Rattle.world_core.specs.declared.output.OwedAt.{OwedAt};

use crate::output::{Handed, Output, OwedAt};
use conn_core::Reason;
use ledger_core::Key;
use peer_queue::{Owed, Settled};
use std::alloc::{AllocError, Global};

impl Output {
    /// Its line in the script's format, with its LF.
    ///
    /// # Errors
    /// Memory was refused.
    pub fn line(&self, alloc: Global) -> Result<Vec<u8>, AllocError>
        ensures { IfOk result (λ line. line.items ≡ line_text (view_of self.now)) }
    {
        let mut line = Vec::new(alloc);
        add_output(&mut line, self)?;
        line.push(b'\n')?;
        Ok(line)
    }
}

fn add_output(out: &mut Vec<u8>, outputs: &Output) -> Result<(), AllocError>
    ensures { OnOk result (out.new.items ≡ out.old.items ++ output_text (view_of outputs.now)) }
{
    match outputs {
        Output::Owed { number, peers } => {
            add_number(out, *number)?;
            add_owed(out, peers)
        }
        Output::Bad { number, fault } => {
            add_number(out, *number)?;
            out.extend_from_slice(b" bad ")?;
            out.extend_from_slice(fault.name().as_bytes())
        }
        Output::Taken { mark } => {
            out.extend_from_slice(b"taken ")?;
            add_number(out, *mark)
        }
        Output::Connected { connection, name } => {
            add_connection(out, *connection)?;
            out.push(b' ')?;
            out.extend_from_slice(name.bytes())
        }
        Output::Handed { connection, handed } => {
            add_connection(out, *connection)?;
            add_handed(out, *handed)
        }
        Output::Settled {
            connection,
            key,
            settled,
        } => {
            add_connection(out, *connection)?;
            add_settled(out, *key, *settled)
        }
        Output::SentLine { connection, line } => {
            add_connection(out, *connection)?;
            out.push(b'>')?;
            out.extend_from_slice(line)
        }
        Output::Need { connection, key } => {
            add_connection(out, *connection)?;
            out.extend_from_slice(b" need ")?;
            key.add_text(out)
        }
        Output::Closed { connection, reason } => {
            add_connection(out, *connection)?;
            out.extend_from_slice(b" closed ")?;
            add_reason(out, *reason)
        }
        Output::Shed { name, keys } => {
            out.extend_from_slice(name.bytes())?;
            out.extend_from_slice(b" shed")?;
            add_keys(out, keys)
        }
        Output::Rotated { name, generation } => {
            out.extend_from_slice(name.bytes())?;
            out.extend_from_slice(b" rotated ")?;
            add_number(out, *generation)
        }
        Output::Imported { name, source, new } => {
            out.extend_from_slice(name.bytes())?;
            out.extend_from_slice(b" imported ")?;
            add_number(out, u64::from(*source))?;
            out.push(b' ')?;
            add_number(out, *new)
        }
        Output::Stopped => out.extend_from_slice(b"stopped"),
        Output::Mark { name, mark, owes } => {
            out.extend_from_slice(name.bytes())?;
            out.extend_from_slice(b" mark ")?;
            add_number(out, *mark)?;
            out.extend_from_slice(b" owes")?;
            add_keys(out, owes)
        }
    }
}

fn add_number(out: &mut Vec<u8>, number: u64) -> Result<(), AllocError>
    ensures { OnOk result (out.new.items ≡ out.old.items ++ digits_of number) }
{
    out.extend_from_slice(itoa::Buffer::new().format(number).as_bytes())
}

// A connection: c and its number.
fn add_connection(out: &mut Vec<u8>, connection: u64) -> Result<(), AllocError>
    ensures { OnOk result (out.new.items ≡ out.old.items ++ (99 ∷ digits_of connection)) }
{
    out.push(b'c')?;
    add_number(out, connection)
}

fn add_owed(out: &mut Vec<u8>, peers: &[OwedAt]) -> Result<(), AllocError>
    ensures { OnOk result (out.new.items ≡ out.old.items
        ++ flat_map owed_text (map (λ (at : OwedAt). (at.name, at.owed)) peers.now)) }
{
    for at in peers {
        add_owed_at(out, at)?;
    }
    Ok(())
}

fn add_owed_at(out: &mut Vec<u8>, at: &OwedAt) -> Result<(), AllocError>
    ensures { OnOk result (out.new.items ≡ out.old.items ++ owed_text (at.now.name, at.now.owed)) }
{
    out.push(b' ')?;
    out.extend_from_slice(at.name.bytes())?;
    match at.owed {
        Owed::New => out.extend_from_slice(b" new"),
        Owed::Already => out.extend_from_slice(b" already"),
    }
}

fn add_handed(out: &mut Vec<u8>, handed: Handed) -> Result<(), AllocError>
    ensures { OnOk result (out.new.items ≡ out.old.items ++ handed_text handed) }
{
    match handed {
        Handed::Debt(key) => {
            out.extend_from_slice(b" hand ")?;
            key.add_text(out)
        }
        Handed::Nothing => out.extend_from_slice(b" none"),
        Handed::Busy => out.extend_from_slice(b" busy"),
        Handed::Closed => out.extend_from_slice(b" closed"),
    }
}

fn add_settled(out: &mut Vec<u8>, key: Key, settled: Settled) -> Result<(), AllocError>
    ensures { OnOk result (out.new.items ≡ out.old.items ++ settled_text key settled) }
{
    match settled {
        Settled::Answered(code) => {
            add_pair(out, b" final ", key)?;
            add_number(out, u64::from(code.number()))
        }
        Settled::Later(moment) => {
            add_pair(out, b" later ", key)?;
            add_number(out, moment)
        }
        Settled::Dropped(cause) => {
            add_pair(out, b" drop ", key)?;
            out.extend_from_slice(cause.name().as_bytes())
        }
        Settled::Ready => {
            out.extend_from_slice(b" back ")?;
            key.add_text(out)
        }
    }
}

// A word, a key, and a space before what follows.
fn add_pair(out: &mut Vec<u8>, word: &[u8], key: Key) -> Result<(), AllocError>
    ensures { OnOk result (out.new.items
        ≡ out.old.items ++ (word.now ++ (key_text key ++ 32 ∷ []))) }
{
    out.extend_from_slice(word)?;
    key.add_text(out)?;
    out.push(b' ')?;
    Ok(())
}

fn add_reason(out: &mut Vec<u8>, reason: Reason) -> Result<(), AllocError>
    ensures { OnOk result (out.new.items ≡ out.old.items ++ reason_text reason) }
{
    match reason {
        Reason::Greeting(code) => {
            out.extend_from_slice(b"Greeting ")?;
            add_number(out, u64::from(code))
        }
        Reason::Reader(fault) => {
            out.extend_from_slice(b"Reader ")?;
            out.extend_from_slice(fault.name().as_bytes())
        }
        Reason::Unmatched => out.extend_from_slice(b"Unmatched"),
        Reason::Ended(code) => {
            out.extend_from_slice(b"Ended ")?;
            add_number(out, u64::from(code))
        }
        Reason::Timeout => out.extend_from_slice(b"Timeout"),
        Reason::Broken => out.extend_from_slice(b"Broken"),
        Reason::Quit => out.extend_from_slice(b"Quit"),
    }
}

// A space and each key, or ` -` if there is none.
fn add_keys(out: &mut Vec<u8>, keys: &[Key]) -> Result<(), AllocError>
    ensures { OnOk result (out.new.items ≡ out.old.items ++ keys_text keys.now) }
{
    if keys.is_empty() {
        return out.extend_from_slice(b" -");
    }
    for key in keys {
        out.push(b' ')?;
        key.add_text(out)?;
    }
    Ok(())
}
