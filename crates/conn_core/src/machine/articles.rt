// Articles that are handed in.
ghost use Rattle.std.specs.Prelude.{◌≡◌, ◌≤◌, ◌++◌, [], ◌∷◌, ℕ, List, true, false, None, find};
ghost use Rattle.std.specs.Prelude.{OnOk, OnErr, IsErrOf};
ghost use Rattle.dot_codec.specs.Lines.{IsSendable};
ghost use Rattle.conn_core.specs.Commands.{Handing, Sendable, held_for, is_at, is_of, loss_of, octets_of};
ghost use Rattle.conn_core.specs.Kept.{IsTextAs, Sends, handing_of, without_want};
ghost use Rattle.conn_core.specs.History.{is_streaming};
ghost use Rattle.conn_core.specs.Machine.{handed, handed_for, quit_if_due};
ghost use Rattle.conn_core.specs.Receipt.{IsBlockOf, IsHandedAs, IsSendableArticle};

use super::Machine;
use crate::codes::Verb;
use crate::kept::AwaitedAsk;
use crate::lines::{QUIT_OCTETS, VERB_MAX_OCTETS, id_len, put_line};
use crate::lookup::{debt_wanting, take_wanted};
use crate::outcome::Outcome;
use crate::phase::Phase;
use article_store::Found;
use bytes::{Bytes, BytesMut};
use dot_codec::{BlockRefusal, is_sendable, put_block, to_block};
use funnel::MsgId;
use ledger_core::{Cause, Debt, Key};
use std::alloc::AllocError;
use std::collections::VecDeque;

// Why there is no article to send.
#[derive(Clone, Copy, Debug, PartialEq, Eq)]
pub(crate) enum Loss {
    Missing,
    // Its text cannot be sent.
    Unfit,
}

fn lost(debt: Debt, loss: Loss) -> Outcome
    ensures { result ∷ [] ≡ loss_of (handing_of loss) debt }
{
    match loss {
        Loss::Missing => Outcome::Lost(debt, Cause::Missing),
        Loss::Unfit => Outcome::Lost(debt, Cause::Unsendable),
    }
}

impl Machine {
    // Takes what was found for the first want of that key. An `Err` changes nothing.
    pub(crate) fn on_article(&mut self, key: Key, found: &Found) -> Result<(), AllocError>
        ensures ok { OnOk result
            ((handing : Handing) × IsHandedAs found.now handing
            × (self.new ≡ handed self.old key handing)) }
        ensures unchanged { OnErr result (self.new ≡ self.old) }
        ensures no_memory { OnErr result (IsSendableArticle found.now) }
    {
        match found {
            Found::Article(text) => self.on_text(key, text.as_slice()),
            Found::Gone => {
                self.lose(key, Loss::Missing);
                Ok(())
            }
            Found::Unsendable => {
                self.lose(key, Loss::Unfit);
                Ok(())
            }
        }
    }

    fn on_text(&mut self, key: Key, text: &[u8]) -> Result<(), AllocError>
        ensures ok { OnOk result
            ((handing : Handing) × IsTextAs text.now handing
            × (self.new ≡ handed self.old key handing)) }
        ensures unchanged { OnErr result (self.new ≡ self.old) }
        ensures no_memory { OnErr result (IsSendable text.now) }
    {
        match self.send(key, text) {
            Ok(()) => Ok(()),
            Err(BlockRefusal::Unsendable) => {
                self.lose(key, Loss::Unfit);
                Ok(())
            }
            Err(BlockRefusal::NoMemory) => Err(AllocError),
        }
    }

    fn lose(&mut self, key: Key, loss: Loss)
        ensures { self.new ≡ handed self.old key (handing_of loss) }
    {
        self.lose_wanted(key, loss);
        self.quit_if_due();
    }

    fn lose_wanted(&mut self, key: Key, loss: Loss)
        ensures { self.new ≡ handed_for (without_want self.old key) (handing_of loss)
            (held_for self.old.held (find (is_of key) self.old.wanted)) }
    {
        match take_wanted(&mut self.wanted, key) {
            Some(want) => self.lose_at(want.ticket(), loss),
            None => {}
        }
    }

    fn lose_at(&mut self, ticket: u64, loss: Loss)
        ensures { self.new ≡ handed_for self.old (handing_of loss)
            (find (is_at ticket) self.old.held) }
    {
        match self.held.take(ticket) {
            Some(x) => self.found.push_back_reserved(lost(x.into_debt(), loss)),
            None => {}
        }
    }

    // Sends a text for the first want of that key. An `Err` changes nothing.
    fn send(&mut self, key: Key, text: &[u8]) -> Result<(), BlockRefusal>
        ensures ok { OnOk result (Sends self.old key text.now self.new) }
        ensures unsendable { IsErrOf result BlockRefusal.Unsendable → IsSendable text.now → ⊥ }
        ensures sendable { IsErrOf result BlockRefusal.NoMemory → IsSendable text.now }
        ensures unchanged { OnErr result (self.new ≡ self.old) }
    {
        match self.phase {
            Phase::Streaming => self.send_now(key, text),
            _ => self.send_later(key, text),
        }
    }

    // The same by TAKETHIS.
    fn send_now(&mut self, key: Key, text: &[u8]) -> Result<(), BlockRefusal>
        requires { is_streaming self.old.phase ≡ true }
        ensures ok { OnOk result (Sends self.old key text.now self.new) }
        ensures unsendable { IsErrOf result BlockRefusal.Unsendable → IsSendable text.now → ⊥ }
        ensures sendable { IsErrOf result BlockRefusal.NoMemory → IsSendable text.now }
        ensures unchanged { OnErr result (self.new ≡ self.old) }
    {
        if self.window.reserve(1).is_err() {
            return Err(without_memory(text));
        }
        let Some(x) = debt_wanting(&self.held, &self.wanted, key) else {
            return self.forget_text(key, text);
        };
        put_takethis(&mut self.output, x.debt().id(), text)?;
        let ask = AwaitedAsk::new(Verb::Takethis, x.ticket());
        self.window.push_back_reserved(ask);
        let _ = take_wanted(&mut self.wanted, key);
        self.quit_if_due();
        Ok(())
    }

    // The same by IHAVE, which keeps the block.
    fn send_later(&mut self, key: Key, text: &[u8]) -> Result<(), BlockRefusal>
        requires { is_streaming self.old.phase ≡ false }
        ensures ok { OnOk result (Sends self.old key text.now self.new) }
        ensures unsendable { IsErrOf result BlockRefusal.Unsendable → IsSendable text.now → ⊥ }
        ensures sendable { IsErrOf result BlockRefusal.NoMemory → IsSendable text.now }
        ensures unchanged { OnErr result (self.new ≡ self.old) }
    {
        let block = to_block(*self.window.allocator(), text)?;
        match self.offer_block(key, block) {
            Ok(()) => Ok(()),
            Err(_) => Err(BlockRefusal::NoMemory),
        }
    }

    // Offers a block by IHAVE. An `Err` changes nothing.
    fn offer_block(&mut self, key: Key, block: Bytes) -> Result<(), AllocError>
        requires { is_streaming self.old.phase ≡ false }
        ensures ok { OnOk result (self.new ≡ handed self.old key (Sendable block)) }
        ensures unchanged { OnErr result (self.new ≡ self.old) }
    {
        let Some(x) = debt_wanting(&self.held, &self.wanted, key) else {
            self.forget(key);
            return Ok(());
        };
        self.window.reserve(1)?;
        put_ihave(&mut self.output, &mut self.blocks, x.debt().id(), block)?;
        let ask = AwaitedAsk::new(Verb::Ihave, x.ticket());
        self.window.push_back_reserved(ask);
        let _ = take_wanted(&mut self.wanted, key);
        self.quit_if_due();
        Ok(())
    }

    // Sends nothing, since no debt wants a text of that key.
    fn forget_text(&mut self, key: Key, text: &[u8]) -> Result<(), BlockRefusal>
        requires { held_for self.old.held (find (is_of key) self.old.wanted) ≡ None }
        ensures ok { OnOk result (Sends self.old key text.now self.new) }
        ensures unsendable { IsErrOf result BlockRefusal.Unsendable → IsSendable text.now → ⊥ }
        ensures sendable { IsErrOf result BlockRefusal.NoMemory → IsSendable text.now }
        ensures unchanged { OnErr result (self.new ≡ self.old) }
    {
        if !is_sendable(text) {
            return Err(BlockRefusal::Unsendable);
        }
        self.forget(key);
        Ok(())
    }

    // Removes the first want of that key, whose debt is not held.
    fn forget(&mut self, key: Key)
        ensures { self.new ≡ quit_if_due (without_want self.old key) }
    {
        let _ = take_wanted(&mut self.wanted, key);
        self.quit_if_due();
    }
}

// Why a text was not sent, if memory was refused.
fn without_memory(text: &[u8]) -> BlockRefusal
    ensures unsendable { result ≡ BlockRefusal.Unsendable → IsSendable text.now → ⊥ }
    ensures sendable { result ≡ BlockRefusal.NoMemory → IsSendable text.now }
{
    if is_sendable(text) {
        BlockRefusal::NoMemory
    } else {
        BlockRefusal::Unsendable
    }
}

// Puts out the article with its command (RFC 4644, section 2.5), and keeps room for a QUIT. An `Err` takes back what is
// out.
fn put_takethis(output: &mut BytesMut, id: &MsgId, text: &[u8]) -> Result<(), BlockRefusal>
    ensures ok { OnOk result ((block : List ℕ) × IsBlockOf text.now block
        × (output.new.items ≡ output.old.items ++ octets_of Verb.Takethis id.now block)) }
    ensures room { OnOk result (6 ≤ output.new.spare) }
    ensures unsendable { IsErrOf result BlockRefusal.Unsendable → IsSendable text.now → ⊥ }
    ensures sendable { IsErrOf result BlockRefusal.NoMemory → IsSendable text.now }
    ensures unchanged { OnErr result (output.new.items ≡ output.old.items) }
    ensures spare { OnErr result (output.old.spare ≤ output.new.spare) }
{
    if output.reserve(id_len(id) + VERB_MAX_OCTETS).is_err() {
        return Err(without_memory(text));
    }
    let len = output.len();
    put_line(output, b"TAKETHIS ", id.bytes());
    match put_block(output, text, QUIT_OCTETS) {
        Ok(()) => Ok(()),
        Err(refusal) => {
            output.truncate(len);
            Err(refusal)
        }
    }
}

// Offers the article and keeps its block (RFC 3977, section 6.3.2), and keeps room for a QUIT. An `Err` does nothing.
fn put_ihave(
    output: &mut BytesMut,
    blocks: &mut VecDeque<Bytes>,
    id: &MsgId,
    block: Bytes,
) -> Result<(), AllocError>
    ensures ok { OnOk result
        (output.new.items ≡ output.old.items ++ octets_of Verb.Ihave id.now block) }
    ensures kept { OnOk result (blocks.new.items ≡ blocks.old.items ++ block ∷ []) }
    ensures room { OnOk result (6 ≤ output.new.spare) }
    ensures unchanged { OnErr result
        ((output.new.items ≡ output.old.items) × (blocks.new.items ≡ blocks.old.items)) }
    ensures spare { OnErr result (output.old.spare ≤ output.new.spare) }
{
    output.reserve(id_len(id) + (VERB_MAX_OCTETS + QUIT_OCTETS))?;
    blocks.reserve(1)?;
    put_line(output, b"IHAVE ", id.bytes());
    blocks.push_back_reserved(block);
    Ok(())
}
