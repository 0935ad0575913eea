// The fields of a request, as texts.
ghost use Rattle.std.specs.Prelude.{◌≡◌, ◌≤◌, length};
ghost use Rattle.std.specs.Option.{option_map};
ghost use Rattle.requests.specs.Fields.{behind, end_of, fault_of, fits, good, texts_in, texts_of, value_at};
ghost use Rattle.requests.specs.Numbers.{is_number};
ghost use Rattle.funnel.specs.Names.{is_msg_id, is_peer_name};

use crate::faults::RequestFault;
use crate::number::read_number;
use crate::words::Word;
use funnel::{Form, MsgIdForm, PeerNameForm};

pub(crate) const PEER: &[u8] = b" peer=";

pub(crate) const ID: &[u8] = b" id=";

pub(crate) const KEY: &[u8] = b" key=";

/// The values of the fields of a request, as they are written, and what follows the last one.
#[derive(Clone, Copy)]
pub(crate) struct Fields<'a> {
    pub peer: Option<&'a [u8]>,
    pub id: Option<&'a [u8]>,
    pub key: Option<&'a [u8]>,
    pub rest: &'a [u8],
}

impl<'a> Fields<'a> {
    /// Those that a text begins with, in their order.
    pub fn cut(text: &'a [u8]) -> Fields<'a>
        ensures { texts_of result ≡ texts_in text.now }
    {
        let (peer, rest) = cut_field(PEER, text);
        let (id, rest) = cut_field(ID, rest);
        let (key, rest) = cut_field(KEY, rest);
        Fields {
            peer,
            id,
            key,
            rest,
        }
    }

    /// What is wrong with them as the fields of this word.
    pub fn fault(&self, word: Word) -> Option<RequestFault>
        ensures { result ≡ fault_of word (texts_of self.now) }
    {
        if !self.fit(word) {
            Some(RequestFault::BadField)
        } else if !is_peer(self.peer) {
            Some(RequestFault::BadPeer)
        } else if !is_id(self.id) {
            Some(RequestFault::BadId)
        } else if !is_key(self.key) {
            Some(RequestFault::BadNumber)
        } else {
            None
        }
    }

    // Whether they are those of this word, and nothing else is there.
    fn fit(&self, word: Word) -> bool
        ensures { result ≡ fits word (texts_of self.now) }
    {
        let rules = word.rules();
        rules.peer.allows(self.peer.is_some())
            && rules.id.allows(self.id.is_some())
            && rules.key.allows(self.key.is_some())
            && self.rest.is_empty()
    }
}

fn is_peer(value: Option<&[u8]>) -> bool
    ensures { result ≡ good is_peer_name (option_map (λ text. text.now) value.entry) }
{
    match value {
        Some(text) => PeerNameForm::holds(text),
        None => true,
    }
}

fn is_id(value: Option<&[u8]>) -> bool
    ensures { result ≡ good is_msg_id (option_map (λ text. text.now) value.entry) }
{
    match value {
        Some(text) => MsgIdForm::holds(text),
        None => true,
    }
}

fn is_key(value: Option<&[u8]>) -> bool
    ensures { result ≡ good is_number (option_map (λ text. text.now) value.entry) }
{
    match value {
        Some(text) => read_number(text).is_some(),
        None => true,
    }
}

// The value of the field that a text begins with, if its key is this, and what follows it.
fn cut_field<'a>(key: &[u8], text: &'a [u8]) -> (Option<&'a [u8]>, &'a [u8])
    ensures value { option_map (λ value. value.now) result.0 ≡ value_at key.now text.now }
    ensures rest { result.1.now ≡ behind key.now text.now }
{
    match text.strip_prefix(key) {
        Some(value) => {
            let (value, rest) = value.split_at(end_of(value));
            (Some(value), rest)
        }
        None => (None, text),
    }
}

/// Where a word or a value ends: at the first space, or at the end.
pub(crate) fn end_of(text: &[u8]) -> usize
    ensures value { result ≡ end_of text.now }
    ensures within { result ≤ length text.now }
{
    text.iter().take_while(|octet| **octet != b' ').count()
}
