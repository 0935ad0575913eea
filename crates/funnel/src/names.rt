// Message-ids, tokens and the names of peers: octets that keep their form.
ghost use Rattle.std.specs.Prelude.{◌≡◌, ◌==◌, ◌↔◌, ℕ, Bool, List, IfOk, IfSome, IsSome, IsTrue};
ghost use Rattle.std.specs.Prelude.{count_by, false};
ghost use Rattle.std.specs.List.{list_all, list_any, slice_split};
ghost use Rattle.funnel.specs.Names.{is_alphanumeric, is_graphic, is_msg_id, is_name_octet, is_parent, is_peer_name};
ghost use Rattle.funnel.specs.Names.{is_token};

use std::alloc::{AllocError, Global};
use std::marker::{Model, PhantomData};

/// A form that octets may have.
pub trait Form {
    ghost form: { List ℕ → Bool };

    /// Whether the octets have it.
    fn holds(octets: &[u8]) -> bool
        ensures { result ≡ form octets.now };
}

/// Octets that have a form and keep it: a [`MsgId`], a [`Token`] or a [`PeerName`].
#[derive(Drop)]
#[derive_where(Debug)]
pub struct Name<F: Form> {
    octets: Vec<u8>,
    #[derive_where(skip)]
    form: PhantomData<F>,
}

impl<F: Form> Model for Name<F> {
    ghost Value = { List ℕ };

    ghost view = { λ name. name.octets.items };

    ghost invariant = { λ name. IsTrue (F.form name.octets.items) };
}

impl<F: Form> Name<F> {
    /// Reads a name, which is all of these octets; `None` if they do not have its form.
    ///
    /// # Errors
    /// `NoMemory` if the octets have the form and memory was refused.
    pub fn read(alloc: Global, octets: &[u8]) -> Result<Option<Self>, AllocError>
        ensures found { IfOk result (λ o. IsSome o ↔ IsTrue (F.form octets.now)) }
        ensures value { IfOk result (λ o. IfSome o (λ name. name ≡ octets.now)) }
        ensures none { F.form octets.now ≡ false → result ≡ Ok None }
    {
        if !F::holds(octets) {
            return Ok(None);
        }
        let name = Self::from_octets(alloc, octets)?;
        Ok(Some(name))
    }

    pub(crate) fn from_octets(alloc: Global, octets: &[u8]) -> Result<Self, AllocError>
        requires { IsTrue (F.form octets.now) }
        ensures { IfOk result (λ name. name ≡ octets.now) }
    {
        let octets = Vec::from_slice(alloc, octets)?;
        Ok(Self {
            octets,
            form: PhantomData,
        })
    }

    pub fn bytes(&self) -> &[u8]
        ensures value { result.now ≡ self.now }
        ensures form { IsTrue (F.form self.now) }
    {
        &self.octets
    }
}

impl<F: Form> Clone for Name<F> {
    ghost is_clone = { λ name copy. copy ≡ name };

    fn clone(&self) -> Result<Self, AllocError> {
        Self::from_octets(*self.octets.allocator(), &self.octets)
    }
}

/// A message-id: 3 to 250 octets of 33 to 126, `<` first, `>` last and nowhere else (RFC 3977, section 3.6).
pub type MsgId = Name<MsgIdForm>;

/// A token, which says where an article is stored: 1 to 255 octets of 33 to 126; `/` is not the first, and no part
/// between slashes is `..`.
pub type Token = Name<TokenForm>;

/// The name of a peer: 1 to 64 letters, digits, `.`, `-` and `_`; `.` is not the first.
pub type PeerName = Name<PeerNameForm>;

pub struct MsgIdForm;

impl Form for MsgIdForm {
    ghost form = { is_msg_id };

    fn holds(octets: &[u8]) -> bool {
        3 <= octets.len()
            && octets.len() <= 250
            && octets[0] == b'<'
            && octets[octets.len() - 1] == b'>'
            && has_one_end(octets)
            && all_graphic(octets)
    }
}

pub struct TokenForm;

impl Form for TokenForm {
    ghost form = { is_token };

    fn holds(octets: &[u8]) -> bool {
        1 <= octets.len()
            && octets.len() <= 255
            && all_graphic(octets)
            && octets[0] != b'/'
            && !has_parent(octets)
    }
}

pub struct PeerNameForm;

impl Form for PeerNameForm {
    ghost form = { is_peer_name };

    fn holds(octets: &[u8]) -> bool {
        1 <= octets.len() && octets.len() <= 64 && all_name_octets(octets) && octets[0] != b'.'
    }
}

// Whether the octet is visible ASCII: neither a blank nor a control.
fn is_graphic(octet: u8) -> bool
    ensures { result ≡ is_graphic octet }
{
    33 <= octet && octet <= 126
}

fn all_graphic(octets: &[u8]) -> bool
    ensures { result ≡ list_all is_graphic octets.now }
{
    octets.iter().all(|octet| is_graphic(*octet))
}

fn has_one_end(octets: &[u8]) -> bool
    ensures { result ≡ (count_by (λ octet. octet == 62) octets.now == 1) }
{
    octets.iter().filter(|octet| **octet == b'>').count() == 1
}

// Whether the part is `..`, the parent directory.
fn is_parent(part: &[u8]) -> bool
    ensures { result ≡ is_parent part.now }
{
    part.len() == 2 && part.iter().all(|octet| *octet == b'.')
}

fn has_parent(octets: &[u8]) -> bool
    ensures { result ≡ list_any is_parent (slice_split (λ octet. octet == 47) octets.now) }
{
    octets
        .split(|octet| *octet == b'/')
        .any(|part| is_parent(part))
}

fn is_alphanumeric(octet: u8) -> bool
    ensures { result ≡ is_alphanumeric octet }
{
    octet.is_ascii_alphanumeric()
}

fn is_name_octet(octet: u8) -> bool
    ensures { result ≡ is_name_octet octet }
{
    is_alphanumeric(octet) || octet == b'.' || octet == b'-' || octet == b'_'
}

fn all_name_octets(octets: &[u8]) -> bool
    ensures { result ≡ list_all is_name_octet octets.now }
{
    octets.iter().all(|octet| is_name_octet(*octet))
}
