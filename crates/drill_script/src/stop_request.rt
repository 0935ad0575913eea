// The stop that a script's `stop` line with a tape arms (docs/FORMATS.md).
ghost use Rattle.std.specs.Prelude.{◌≡◌, ◌==◌, ◌<◌, IfOk, map};
ghost use Rattle.std.specs.List.{slice_split};

use crate::numbers::read_number;
use disk_model::Choice;
use funnel::PeerName;
use std::alloc::{AllocError, Global};
use world_core::Step;

// The word for the intake's tape.
pub(crate) const INTAKE: &[u8] = b"~intake";

/// A stop that is to be armed.
#[derive(Drop)]
pub struct StopRequest {
    /// The peer at whose tape the stop comes; `None` for the intake's.
    pub peer: Option<PeerName>,
    /// The counted call at which it comes, from 1.
    pub call: u64,
    /// What it leaves of each disk.
    pub choice: Choice,
    ghost counted: { 0 < call },
}

impl StopRequest {
    ghost use Rattle.drill_script.specs.StopRequest.{armed, armed_by, request_of, view_of};
    ghost use Rattle.drill_script.specs.Step.{Arms, step_view};

    /// Reads `TAPE CALL BITS` or `TAPE CALL BITS FILL`; `None` if the text is neither. TAPE is a peer's name or
    /// `~intake`.
    ///
    /// # Errors
    /// Memory was refused.
    pub(crate) fn read(alloc: Global, text: &[u8]) -> Result<Option<StopRequest>, AllocError>
        ensures { IfOk result (λ request.
            view_of request ≡ request_of (slice_split (λ octet. octet == 32) text.now)) }
    {
        let words = words_of(alloc, text)?;
        StopRequest::of_words(alloc, &words)
    }

    fn of_words(alloc: Global, words: &[&[u8]]) -> Result<Option<StopRequest>, AllocError>
        ensures { IfOk result (λ request.
            view_of request ≡ request_of (map (λ word. word.now) words.now)) }
    {
        match words {
            [name, call, bits] => StopRequest::of_parts(alloc, name, call, bits, b"0"),
            [name, call, bits, fill] => StopRequest::of_parts(alloc, name, call, bits, fill),
            _ => Ok(None),
        }
    }

    fn of_parts(
        alloc: Global,
        name: &[u8],
        call: &[u8],
        bits: &[u8],
        fill: &[u8],
    ) -> Result<Option<StopRequest>, AllocError>
        ensures { IfOk result (λ request.
            view_of request ≡ armed name.now call.now bits.now fill.now) }
    {
        let (Some(call), Some(happened), Some(fill)) = (
            read_number(call),
            read_number(bits),
            read_number(fill),
        ) else {
            return Ok(None);
        };
        if call == 0 || fill > 255 {
            return Ok(None);
        }
        let peer = if name == INTAKE {
            None
        } else {
            let Some(name) = PeerName::read(alloc, name)? else {
                return Ok(None);
            };
            Some(name)
        };
        let choice = Choice {
            happened,
            fill: fill as u8,
        };
        Ok(Some(StopRequest { peer, call, choice }))
    }

    pub(crate) fn into_step(self) -> Step
        ensures { step_view result ≡ Arms (armed_by self) }
    {
        let StopRequest { peer, call, choice } = self;
        Step::Stop { peer, call, choice }
    }
}

// The words of a text, each separated from the next by one space.
fn words_of(alloc: Global, text: &[u8]) -> Result<Vec<&[u8]>, AllocError>
    ensures { IfOk result (λ words.
        map (λ word. word.now) words.items ≡ slice_split (λ octet. octet == 32) text.now) }
{
    text.split(|octet| *octet == b' ').collect(alloc)
}
