// The steps that a script's lines say (docs/FORMATS.md).
ghost use Rattle.std.specs.Prelude.{◌≡◌, None, Some, ℕ, option_map, IfOk, MatchOption};
ghost use Rattle.drill_script.specs.Action.{ActionView};
ghost use Rattle.drill_script.specs.Line.{SaysStep};
ghost use Rattle.drill_script.specs.Parts.{SaysNoneBehind, SaysOn, StepOf};
ghost use Rattle.drill_script.specs.Step.{StepView, Stops, step_view};

use crate::action::{Action, unescape};
use crate::numbers::read_number;
use crate::stop_request::StopRequest;
use crate::words::{split_name, split_word};
use disk_model::Choice;
use funnel::PeerName;
use std::alloc::{AllocError, Global};
use world_core::Step;

/// Reads a step; `None` if the line says none.
///
/// # Errors
/// Memory was refused.
pub fn read_step(alloc: Global, line: &[u8]) -> Result<Option<Step>, AllocError>
    ensures { IfOk result (λ step. MatchOption step
        ((said : StepView) → SaysStep line.now said → ⊥)
        (λ made. SaysStep line.now (step_view made))) }
{
    let (word, text) = split_word(line);
    step_of(alloc, word, text)
}

fn step_of(alloc: Global, word: &[u8], text: Option<&[u8]>) -> Result<Option<Step>, AllocError>
    ensures { IfOk result (λ step. MatchOption step
        ((said : StepView) → StepOf word.now (option_map (λ t. t.now) text.entry) said → ⊥)
        (λ made. StepOf word.now (option_map (λ t. t.now) text.entry) (step_view made))) }
{
    match (word, text) {
        (word, None) => Ok(lone_step(alloc, word)),
        (b"line", Some(text)) => Ok(Some(Step::Line(Vec::from_slice(alloc, text)?))),
        (b"part", Some(name)) => match PeerName::read(alloc, name)? {
            Some(name) => Ok(Some(Step::Part(name))),
            None => Ok(None),
        },
        (b"connect", Some(name)) => match PeerName::read(alloc, name)? {
            Some(name) => Ok(Some(Step::Connect(name))),
            None => Ok(None),
        },
        (b"shed", Some(name)) => match PeerName::read(alloc, name)? {
            Some(name) => Ok(Some(Step::Shed(name))),
            None => Ok(None),
        },
        (b"rotate", Some(name)) => match PeerName::read(alloc, name)? {
            Some(name) => Ok(Some(Step::Rotate(name))),
            None => Ok(None),
        },
        (b"tick", Some(moment)) => match read_number(moment) {
            Some(moment) => Ok(Some(Step::Tick(moment))),
            None => Ok(None),
        },
        (b"stop", Some(words)) => match StopRequest::read(alloc, words)? {
            Some(request) => Ok(Some(request.into_step())),
            None => Ok(None),
        },
        (word, Some(rest)) => step_behind(alloc, word, rest),
    }
}

fn lone_step(alloc: Global, word: &[u8]) -> Option<Step>
    ensures { MatchOption result ((said : StepView) → StepOf word.now None said → ⊥)
        (λ made. StepOf word.now None (step_view made)) }
{
    match word {
        b"line" => Some(Step::Line(Vec::new(alloc))),
        b"flush" => Some(Step::Flush),
        b"begin" => Some(Step::Begin),
        b"seal" => Some(Step::Seal),
        b"stop" => Some(rest_now()),
        b"restart" => Some(Step::Restart),
        _ => None,
    }
}

// A stop at rest: only its call is looked at.
fn rest_now() -> Step
    ensures { step_view result ≡ Stops }
{
    Step::Stop {
        peer: None,
        call: 0,
        choice: Choice {
            happened: 0,
            fill: 0,
        },
    }
}

// A step that takes in a backlog file, or one on a connection.
fn step_behind(alloc: Global, word: &[u8], rest: &[u8]) -> Result<Option<Step>, AllocError>
    ensures { IfOk result (λ step. MatchOption step (SaysNoneBehind word.now rest.now)
        (λ made. StepOf word.now (Some rest.now) (step_view made))) }
{
    if word != b"import".as_slice() {
        return step_on(alloc, word, rest);
    }
    let Some((peer, written)) = split_name(alloc, rest)? else {
        return Ok(None);
    };
    match unescape(alloc, written)? {
        Some(text) => Ok(Some(Step::Import { peer, text })),
        None => Ok(None),
    }
}

// A step on a connection, whose number follows the word.
fn step_on(alloc: Global, word: &[u8], rest: &[u8]) -> Result<Option<Step>, AllocError>
    ensures { IfOk result (λ step. MatchOption step
        ((number : ℕ) (said : ActionView) → SaysOn word.now rest.now number said → ⊥)
        (λ made. StepOf word.now (Some rest.now) (step_view made))) }
{
    let (number, text) = split_word(rest);
    let Some(connection) = read_number(number) else {
        return Ok(None);
    };
    match Action::read(alloc, word, text)? {
        Some(action) => Ok(Some(action.on(connection))),
        None => Ok(None),
    }
}
