// The answer of a call that may have noted something at a front.
ghost use Rattle.std.specs.Prelude.{◌≡◌};

use crate::Naming;
use crate::front_desk::{FrontDesk, NoCopy};
use std::marker::Model;

/// Such an answer. It can be had only once what is noted at the front was sent, as far as that goes.
pub(crate) struct Noted<T> {
    answer: T,
}

impl<T> Model for Noted<T> {
    ghost Value = { T };

    ghost view = { λ noted. noted.answer };
}

impl<T> Noted<T> {
    ghost use Rattle.std.specs.Prelude.{OnOk};
    ghost use Rattle.flusher.specs.Sent.{IsSent};

    pub(crate) fn new(answer: T) -> Self
        ensures { result ≡ answer }
    {
        Noted { answer }
    }

    // The answer, after this front has sent what it could: all, or until the queue was full; or the copy of a note was
    // refused memory, and then the rest stays unsent until the next call that notes.
    pub(crate) fn once_sent<N: Naming>(self, desk: &FrontDesk<N>, sent: Result<(), NoCopy>) -> T
        requires { OnOk sent (IsSent desk.now.seat.sender) }
        ensures { result ≡ self }
    {
        let _ = desk;
        let _ = sent;
        let Noted { answer } = self;
        answer
    }
}
