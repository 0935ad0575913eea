// The latest answer for one host.
ghost use Rattle.std.specs.Prelude.{◌≡◌, IfOk};
ghost use Rattle.resolver.specs.LatestAnswer.{IsNews, nothing, with_answer};

use crate::host::Answer;
use std::alloc::{AllocError, Global};

/// The latest answer for one host, if there was one.
#[derive(Drop)]
pub(crate) struct LatestAnswer {
    /// How many answers there were, at most 2 ^ 64 - 1.
    pub count: u64,
    pub answer: Option<Answer>,
}

impl LatestAnswer {
    pub fn new() -> LatestAnswer
        ensures { result ≡ nothing }
    {
        LatestAnswer {
            count: 0,
            answer: None,
        }
    }

    pub fn put(&mut self, answer: Answer)
        ensures { self.new ≡ with_answer self.old answer }
    {
        self.count = self.count.saturating_add(1);
        self.answer = Some(answer);
    }

    /// The latest answer and how many answers there were, unless the caller has seen that many.
    ///
    /// # Errors
    /// Memory was refused.
    pub fn news(&self, alloc: Global, seen: u64) -> Result<Option<(u64, Answer)>, AllocError>
        ensures ok { IfOk result (IsNews self.now seen) }
    {
        match &self.answer {
            Some(answer) if self.count != seen => { Ok(Some((self.count, answer.copied(alloc)?))) }
            _ => Ok(None),
        }
    }
}
