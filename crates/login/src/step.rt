// How far a login has come, and how it ends.
ghost use Rattle.std.specs.Prelude.{◌≡◌};
ghost use Rattle.login.specs.Steps.{meaning_of};

/// What a login waits for.
#[derive(Clone, Copy, Debug, PartialEq, Eq)]
pub enum LoginStep {
    /// The greeting.
    Greeting,
    /// The answer to USER.
    User,
    /// The answer to PASS.
    Password,
}

/// Why a login has failed.
#[derive(Clone, Copy, Debug, PartialEq, Eq)]
pub enum Refusal {
    /// An answer with this code, which is not the one that was to come.
    Answer(u16),
    /// A line that does not begin with a code.
    NoCode,
    /// A line that is too long for a reply.
    TooLong,
    /// No answer came in time.
    Timeout,
    /// Memory was refused for what came.
    NoMemory,
}

/// Whether a login is under way, and how it ended.
#[derive(Clone, Copy, Debug, PartialEq, Eq)]
pub enum LoginEnd {
    /// It is under way.
    Open,
    /// The peer has accepted it (281).
    Accepted,
    Refused(Refusal),
}

/// What an answer makes of a login.
#[derive(Clone, Copy, Debug, PartialEq, Eq)]
pub(crate) enum Meaning {
    GoesOn,
    Succeeds,
    Fails,
}

impl LoginStep {
    pub(crate) fn meaning(self, code: u16) -> Meaning
        ensures { result ≡ meaning_of self code }
    {
        match (self, code) {
            (LoginStep::Greeting, 200 | 201) => Meaning::GoesOn,
            (LoginStep::User, 381) => Meaning::GoesOn,
            (LoginStep::User | LoginStep::Password, 281) => Meaning::Succeeds,
            _ => Meaning::Fails,
        }
    }
}
