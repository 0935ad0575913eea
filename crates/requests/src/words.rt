// The words that can be asked, and which fields each has.
ghost use Rattle.std.specs.Prelude.{◌≡◌};
ghost use Rattle.requests.specs.Words.{allows, rules, word_in, word_text};

/// What is asked.
#[derive(Clone, Copy)]
pub(crate) enum Word {
    Status,
    StatusJson,
    Retry,
    LogVerbose,
    LogQuiet,
    LogReopen,
    Hold,
    Release,
    Purge,
    DropArticle,
    TakeIn,
    Reload,
}

/// Whether a word has a field.
#[derive(Clone, Copy)]
pub(crate) enum Rule {
    Never,
    May,
    Must,
}

/// Which fields a word has.
#[derive(Clone, Copy)]
pub(crate) struct Rules {
    pub peer: Rule,
    pub id: Rule,
    pub key: Rule,
}

// The fields of a word that has none.
const NONE: Rules = Rules {
    peer: Rule::Never,
    id: Rule::Never,
    key: Rule::Never,
};

impl Rule {
    /// Whether a field may be there, or may be missing.
    pub fn allows(self, is_there: bool) -> bool
        ensures { result ≡ allows self is_there }
    {
        match self {
            Rule::Never => !is_there,
            Rule::May => true,
            Rule::Must => is_there,
        }
    }
}

impl Word {
    /// The word that is spelled so.
    pub fn read(text: &[u8]) -> Option<Word>
        ensures { result ≡ word_in text.now }
    {
        if text == b"status".as_slice() {
            Some(Word::Status)
        } else if text == b"status-json".as_slice() {
            Some(Word::StatusJson)
        } else if text == b"retry".as_slice() {
            Some(Word::Retry)
        } else if text == b"log-verbose".as_slice() {
            Some(Word::LogVerbose)
        } else if text == b"log-quiet".as_slice() {
            Some(Word::LogQuiet)
        } else if text == b"log-reopen".as_slice() {
            Some(Word::LogReopen)
        } else if text == b"hold".as_slice() {
            Some(Word::Hold)
        } else if text == b"release".as_slice() {
            Some(Word::Release)
        } else if text == b"purge".as_slice() {
            Some(Word::Purge)
        } else if text == b"drop".as_slice() {
            Some(Word::DropArticle)
        } else if text == b"take-in".as_slice() {
            Some(Word::TakeIn)
        } else if text == b"reload".as_slice() {
            Some(Word::Reload)
        } else {
            None
        }
    }

    /// How it is spelled.
    pub fn text(self) -> &'static [u8]
        ensures { result.now ≡ word_text self }
    {
        match self {
            Word::Status => b"status",
            Word::StatusJson => b"status-json",
            Word::Retry => b"retry",
            Word::LogVerbose => b"log-verbose",
            Word::LogQuiet => b"log-quiet",
            Word::LogReopen => b"log-reopen",
            Word::Hold => b"hold",
            Word::Release => b"release",
            Word::Purge => b"purge",
            Word::DropArticle => b"drop",
            Word::TakeIn => b"take-in",
            Word::Reload => b"reload",
        }
    }

    /// Which fields it has.
    pub fn rules(self) -> Rules
        ensures { result ≡ rules self }
    {
        match self {
            Word::Status | Word::StatusJson | Word::Retry | Word::TakeIn => Rules {
                peer: Rule::May,
                ..NONE
            },
            Word::Hold | Word::Release => Rules {
                peer: Rule::Must,
                ..NONE
            },
            Word::Purge => Rules {
                peer: Rule::Must,
                key: Rule::May,
                ..NONE
            },
            Word::DropArticle => Rules {
                peer: Rule::May,
                id: Rule::Must,
                ..NONE
            },
            Word::LogVerbose | Word::LogQuiet | Word::LogReopen | Word::Reload => NONE,
        }
    }
}
