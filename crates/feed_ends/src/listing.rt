// What a list of what is owed has.

/// Whose articles a list of what is owed has.
#[derive(Clone, Copy, Debug, PartialEq, Eq)]
pub enum Scope {
    /// Those of the peers that the settings have.
    Peers,
    /// All that waits in the backlog directory, for these peers and for any others.
    All,
}

/// What a list of what is owed has, and in which form.
#[derive(Debug, Drop)]
pub struct Listing<'a> {
    pub scope: Scope,
    /// The names that it is restricted to; if there are none, it has all of its scope.
    pub names: Vec<&'a str>,
    /// Whether it has one line for each name, `NAME N OCTETS NUMBER`, in place of one for each article.
    pub is_summary: bool,
}
