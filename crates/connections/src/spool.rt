// The articles, and the directory that they are in.

/// A store of articles, and the directory that they are in.
#[derive(Drop)]
pub struct Spool<S> {
    pub store: S,
    /// The path of the directory (`news-spool`), for messages.
    pub path: String,
}
