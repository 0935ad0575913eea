// The files that could not be read.
use funnel::Token;
use std::alloc::{AllocError, Global};

const PATHS_MAX: usize = 4_096;

/// The paths of the files that could not be read, each once; 4,096 at most.
#[derive(Drop)]
pub struct UnreadPaths {
    paths: Vec<Vec<u8>>,
}

impl UnreadPaths {
    pub fn new(alloc: Global) -> Self {
        UnreadPaths {
            paths: Vec::new(alloc),
        }
    }

    /// The paths, in the order in which they were added.
    pub fn into_paths(self) -> Vec<Vec<u8>> {
        self.paths
    }

    /// Adds the file of a token below this directory, or the directory itself. Returns whether it was added: not if it
    /// was among them, there are 4,096, or memory is refused.
    pub fn add(&mut self, alloc: Global, directory: &str, token: Option<&Token>) -> bool {
        if self.paths.len() >= PATHS_MAX {
            return false;
        }
        match path_of(alloc, directory, token) {
            Ok(path) if !self.paths.contains(&path) => self.paths.push(path).is_ok(),
            _ => false,
        }
    }
}

// The path of the file of a token below this directory, or of the directory.
fn path_of(alloc: Global, directory: &str, token: Option<&Token>) -> Result<Vec<u8>, AllocError> {
    let mut path = Vec::from_slice(alloc, directory.as_bytes())?;
    if let Some(token) = token {
        path.push(b'/')?;
        path.extend_from_slice(token.bytes())?;
    }
    Ok(path)
}
