// Whether standard error is a stream of the journal.
use std::os::unix::fs::MetadataExt;
use std::rt::{Env, Files};
use std::{env, fs};

/// Whether standard error is a stream of the journal: systemd then sets the variable `JOURNAL_STREAM` to the device and
/// the inode of that stream, `DEVICE:INODE` (sd_journal_stream_fd(3), systemd.exec(5)). A file or a pipe to which the
/// program's output is directed has others, although the variable may be there, too.
pub fn is_journal<R: AllocGlobal + Env + Files>(rt: &R) -> bool {
    let Ok(stream) = env::var(rt, "JOURNAL_STREAM") else {
        return false;
    };
    let Ok(node) = fs::metadata(rt, "/dev/stderr") else {
        return false;
    };
    match format!(in rt.alloc(); "{}:{}", node.dev(), node.ino()) {
        Ok(text) => text == stream,
        Err(_) => false,
    }
}
