// What a run uses of the system.

/// What a run uses: the runtime of its threads, files for this thread, what opens the spool, the capability to open
/// sockets, and what looks up hosts.
#[derive(Drop)]
pub struct RunEnv<'a, R, F, H, C, L> {
    pub rt: &'a R,
    pub files: &'a F,
    pub spools: H,
    pub net: C,
    pub look_up: L,
    /// The program's version, for the log.
    pub version: &'a str,
}
