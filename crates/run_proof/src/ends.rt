// How a proved run ends.
use run_loop::RunEnd;

/// How a run that is proved ends. Contracts see the run as `plain_run` of `end`.
#[derive(Drop)]
pub struct ProvedEnd {
    /// How the run ends.
    pub end: RunEnd,
    /// How many rules its proof shows not to apply at its end: all of them, if that is wanted, the
    /// run is stuck and no constructor is AC. Else `None`.
    pub shown: Option<usize>,
}
