// How runs end.
use rule_core::Blocked;
use term_core::Term;

/// How a run ends, after how many steps, and its last configuration. Contracts see it as
/// `plain_run`.
#[derive(Drop)]
pub enum RunEnd {
    /// No rule applies to this configuration.
    Stuck(u32, Term),
    /// The limit of steps is reached. No rule was tried on this configuration.
    Limit(u32, Term),
    /// The next step from this configuration is blocked.
    Blocked(u32, Blocked, Term),
    /// The initial term has no value.
    Unstarted(Blocked),
}
