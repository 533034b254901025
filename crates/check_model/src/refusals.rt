//! Why a command on health checks is refused.

/// Why a command on health checks is refused.
#[derive(Clone, Copy, Debug, PartialEq, Eq)]
pub enum CheckRefusal {
    /// A child is named twice.
    ChildRepeated,
    /// A walk of five checks would stand: each calculated, and each but the first a child of the
    /// one before.
    ChildTooDeep,
    /// A threshold or children are given for a check of an endpoint.
    WrongMember,
    /// No check has this number: the one that is changed or deleted, or the first child that isn't
    /// there.
    NoSuchHealthCheck(u32),
    /// A calculated check names the check that would be deleted.
    HealthCheckInUse(u32),
    /// There are 200 checks.
    TooManyHealthChecks,
    /// There is no number for one more check.
    IdsEnded,
}
