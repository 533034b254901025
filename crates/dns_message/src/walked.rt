//! What a walk came to: over records for the OPT record, over options for the client subnet.

/// Where the one stands that was looked for. A walk hands on a place, and nothing that is read there.
#[derive(Clone, Copy)]
pub(crate) enum Walked {
    /// What was walked isn't whole, or not as it has to be.
    Broken,
    /// It is whole, and has none.
    Plain,
    /// It is whole, and has one at this place.
    At(usize),
}
