//! Triples of a certificate.

/// What a view may have come to: where a log leads to the state `log`, and
/// the events of it that a view has lead to `view`, those left out are
/// among `out`. Triples are ordered by `view`, then `log`, then `out`.
#[derive(Clone, Copy, PartialEq, Eq, PartialOrd, Ord, Debug)]
pub struct Triple {
    /// The view's state.
    pub view: u8,
    /// The log's state.
    pub log: u8,
    /// The events left out, bit k for event k.
    pub out: u64,
}
