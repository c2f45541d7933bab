//! What came of a request, and what a round comes to.

use qc_stamp::TxId;

/// What came of the request to a site.
#[derive(Clone, Copy, Debug, PartialEq, Eq)]
pub enum Standing {
    /// The site granted it.
    Granted,
    /// Another transaction holds what conflicts.
    Clash { tx: TxId },
    /// The epoch is closed at the site; this one is next.
    Closed { epoch: u8 },
    /// The site refused it otherwise, or the request or its answer was lost.
    Missing,
}

/// What a round comes to.
#[derive(Clone, Copy, Debug, PartialEq, Eq)]
pub enum Verdict {
    /// An answer, or a further site, is awaited.
    Waiting,
    /// The sites that granted weigh what is needed.
    Met,
    /// The first asked site at which the epoch is closed.
    Closed { epoch: u8, site: u8 },
    /// The first asked site that told of a clash, and its holder.
    Clash { tx: TxId, site: u8 },
    /// All sites are asked, and those that granted weigh too little.
    Short { got: u16, need: u16 },
}

/// A site, and what came of the request to it, once that is known.
#[derive(Clone, Copy, Debug, PartialEq, Eq)]
pub struct Asked {
    /// The site's number.
    pub site: u8,
    /// What came of the request.
    pub standing: Option<Standing>,
}
