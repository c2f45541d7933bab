//! Rules of links, and the fates that they give.

ghost use Rattle.std.specs.Prelude.{◌≡◌};
ghost use Rattle.qc_link.specs.Fate.{fate_of};

/// What a rule does to the messages that it is for.
#[derive(Clone, Copy, Debug, PartialEq, Eq)]
pub enum Rule {
    /// No copy comes.
    Drop,
    /// Two copies come at once.
    Twice,
    /// One copy comes, as the next phase begins.
    Late,
    /// One copy comes at once, and one as the next phase begins.
    Again,
}

/// What becomes of a message.
#[derive(Clone, Copy, Debug, PartialEq, Eq)]
pub enum Fate {
    /// One copy comes at once.
    Pass,
    /// No copy comes.
    Drop,
    /// Two copies come at once.
    Twice,
    /// One copy comes, as the next phase begins.
    Late,
    /// One copy comes at once, and one as the next phase begins.
    Again,
}

impl Rule {
    /// The fate that the rule gives.
    pub(crate) fn fate(&self) -> Fate
        ensures { result ≡ fate_of self.now }
    {
        match *self {
            Rule::Drop => Fate::Drop,
            Rule::Twice => Fate::Twice,
            Rule::Late => Fate::Late,
            Rule::Again => Fate::Again,
        }
    }
}
