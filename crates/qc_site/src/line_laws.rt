//! Laws of the lines that sites know, each the contract of a function with nothing to
//! do.

ghost use Rattle.std.specs.Prelude.{◌≡◌, ℕ, false, List};
ghost use Rattle.qc_decl.specs.declared.declaration.Declaration.{Declaration};
ghost use Rattle.qc_msg.specs.Deeds.{Deed};
ghost use Rattle.qc_msg.specs.declared.message.Message.{Message};
ghost use Rattle.qc_site.specs.Arrived.{HasArrived};
ghost use Rattle.qc_site.specs.Brought.{brought};
ghost use Rattle.qc_site.specs.Conduct.{site_after, site_on};
ghost use Rattle.qc_site.specs.Site.{SiteState, arriving, learned};
ghost use Rattle.qc_site.specs.Told.{grants_in, installs_in};

/// Until the site begins another epoch, what its own began with stays, and the log gains just what that
/// lacks of the view of an Append that is granted, or of the own lines that were promised of a
/// committed transaction, with its stamp; those lines come last, in the order of arrival.
pub fn logs_gain_what_is_brought()
    ensures log { (decl : Declaration) (s : SiteState) (from number : ℕ) (message : Message)
        → installs_in (site_on decl s from number message).turn ≡ false
        → (site_on decl s from number message).site.log
        ≡ learned s (brought s.prepared (grants_in (site_on decl s from number message).turn) message) }
    ensures began { (decl : Declaration) (s : SiteState) (from number : ℕ) (message : Message)
        → installs_in (site_on decl s from number message).turn ≡ false
        → (site_on decl s from number message).site.began ≡ s.began }
    ensures arrived { (decl : Declaration) (s : SiteState) (from number : ℕ) (message : Message)
        → installs_in (site_on decl s from number message).turn ≡ false
        → (site_on decl s from number message).site.arrived
        ≡ arriving s (brought s.prepared (grants_in (site_on decl s from number message).turn) message) }
{}

/// Whatever a site took, the lines that joined since it rose or began its epoch, and that stood there
/// then, are just those that it knows.
pub fn what_arrived_is_known()
    ensures message { (decl : Declaration) (s : SiteState) (from number : ℕ) (message : Message) → HasArrived s
        → HasArrived (site_on decl s from number message).site }
    ensures deeds { (decl : Declaration) (number : ℕ) (deeds : List Deed)
        → HasArrived (site_after decl number deeds).site }
{}
