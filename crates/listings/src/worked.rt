//! The worked listing, proved of the definitions that the contracts cite.

ghost use Rattle.listings.specs.Worked.{ListingAsWorked};

/// What is listed of the worked run, and of a slip.
pub fn listing_as_worked()
    ensures { ListingAsWorked }
{}
