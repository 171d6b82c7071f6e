//! Worked examples, proved of the definitions that the contracts cite.

ghost use Rattle.planner.specs.Worked.{SheetAsWorked, OrdersAsWorked, DealingsAsWorked, ListingsAsWorked};

/// What reading the worked sheet gives, and what it gives with no rows in its occupancy.
pub fn sheet_as_worked()
    ensures { SheetAsWorked }
{}

/// A tram taken twice, loads at the limit, and a load above it.
pub fn orders_as_worked()
    ensures { OrdersAsWorked }
{}

/// The worked sheet's queues and rest list, with other shares, with no choices, and with no moves.
pub fn dealings_as_worked()
    ensures { DealingsAsWorked }
{}

/// The listings of worked sheets.
pub fn listings_as_worked()
    ensures { ListingsAsWorked }
{}
