//! A worked run, proved of the definitions that the contracts cite.

ghost use Rattle.books.specs.Worked.{RunAsWorked};

/// Two queues and a rest list, a failing move that is set back, refusals, looks and a tally.
pub fn run_as_worked()
    ensures { RunAsWorked }
{}
