//! Whether steps and places fit a batch: for every list of them that something is asked of.

ghost use Rattle.std.specs.Prelude.{◌≡◌};
ghost use Rattle.dealing.specs.Opening.{known, all_known, all_below};

use yard::batch::Step;
use yard::kind::Kind;

/// Whether each step is an order that the kind knows, on a cell below `cells`.
pub fn all_known<K: Kind>(steps: &[Step], cells: usize) -> bool
    ensures { result ≡ all_known K.Kind.rules cells steps.now }
{
    steps.iter().all(|step| is_known::<K>(*step, cells))
}

fn is_known<K: Kind>(step: Step, cells: usize) -> bool
    ensures { result ≡ known K.Kind.rules cells step }
{
    K::knows(step.order) && usize::from(step.cell) < cells
}

/// Whether each place is below `end`.
pub fn all_below(places: &[u16], end: usize) -> bool
    ensures { result ≡ all_below end places.now }
{
    places.iter().all(|place| usize::from(*place) < end)
}
