//! The law of runs, for every kind, and a run that works every lane through.

ghost use Rattle.books.specs.Law.{LawOfRuns};
ghost use Rattle.books.specs.Through.{WorksThrough};

use yard::kind::Kind;

/// What the board holds and what the calls answer, in every run on lists that open filled.
pub fn law_of_runs<K: Kind>()
    ensures { LawOfRuns K.Kind.rules }
{}

/// Where each queue is stepped as often as its moves have steps, and then the rest list likewise, no lane has a step left,
/// and the board and the ends are those of every move worked whole in that order.
pub fn working_through<K: Kind>()
    ensures { WorksThrough K.Kind.rules }
{}
