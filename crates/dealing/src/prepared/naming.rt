//! Prepare, the first stage, and which active cells each move names.

ghost use Rattle.std.specs.Prelude.{◌≡◌, ◌<◌, [], ◌∷◌, length, IfSome};
ghost use Rattle.dealing.specs.Active.{Within, active_cells, active_flags, head_of};
ghost use Rattle.dealing.specs.Prepared.{cell_count, cells_in, cells_of};

use super::{ActiveCells, Prepared};
use yard::batch::{Move, Step};
use yard::kind::Kind;

/// Prepare: a cell is active if some step writes it.
pub(crate) fn prepare<K: Kind>(steps: &[Step], active: &mut [bool])
    requires { Within (length active.old) steps.now }
    ensures { active.new ≡ active_flags K.Kind.rules (length active.old) steps.now }
{
    active.fill(false);
    for step in steps {
        if K::writes(step.order) {
            active[usize::from(step.cell)] = true;
        }
    }
}

impl<'a> Prepared<'a> {
    /// The active cells that a move names.
    pub(crate) fn cells_of(self, found: Move) -> ActiveCells<'a>
        ensures cells { cells_in result ≡ cells_of self.entry found }
        ensures count { cell_count result ≡ length self.entry.active.now }
    {
        ActiveCells {
            active: self.active,
            steps: found.steps(self.steps),
        }
    }
}

impl ActiveCells<'_> {
    /// The cell that a step names, if it is active.
    pub(crate) fn counted(self, step: Step) -> Option<usize>
        ensures counted { result ≡ head_of (active_cells self.entry.active.now (step ∷ [])) }
        ensures within { IfSome result (λ cell. cell < cell_count self.entry) }
    {
        let cell = usize::from(step.cell);
        match self.active.get(cell) {
            Some(true) => Some(cell),
            _ => None,
        }
    }

    /// The first of them.
    pub(crate) fn first(self) -> Option<usize>
        ensures first { result ≡ head_of (cells_in self.entry) }
        ensures within { IfSome result (λ cell. cell < cell_count self.entry) }
    {
        // a loop: with `find_map` the proof did not close
        for step in self.steps {
            if let Some(cell) = self.counted(*step) {
                return Some(cell);
            }
        }
        None
    }
}
