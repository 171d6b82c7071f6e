//! Examining a move: which special clusters it touches. The roots of its cells are marked while that is found out.

ghost use Rattle.std.specs.Prelude.{◌≡◌, length, replicate};
ghost use Rattle.clusters.specs.Roots.{roots_of};
ghost use Rattle.dealing.specs.Clustering.{roots_in, cell_total, named_by, Continues};
ghost use Rattle.dealing.specs.Counting.{Specials};
ghost use Rattle.dealing.specs.Examining.{Marks, seen, marks_in};
ghost use Rattle.dealing.specs.Prepared.{cells_in, cell_count};
ghost use Rattle.dealing.specs.Special.{cells_known};
ghost use Rattle.dealing.specs.Stages.{hits as hits_of, trues};

use crate::clustering::Clustering;
use crate::prepared::ActiveCells;
use crate::rooting::root;
use crate::special::Special;
use clusters::marks::Marked;
use yard::batch::Move;

impl Clustering<'_> {
    /// Which special clusters a move touches, and how many. Each is known by one of its cells.
    // into a lent list: this is done for each move, and an array that is handed back is copied
    pub(crate) fn hits(&mut self, found: Move, special: &[Special], hit: &mut [bool]) -> usize
        requires special { Specials (cell_total self.old) (cells_known special.now) }
        requires room { length hit.old ≡ length special.now }
        ensures hits { hit.new ≡ hits_of (roots_in self.old) (cells_known special.now) (named_by self.old found) }
        ensures count { result ≡ trues (hits_of (roots_in self.old) (cells_known special.now) (named_by self.old found)) }
        ensures long { length hit.new ≡ length hit.old }
        ensures parents { self.new.parents.now ≡ self.old.parents.now }
        ensures same { Continues self.old self.new }
    {
        let cells = self.prepared.cells_of(found);
        touched_ones(self.parents, self.marks, cells, special, hit)
    }
}

// Which special clusters some cells touch, and how many, found out with the marks. The parents stay: a `&mut`, since a proof does not know that a field lent as `&` out of a `&mut` stays.
fn touched_ones(
    parents: &mut [u16],
    marks: &mut [u8],
    cells: ActiveCells,
    special: &[Special],
    hit: &mut [bool],
) -> usize
    requires long { length parents.old ≡ cell_count cells }
    requires marks { length marks.old ≡ length parents.old }
    requires special { Specials (length parents.old) (cells_known special.now) }
    requires room { length hit.old ≡ length special.now }
    ensures hits { hit.new ≡ hits_of (roots_of parents.old) (cells_known special.now) (cells_in cells.entry) }
    ensures count { result ≡ trues (hits_of (roots_of parents.old) (cells_known special.now) (cells_in cells.entry)) }
    ensures kept { length hit.new ≡ length hit.old }
    ensures parents { parents.new ≡ parents.old }
    ensures clear { marks.new ≡ replicate (length marks.old) 0 }
{
    let mut marked = Marked::over(marks);
    mark_roots(&mut marked, parents, cells);
    marked_ones(&marked, parents, special, hit)
}

// Marks the roots of the cells.
fn mark_roots(marked: &mut Marked, parents: &[u16], cells: ActiveCells)
    requires long { length parents.now ≡ cell_count cells }
    requires clear { marks_in marked.old ≡ replicate (length parents.now) 0 }
    ensures marks { Marks (roots_of parents.now) (cells_in cells.entry) (marks_in marked.new) }
    ensures long { length (marks_in marked.new) ≡ length parents.now }
    ensures lent { marked.new.marks.ghost_name ≡ marked.old.marks.ghost_name }
{
    for step in cells.steps {
        if let Some(cell) = cells.counted(*step) {
            marked.mark(root(parents, cell));
        }
    }
}

// Which special clusters are marked, and how many.
fn marked_ones(marked: &Marked, parents: &[u16], special: &[Special], hit: &mut [bool]) -> usize
    requires special { Specials (length parents.now) (cells_known special.now) }
    requires room { length hit.old ≡ length special.now }
    ensures which { hit.new ≡ seen (marks_in marked.now) (roots_of parents.now) (cells_known special.now) }
    ensures count { result ≡ trues (seen (marks_in marked.now) (roots_of parents.now) (cells_known special.now)) }
    ensures kept { length hit.new ≡ length hit.old }
{
    let mut count = 0;
    // by place: after `iter_mut` with a `zip`, a proof does not know what was written
    for (i, one) in special.iter().enumerate() {
        let touched = marked.is_marked(root(parents, usize::from(one.cell)));
        hit[i] = touched;
        if touched {
            count += 1;
        }
    }
    count
}
