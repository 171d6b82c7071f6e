//! Roots of cells while clusters are joined, said by the list of roots.

ghost use Rattle.std.specs.Prelude.{◌≡◌, ◌<◌, ◌≤◌, length, replicate, slice_index};
ghost use Rattle.std.specs.List.{range_with_len};
ghost use Rattle.clusters.specs.Roots.{roots_of, joined_roots};
ghost use Rattle.dealing.specs.Clustering.{roots_in, cell_total, named_by, Continues};
ghost use Rattle.dealing.specs.Prepared.{cells_in, cell_count};
ghost use Rattle.dealing.specs.Stages.{joined_with, joined_cells};

use crate::clustering::Clustering;
use crate::prepared::{ActiveCells, Prepared};
use clusters::forest::{find, join};
use yard::batch::Move;

/// The root of a cell.
pub(crate) fn root(parents: &[u16], cell: usize) -> usize
    requires { cell < length parents.now }
    ensures root { result ≡ slice_index (roots_of parents.now) cell }
    ensures within { result < length parents.now }
{
    find(parents, cell)
}

impl<'a> Clustering<'a> {
    /// Every cell is a cluster of its own, whatever the lists held.
    pub(crate) fn apart(
        parents: &'a mut [u16],
        marks: &'a mut [u8],
        prepared: Prepared<'a>,
    ) -> Clustering<'a>
        requires parents { length parents.old ≡ length prepared.active.now }
        requires marks { length marks.old ≡ length parents.old }
        ensures roots { roots_in result ≡ range_with_len 0 (length parents.old) }
        ensures prepared { result.prepared ≡ prepared.entry }
        ensures parents { result.parents.ghost_name ≡ parents.entry.ghost_name }
        ensures marks { result.marks.ghost_name ≡ marks.entry.ghost_name }
    {
        separate(parents);
        marks.fill(0);
        Clustering {
            parents,
            marks,
            prepared,
        }
    }
}

// Makes every cell a cluster of its own.
fn separate(parents: &mut [u16])
    requires { length parents.old ≤ 1024 }
    ensures { roots_of parents.new ≡ range_with_len 0 (length parents.old) }
{
    for (cell, parent) in parents.iter_mut().enumerate() {
        *parent = cell as u16;
    }
}

// Makes one cluster of those of two cells.
fn join_two(parents: &mut [u16], one: usize, other: usize)
    requires one { one < length parents.old }
    requires other { other < length parents.old }
    requires few { length parents.old ≤ 1024 }
    ensures { roots_of parents.new ≡ joined_roots one other (roots_of parents.old) }
{
    join(parents, one, other);
}

// Joins the cluster of each of the cells with that of `first`. Parents and cells come apart here and where cells are marked or compared: a value of both would only be made from the clusters and taken apart again.
fn join_with(parents: &mut [u16], first: usize, cells: ActiveCells)
    requires long { length parents.old ≡ cell_count cells }
    requires first { first < length parents.old }
    ensures { roots_of parents.new ≡ joined_with first (cells_in cells.entry) (roots_of parents.old) }
{
    for step in cells.steps {
        if let Some(cell) = cells.counted(*step) {
            join_two(parents, first, cell);
        }
    }
}

impl Clustering<'_> {
    /// Makes one cluster of those of two cells.
    pub(crate) fn join_at(&mut self, one: usize, other: usize)
        requires one { one < cell_total self.old }
        requires other { other < cell_total self.old }
        ensures roots { roots_in self.new ≡ joined_roots one other (roots_in self.old) }
        ensures same { Continues self.old self.new }
    {
        join_two(self.parents, one, other);
    }

    /// Makes one cluster of those that a move's active cells are in.
    pub(crate) fn join_cells(&mut self, found: Move)
        ensures roots { roots_in self.new ≡ joined_cells (named_by self.old found) (roots_in self.old) }
        ensures same { Continues self.old self.new }
    {
        let cells = self.prepared.cells_of(found);
        if let Some(first) = cells.first() {
            join_with(self.parents, first, cells);
        }
    }
}
