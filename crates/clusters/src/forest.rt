//! Parents and roots. A cell's parent counts only if it is a higher cell of the list; any other cell is a root.

ghost use Rattle.std.specs.Prelude.{◌≡◌, ◌<◌, length, IfSome};
ghost use Rattle.clusters.specs.Roots.{above_of, root_of, joined, put_under, JoiningMakesOneClusterOfTwo};

/// The root of a cell: the root of the cell above it, or the cell itself where none is above it. A cell outside the list is its own root.
pub fn find(parents: &[u16], cell: usize) -> usize
    ensures { result ≡ root_of parents.now cell }
{
    match above(parents, cell) {
        Some(up) => find(parents, up),
        None => cell,
    }
}

// The parent of a cell, if it is a higher cell of the list.
fn above(parents: &[u16], cell: usize) -> Option<usize>
    ensures parent { result ≡ above_of parents.now cell }
    ensures higher { IfSome result (λ up. (cell < up) × (up < length parents.now)) }
{
    parents
        .get(cell)
        .map(|parent| usize::from(*parent))
        .filter(|up| *up > cell && *up < parents.len())
}

/// Joins the clusters of two cells: the lower of their roots goes under the higher.
pub fn join(parents: &mut [u16], one: usize, other: usize)
    ensures { parents.new ≡ joined one other parents.old }
{
    let a = find(parents, one);
    let b = find(parents, other);
    put_under(parents, a.min(b), a.max(b));
}

// Nothing changes where `low` is not below `high`, or `high` is no cell of the list or has more than 16 bits.
fn put_under(parents: &mut [u16], low: usize, high: usize)
    ensures { parents.new ≡ put_under low high parents.old }
{
    if low < high
        && high < parents.len()
        && let Ok(parent) = u16::try_from(high)
    {
        parents[low] = parent;
    }
}

/// What joining does to the root of every cell, if both are cells of a list of at most 65,536: the roots of the two become one, the higher of them.
pub fn joining_makes_one_cluster_of_two()
    ensures { JoiningMakesOneClusterOfTwo }
{}
