//! Marks on clusters while a move is examined: they are off again when the examination ends, whichever way it ends.

ghost use Rattle.std.specs.Prelude.{◌≡◌, length, replicate, ◌==◌, slice_index, slice_set};

/// The lent marks, one for each cell. Letting go of this clears them.
pub struct Marked<'a> {
    // 0 or 1: to ask for a list of `bool` would ask more of whoever lends it
    marks: &'a mut [u8],
}

impl Drop for Marked<'_> {
    fn drop(self)
        ensures { self.exit.0.now ≡ replicate (length self.entry.marks.now) 0 }
    {
        self.marks.fill(0);
        let Marked { marks: _ } = self;
    }
}

impl<'a> Marked<'a> {
    /// No mark is set at first, whatever the list held.
    pub fn over(marks: &'a mut [u8]) -> Marked<'a>
        ensures marks { result.marks.now ≡ replicate (length marks.old) 0 }
        ensures lent { result.marks.ghost_name ≡ marks.entry.ghost_name }
    {
        marks.fill(0);
        Marked { marks }
    }

    /// Sets the mark of a cell, if the list has that cell.
    pub fn mark(&mut self, cell: usize)
        ensures marks { self.new.marks.now ≡ slice_set self.old.marks.now cell 1 }
        ensures lent { self.new.marks.ghost_name ≡ self.old.marks.ghost_name }
    {
        // by its index, since a slice's `get_mut` promises nothing of the list after the write
        if cell < self.marks.len() {
            self.marks[cell] = 1;
        }
    }

    pub fn is_marked(&self, cell: usize) -> bool
        ensures { result ≡ (slice_index self.now.marks.now cell == 1) }
    {
        self.marks.get(cell) == Some(&1)
    }
}

#[cfg(test)]
mod tests {
    use super::*;

    // Marks two cells, and says whether they were one: the marks are clear on both ways out.
    fn same_cell(marks: &mut [u8], one: usize, other: usize) -> bool
        ensures { marks.new ≡ replicate (length marks.old) 0 }
    {
        let mut marked = Marked::over(marks);
        marked.mark(one);
        if marked.is_marked(other) {
            return true;
        }
        marked.mark(other);
        false
    }

    #[test]
    fn clear_on_both_ways_out(rt: HostRuntime) {
        let mut marks = [7u8, 0, 1];
        assert!(rt; same_cell(&mut marks, 2, 2));
        assert_eq!(rt; marks, [0, 0, 0]);
        assert!(rt; !same_cell(&mut marks, 0, 3));
        assert_eq!(rt; marks, [0, 0, 0]);
    }
}
