//! The reader of a sheet: it stands on the sheet's bytes and keeps its place and the number of its line.

ghost use Rattle.std.specs.Prelude.{◌+◌, ◌≤◌, length};

pub mod giving;
pub mod standing;

#[derive(Clone, Copy)]
pub struct Reader<'a> {
    sheet: &'a [u8],
    place: usize,
    line: usize,
    ghost within: { place ≤ length sheet.now },
    ghost counted: { line ≤ place + 1 },
}
