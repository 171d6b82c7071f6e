//! The line that tells of a refused sheet.

ghost use Rattle.std.specs.Prelude.{◌≡◌};
ghost use Rattle.yard.specs.Told.{told};
ghost use Rattle.listings.specs.Laying.{listed_as, laid_into};
ghost use Rattle.listings.specs.Lines.{slip_bytes};
ghost use Rattle.listings.specs.Pens.{penned, wrote};

use crate::laying::lay;
use crate::pen::Pen;
use text::slip::Slip;
use yard::refusal::Refusal;

/// Writes the line of a slip to the front of a list, and returns how many bytes it has. A refusal leaves the list as it was.
pub fn list_slip(slip: Slip, listing: &mut [u8]) -> Result<usize, Refusal>
    ensures { listed_as (told result) listing.new ≡ laid_into (slip_bytes slip.number slip.line slip.word) listing.old }
{
    lay(listing, |pen: &mut Pen| write_slip(slip, pen))
}

fn write_slip(slip: Slip, pen: &mut Pen)
    ensures { penned pen.new ≡ wrote (slip_bytes slip.number slip.line slip.word) (penned pen.old) }
{
    pen.put(b'N');
    pen.last_words(&[usize::from(slip.number), slip.line, slip.word]);
}
