//! Laying a text over the front of a list.

ghost use Rattle.std.specs.Prelude.{◌≡◌, ℕ, List};
ghost use Rattle.yard.specs.Told.{told};
ghost use Rattle.listings.specs.Laying.{listed_as, laid_into};
ghost use Rattle.listings.specs.Pens.{Writes};

use crate::pen::Pen;
use yard::refusal::Refusal;

/// Writes a text if the list has room for it, and returns how many bytes it has. `write` writes the text with a pen: first it is only counted, since a refusal leaves the list as it was.
pub(crate) fn lay<W: Fn(&mut Pen)>(listing: &mut [u8], write: W) -> Result<usize, Refusal>
    requires { W.IsAlwaysCallable write }
    ensures { (text : List ℕ) → Writes (W.post write) text → listed_as (told result) listing.new ≡ laid_into text listing.old }
{
    let mut counting = Pen::over(&mut []);
    write(&mut counting);
    if counting.count() > listing.len() {
        return Err(Refusal::ResultTooShort);
    }
    let mut pen = Pen::over(listing);
    write(&mut pen);
    Ok(pen.count())
}
