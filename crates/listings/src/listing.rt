//! The listing of a run.

ghost use Rattle.std.specs.Prelude.{◌≡◌};
ghost use Rattle.yard.specs.Told.{told};
ghost use Rattle.listings.specs.Laying.{listed_as};
ghost use Rattle.listings.specs.Listings.{list_into};
ghost use Rattle.listings.specs.Lists.{run_in};

use crate::laying::lay;
use crate::pen::Pen;
use crate::run_record::RunRecord;
use crate::run_record::checking::is_this_run;
use crate::run_record::writing::write;
use yard::board::Board;
use yard::kind::Kind;
use yard::refusal::Refusal;

/// The full length of a listing's list.
pub const FULL_LENGTH: usize = 24576;

/// Writes the listing of a run to the front of a list, and returns how many bytes it has. The board is the closing board. A refusal leaves the list as it was.
pub fn list<K: Kind, B: Board<Value = K::Value>>(
    run: RunRecord<K::Value>,
    board: &B,
    listing: &mut [u8],
) -> Result<usize, Refusal>
    ensures { listed_as (told result) listing.new ≡ list_into K.Kind.rows K.Kind.equals (run_in run.entry (B.Board.values board.now)) listing.old }
{
    if listing.len() < FULL_LENGTH {
        return Err(Refusal::ResultTooShort);
    }
    if !is_this_run::<K, B>(run, board) {
        return Err(Refusal::NotThisRun);
    }
    lay(listing, |pen: &mut Pen| write::<K, B>(run, board, pen))
}
