//! Reading the bytes of a sheet from where a program is given them.

ghost use Rattle.std.specs.Prelude.{◌≡◌, take, IfOk, IfSome, vec_items};

use sheets::read::MOST_BYTES;
use std::alloc::Global;
use std::io::{self, Read};

/// The bytes of a sheet, and one byte more than a sheet may have, so that a longer one is seen to be too long.
pub fn read_sheet<R: Read + Drop>(input: R, heap: Global) -> io::Result<Vec<u8>>
    ensures { IfOk result (λ sheet. IfSome (R.remaining input) (λ bytes. vec_items sheet ≡ take 32769 bytes)) }
{
    read_front(input, MOST_BYTES as u64 + 1, heap)
}

// So many bytes at most.
fn read_front<R: Read + Drop>(input: R, most: u64, heap: Global) -> io::Result<Vec<u8>>
    ensures { IfOk result (λ read. IfSome (R.remaining input) (λ bytes. vec_items read ≡ take most bytes)) }
{
    let mut read = Vec::new(heap);
    let mut front = input.take(most);
    front.read_to_end(&mut read)?;
    Ok(read)
}

#[cfg(test)]
mod tests {
    use super::*;
    use std::test::Fail;

    #[test]
    fn one_byte_more_than_a_sheet_may_have(rt: HostRuntime) -> Result<(), Fail> {
        let long = vec![in rt.alloc(); b'x'; 40000]?;
        let sheet = read_sheet(long.as_slice(), rt.alloc())?;
        assert_eq!(rt; sheet.len(), 32769);
        let short = vec![in rt.alloc(); b'x'; 5]?;
        let sheet = read_sheet(short.as_slice(), rt.alloc())?;
        assert_eq!(rt; sheet.len(), 5);
        Ok(())
    }
}
