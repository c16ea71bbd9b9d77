ghost use Rattle.std.specs.Prelude.{IfOk, IfSome};
ghost use Rattle.listing.specs.Input.{ReadsAhead};

use days::input::bytes_behind;
use std::alloc::Global;
use std::io;
use std::io::Read;

// Reads the bytes of a day: those of the first word, and no more behind it than are worth reading.
pub fn read_input<R: Read + Drop>(input: R, alloc: Global) -> io::Result<Vec<u8>>
    ensures { IfOk result (λ bytes. IfSome (R.remaining input) (λ all. ReadsAhead all bytes.items)) }
{
    let mut bytes = Vec::new(alloc);
    let mut part = input.take(4);
    part.read_to_end(&mut bytes)?;
    part.set_limit(bytes_behind(&bytes) as u64);
    part.read_to_end(&mut bytes)?;
    Ok(bytes)
}

#[cfg(test)]
mod tests {
    use super::read_input;
    use std::test::Fail;

    fn reads(rt: &HostRuntime, input: &[u8], length: usize) -> Result<bool, Fail> {
        let bytes = read_input(input, rt.alloc())?;
        Ok(input.get(..length) == Some(bytes.as_slice()))
    }

    // The first word says that one book word follows.
    #[test]
    fn a_day_is_read_whole(rt: HostRuntime) -> Result<(), Fail> {
        let read = reads(&rt, &[0, 0, 0, 1, 0x10, 0, 0, 5], 8)?;
        assert!(rt; read);
        Ok(())
    }

    // The first word says that 16,777,216 book words follow, which is more than a day may have.
    #[test]
    fn of_a_day_that_is_too_long_the_first_word_is_read(rt: HostRuntime) -> Result<(), Fail> {
        let read = reads(&rt, &[1, 0, 0, 0, 0x10, 0, 0, 5], 4)?;
        assert!(rt; read);
        Ok(())
    }

    #[test]
    fn an_input_without_a_first_word_is_read(rt: HostRuntime) -> Result<(), Fail> {
        let read = reads(&rt, &[0, 0, 0], 3)?;
        assert!(rt; read);
        Ok(())
    }
}
