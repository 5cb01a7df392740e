// What a program gets as input: one block of bytes.
#![tactic(auto)]

ghost use Rattle.std.specs.Prelude.{◌<◌, IfOk, length, take};
ghost use Rattle.std.specs.Io.{ReadsAtMost};
ghost use Rattle.std.specs.Io.KnownBytes.{Consumes, IsAtEnd};

use std::io;
use std::io::Read;

// Reads until the buffer is full or the reader ends. Gives the number of bytes read, which stand at the buffer's start. Fails where a read
// does, and what was read before it is then lost.
pub fn read_full<R: Read>(reader: &mut R, buffer: &mut [u8]) -> io::Result<usize>
    ensures bound { ReadsAtMost result buffer.new }
    ensures bytes { IfOk result (λ n. Consumes (R.remaining reader.old) (R.remaining reader.new) (take n buffer.new)) }
    ensures all { IfOk result (λ n. n < length buffer.new → IsAtEnd (R.remaining reader.new)) }
{
    let mut done = 0;
    while done < buffer.len() {
        let n = reader.read(&mut buffer[done..])?;
        if n == 0 {
            break;
        }
        done += n;
    }
    Ok(done)
}

#[cfg(test)]
mod tests {
    use super::*;
    use std::io::ErrorKind;
    use std::test::Fail;

    // Gives a byte at a time, and after those that are left it fails.
    #[derive(Drop)]
    struct Broken {
        left: u8,
    }

    impl Read for Broken {
        fn read(&mut self, buffer: &mut [u8]) -> io::Result<usize> {
            if self.left == 0 {
                return Err(io::Error::from(ErrorKind::BrokenPipe));
            }
            let Some(first) = buffer.first_mut() else {
                return Ok(0);
            };
            *first = self.left;
            self.left -= 1;
            Ok(1)
        }
    }

    #[test]
    fn joins_short_reads(rt: HostRuntime) -> Result<(), Fail> {
        let mut buffer = [0u8; 8];
        let (first, second): (&[u8], &[u8]) = (b"ab", b"cde");
        assert_eq!(rt; read_full(&mut first.chain(second), &mut buffer)?, 5);
        assert_eq!(rt; &buffer[..], b"abcde\0\0\0".as_slice());
        Ok(())
    }

    #[test]
    fn leaves_what_has_no_room(rt: HostRuntime) -> Result<(), Fail> {
        let mut buffer = [0u8; 2];
        let mut reader: &[u8] = b"abc";
        assert_eq!(rt; read_full(&mut reader, &mut buffer)?, 2);
        assert_eq!(rt; reader, b"c".as_slice());
        Ok(())
    }

    #[test]
    fn fails_where_a_read_fails(rt: HostRuntime) {
        let mut buffer = [0u8; 3];
        let outcome = read_full(&mut Broken { left: 2 }, &mut buffer);
        assert_eq!(rt; outcome.map_err(|e| e.kind()), Err(ErrorKind::BrokenPipe));
    }
}
