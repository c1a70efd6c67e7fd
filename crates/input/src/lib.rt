// What a reader gives, up to its end. It tells a read that failed from the end, and a read that a signal interrupts counts
// as one that failed.
#![tactic(auto)]

ghost use Rattle.std.specs.Prelude.{◌≡◌, ◌+◌, ◌<◌, ◌≤◌, length, take, drop, IfOk, OnErr, IsNone};
ghost use Rattle.std.specs.Counts.{IsPrefixLen};
ghost use Rattle.std.specs.Io.KnownBytes.{Consumes, IsAtEnd, Keeps};

use std::io;
use std::io::Read;

// How many bytes stand at the start of the buffer, and the error of the read after them, if that failed.
#[derive(Drop)]
pub struct Input {
    pub count: usize,
    pub failed: Option<io::Error>,
}

// One read, into the part of buf that begins at `done`.
fn read_more<R: Read>(reader: &mut R, buf: &mut [u8], done: usize) -> io::Result<usize>
    requires { done ≤ length buf.old }
    ensures within { IfOk result (λ n. done + n ≤ length buf.new) }
    ensures front { take done buf.new ≡ take done buf.old }
    ensures ok { IfOk result (λ n. Consumes (R.remaining reader.old) (R.remaining reader.new) (take n (drop done buf.new))) }
    ensures end { IfOk result (λ n. n ≡ 0 → done < length buf.new → IsAtEnd (R.remaining reader.new)) }
    ensures err { OnErr result (Keeps (R.remaining reader.old) (R.remaining reader.new)) }
{
    let rest = &mut buf[done..];
    reader.read(rest)
}

// Reads to the end, until buf is full, or until a read fails.
pub fn read<R: Read>(reader: &mut R, buf: &mut [u8]) -> Input
    ensures within { IsPrefixLen result.count buf.new }
    ensures bytes { Consumes (R.remaining reader.old) (R.remaining reader.new) (take result.count buf.new) }
    ensures end { IsNone result.failed → result.count < length buf.new → IsAtEnd (R.remaining reader.new) }
{
    let mut done = 0;
    // How far a read goes is the reader's to say, so no range counts the turns.
    while done < buf.len() {
        match read_more(reader, buf, done) {
            Ok(0) => {
                return Input {
                    count: done,
                    failed: None,
                };
            }
            Ok(n) => done += n,
            Err(error) => {
                return Input {
                    count: done,
                    failed: Some(error),
                };
            }
        }
    }
    Input {
        count: done,
        failed: None,
    }
}

#[cfg(test)]
mod tests {
    use super::*;
    use std::test::Fail;

    // Gives one byte a read, `left` of them, and fails from then on.
    #[derive(Drop)]
    struct Broken {
        left: u8,
    }

    impl Read for Broken {
        fn read(&mut self, buf: &mut [u8]) -> io::Result<usize> {
            if self.left == 0 {
                return Err(io::Error::other("broken"));
            }
            match buf.first_mut() {
                None => Ok(0),
                Some(first) => {
                    *first = self.left;
                    self.left -= 1;
                    Ok(1)
                }
            }
        }
    }

    #[test]
    fn reads_to_the_end(rt: HostRuntime) -> Result<(), Fail> {
        let mut buf = [0u8; 4];
        let got = read(&mut b"abc".as_slice(), &mut buf);
        assert_eq!(rt; got.count, 3);
        assert!(rt; got.failed.is_none());
        assert_eq!(rt; buf, *b"abc\0");
        Ok(())
    }

    #[test]
    fn stops_where_the_buffer_is_full(rt: HostRuntime) -> Result<(), Fail> {
        let mut buf = [0u8; 2];
        let got = read(&mut b"abc".as_slice(), &mut buf);
        assert_eq!(rt; got.count, 2);
        assert!(rt; got.failed.is_none());
        assert_eq!(rt; buf, *b"ab");
        Ok(())
    }

    #[test]
    fn tells_a_failed_read(rt: HostRuntime) -> Result<(), Fail> {
        let mut buf = [0u8; 4];
        let got = read(&mut Broken { left: 2 }, &mut buf);
        assert_eq!(rt; got.count, 2);
        let failed = got.failed.ok_or("the end")?;
        assert_eq!(rt; failed.kind(), io::ErrorKind::Other);
        assert_eq!(rt; buf, [2, 1, 0, 0]);
        Ok(())
    }
}
