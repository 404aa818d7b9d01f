// For programs: fixed memory, their input to its end, how they are used, what they write. `fit` and `bus` print by functions of their own.
#![tactic(auto)]

ghost use Rattle.std.specs.Prelude.{◌≡◌, ◌≤◌, ◌⊎◌, true, false, length, replicate, take};
ghost use Rattle.std.specs.Io.KnownBytes.{Consumes};

use std::env::{Env, FillError};
use std::io::Read;

// Fixed memory of a program.
pub fn space<T: Copy, const N: usize>(zero: T) -> [T; N]
    ensures length { N ≡ length result }
    ensures value { result ≡ replicate N zero }
{
    [zero; N]
}

// Reads to the end of the input or of the space, and answers how many bytes came, which stand at its front. A read that fails ends the
// input. What lies behind them is nobody's: a reader may write there, and none says what.
pub fn read_full<R: Read>(reader: &mut R, space: &mut [u8]) -> usize
    ensures size { length space.new ≡ length space.old }
    ensures count { result ≤ length space.old }
    ensures bytes { Consumes (R.remaining reader.old) (R.remaining reader.new) (take result space.new) }
{
    let mut n: usize = 0;
    // Not by a count: how far a read gets is its own affair.
    while n < space.len() {
        match reader.read(&mut space[n..]) {
            Ok(0) | Err(_) => break,
            Ok(more) => n += more,
        }
    }
    n
}

// Says how a program is used that takes no argument, where it was given one, and answers whether it was. No contract knows a runtime's
// arguments or what is printed, so the answer is free: the clause holds of both.
pub fn usage(rt: &(impl Env + Eprint), how: &str) -> bool
    ensures told { (result ≡ true) ⊎ (result ≡ false) }
{
    let given = !matches!(rt.arg(1, &mut [0; 1]), Err(FillError::NotPresent));
    if given {
        let _ = eprintln!(rt; "usage: {how}");
    }
    given
}

// Writes the bytes, or says on standard error what failed. It answers nothing, and its clause says no more.
pub fn put(rt: &(impl Print + Eprint), bytes: &[u8], failure: &str)
    ensures done { result ≡ tt }
{
    if rt.write_all(bytes).is_err() {
        let _ = eprintln!(rt; "{failure}");
    }
}

#[cfg(test)]
mod tests {
    use super::*;
    use std::cell::Cell;
    use std::fmt::Display;
    use std::io;
    use std::io::Write;

    // A runtime that has an argument, or says what refuses it, and whose output is open or closed. It keeps the first bytes of what was
    // written last, and of the line said last on standard error, with zeros behind; and how often it was told something.
    #[derive(Drop)]
    struct Recorder {
        argument: Result<(), FillError>,
        closed: bool,
        written: Cell<[u8; 16]>,
        said: Cell<[u8; 16]>,
        times: Cell<usize>,
    }

    impl Recorder {
        fn told_once_more(&self) {
            self.times.set(self.times.get().saturating_add(1));
        }
    }

    // The first 16 bytes of a text.
    fn kept(text: &[u8]) -> [u8; 16] {
        let mut first = [0; 16];
        let mut space: &mut [u8] = &mut first;
        let _ = space.write_all(text);
        first
    }

    impl Env for Recorder {
        fn arg(&self, i: usize, _buf: &mut [u8]) -> Result<usize, FillError> {
            match i {
                0 => Ok(0),
                1 => self.argument.map(|_| 0),
                _ => Err(FillError::NotPresent),
            }
        }

        fn var(&self, _name: &str, _buf: &mut [u8]) -> Result<usize, FillError> {
            Err(FillError::NotPresent)
        }

        fn var_at(&self, _i: usize, _buf: &mut [u8]) -> Result<usize, FillError> {
            Err(FillError::NotPresent)
        }
    }

    impl Print for Recorder {
        fn print<D: Display + Drop>(&self, _value: D) -> io::Result<()> {
            Err(io::Error::from(io::ErrorKind::Unsupported))
        }

        fn println<D: Display + Drop>(&self, _value: D) -> io::Result<()> {
            Err(io::Error::from(io::ErrorKind::Unsupported))
        }

        fn write_all(&self, bytes: &[u8]) -> io::Result<()> {
            if self.closed {
                return Err(io::Error::from(io::ErrorKind::BrokenPipe));
            }
            self.told_once_more();
            self.written.set(kept(bytes));
            Ok(())
        }
    }

    impl Eprint for Recorder {
        fn eprint<D: Display + Drop>(&self, _value: D) -> io::Result<()> {
            Err(io::Error::from(io::ErrorKind::Unsupported))
        }

        fn eprintln<D: Display + Drop>(&self, value: D) -> io::Result<()> {
            let mut first = [0; 16];
            let mut space: &mut [u8] = &mut first;
            let _ = write!(space, "{value}");
            self.told_once_more();
            self.said.set(first);
            Ok(())
        }
    }

    fn runtime(argument: Result<(), FillError>, closed: bool) -> Recorder {
        Recorder {
            argument,
            closed,
            written: Cell::new([0; 16]),
            said: Cell::new([0; 16]),
            times: Cell::new(0),
        }
    }

    #[test]
    fn usage_is_told_where_an_argument_was_given(rt: HostRuntime) {
        let none = runtime(Err(FillError::NotPresent), false);
        assert!(rt; !usage(&none, "bus < IN"));
        assert_eq!(rt; none.times.get(), 0);
        // an empty one, and one that is longer than the buffer
        for argument in [Ok(()), Err(FillError::TooLong)] {
            let r = runtime(argument, false);
            assert!(rt; usage(&r, "bus < IN"));
            assert_eq!(rt; r.said.get(), kept(b"usage: bus < IN"));
            assert_eq!(rt; r.times.get(), 1);
        }
    }

    #[test]
    fn bytes_are_put_or_the_failure_is_said(rt: HostRuntime) {
        for closed in [false, true] {
            let r = runtime(Err(FillError::NotPresent), closed);
            let (line, failure): (&[u8], &[u8]) = if closed {
                (b"", b"bus: closed")
            } else {
                (b"solved 7\n", b"")
            };
            put(&r, b"solved 7\n", "bus: closed");
            assert_eq!(rt; r.written.get(), kept(line));
            assert_eq!(rt; r.said.get(), kept(failure));
            assert_eq!(rt; r.times.get(), 1);
        }
    }
}
