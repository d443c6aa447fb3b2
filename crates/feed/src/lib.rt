// Feed: the lines of a reader, of any length, each kept in a buffer that is not (crate keeping).
// A line ends at LF; a last line without LF is a line; nothing comes after a final LF.

#![tactic(auto)]

ghost use Rattle.std.specs.Prelude.{◌≤◌, length, IfOk, IfSome};

use std::io;
use std::io::Read;

// A reader. Of what was read, `given[at..end]` comes next. The reader is over once it gives no more bytes, and is not asked again.
#[derive(Drop)]
pub struct Feed<R> {
    from: R,
    given: [u8; 4096],
    at: usize,
    end: usize,
    over: bool,
    ghost ordered: { at ≤ end },
    ghost in_bounds: { end ≤ length given },
}

impl<R: Read> Feed<R> {
    ghost use Rattle.feed.specs.Feeding.{to_come, TakesByte, TakesLine, SameLine};
    ghost use Rattle.std.specs.Prelude.{◌≡◌, OnOk};
    ghost use Rattle.std.specs.Io.KnownBytes.{Keeps, IsAtEnd};

    pub fn new(from: R) -> Self
        ensures { to_come R.remaining result ≡ R.remaining from }
    {
        Feed {
            from,
            given: [0; 4096],
            at: 0,
            end: 0,
            over: false,
        }
    }

    // Reads once where all that was read is given, unless the reader is over.
    fn fill(&mut self) -> io::Result<()>
        ensures same { OnOk result (Keeps (to_come R.remaining self.old) (to_come R.remaining self.new)) }
        ensures end { OnOk result (self.new.end ≤ self.new.at → IsAtEnd (to_come R.remaining self.new)) }
    {
        if self.at < self.end || self.over {
            return Ok(());
        }
        self.at = 0;
        self.end = 0;
        let n = self.from.read(&mut self.given)?;
        self.end = n;
        self.over = n == 0;
        Ok(())
    }

    // The next byte; none at the end of the input.
    fn byte(&mut self) -> io::Result<Option<u8>>
        ensures { IfOk result (TakesByte (to_come R.remaining self.old) (to_come R.remaining self.new)) }
    {
        self.fill()?;
        if self.at == self.end {
            return Ok(None);
        }
        let b = self.given[self.at];
        self.at += 1;
        Ok(Some(b))
    }

    // Keeps what was read before an LF, behind the `had` bytes of the line; what is still to come ends the same line. The place is a number of its own
    // meanwhile: in the struct it would be written to memory for each byte.
    fn keep_read(&mut self, line: &mut [u8], had: usize) -> usize
        requires room { 2 ≤ length line.old }
        requires held { had ≤ length line.old }
        ensures size { length line.new ≡ length line.old }
        ensures fits { result ≤ length line.new }
        ensures same { SameLine (to_come R.remaining self.old) (to_come R.remaining self.new) line.old had line.new result }
    {
        let mut n = had;
        let mut at = self.at;
        for next in self.at..self.end {
            let byte = self.given[next];
            if byte == b'\n' {
                break;
            }
            n = keeping::keep(line, n, byte);
            at = next + 1;
        }
        self.at = at;
        n
    }

    // The next line: it is the first so many bytes of the buffer, and no slice, since the buffer is the caller's again. None at the end of the input.
    pub fn next(&mut self, line: &mut [u8]) -> io::Result<Option<usize>>
        requires { 2 ≤ length line.old }
        ensures size { length line.new ≡ length line.old }
        ensures fits { IfOk result (λ r. IfSome r (λ n. n ≤ length line.new)) }
        ensures line { IfOk result (TakesLine (to_come R.remaining self.old) (to_come R.remaining self.new) line.old line.new) }
    {
        let mut n = 0;
        // Nothing says that a line ends, and a proved loop does: no run takes so many turns.
        for _ in 0..u64::MAX {
            n = self.keep_read(line, n);
            match self.byte()? {
                Some(b'\n') => return Ok(Some(n)),
                Some(b) => n = keeping::keep(line, n, b),
                None => return Ok(if n > 0 { Some(n) } else { None }),
            }
        }
        Ok(None)
    }
}
