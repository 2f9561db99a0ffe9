// The words of a printed line: numbers in hexadecimal, a space between two words.
use area::Span;
use session::Answer;
use std::fmt;

/// Octets as one word, two digits each; "-" for none.
#[derive(Clone, Copy)]
pub(crate) struct Octets<'a>(pub &'a [u8]);

impl fmt::Display for Octets<'_> {
    fn fmt<W: fmt::Write>(&self, f: &mut fmt::Formatter<W>) -> fmt::Result {
        if self.0.is_empty() {
            return f.write_str("-");
        }
        for octet in self.0 {
            write!(f, "{octet:02x}")?;
        }
        Ok(())
    }
}

/// What an event answers.
#[derive(Clone, Copy)]
pub(crate) struct Told(pub Answer);

impl fmt::Display for Told {
    fn fmt<W: fmt::Write>(&self, f: &mut fmt::Formatter<W>) -> fmt::Result {
        let a = self.0;
        write!(
            f,
            "{:x} {:x} {:x} {:x} {:x}",
            a.refusal, a.outcome, a.lost, a.gained, a.written
        )
    }
}

/// A part of an area: where it starts, and its length.
#[derive(Clone, Copy)]
pub(crate) struct Part(pub Span);

impl fmt::Display for Part {
    fn fmt<W: fmt::Write>(&self, f: &mut fmt::Formatter<W>) -> fmt::Result {
        write!(f, "{:x} {:x}", self.0.start, self.0.len)
    }
}
