//! The text of a case, made of its lines and of the bases that they name.

use cts_num::read_decimal;
use std::alloc::Global;
use std::io::{self, ErrorKind};

/// A base that goes into a text: its lines, and how many of them are done with, put in or left out.
#[derive(Drop)]
struct Base<'a> {
    lines: &'a [u8],
    done: usize,
}

impl<'a> Base<'a> {
    /// The base of a name, which is taken with the blank before it and the line end after it.
    fn named(bases: &'a [u8], name: &[u8]) -> io::Result<Base<'a>> {
        let lines = bases
            .split(|byte| *byte == b'=')
            .find_map(|base| base.strip_prefix(name))
            .ok_or(ErrorKind::NotFound)?;
        Ok(Base { lines, done: 0 })
    }

    /// Puts in the lines up to the end of line `last`, but for those that are done with.
    fn put_through(&mut self, last: usize, text: &mut Vec<u8>) -> io::Result<()> {
        let count = last.saturating_sub(self.done);
        let lines = self.lines.split_inclusive(|byte| *byte == b'\n');
        for line in lines.skip(self.done).take(count) {
            text.extend_from_slice(line)?;
        }
        self.done = self.done.max(last);
        Ok(())
    }

    /// Puts in the lines that are left.
    fn finish(&mut self, text: &mut Vec<u8>) -> io::Result<()> {
        self.put_through(usize::MAX, text)
    }

    /// Puts in the lines before a line, and leaves that one out.
    fn leave_out(&mut self, line: usize, text: &mut Vec<u8>) -> io::Result<()> {
        self.put_through(line.saturating_sub(1), text)?;
        self.done = self.done.max(line);
        Ok(())
    }

    /// Makes a change: the number of a line, and what becomes of it.
    fn apply(&mut self, change: &[u8], text: &mut Vec<u8>) -> io::Result<()> {
        let end = change
            .iter()
            .position(|byte| !byte.is_ascii_digit())
            .unwrap_or(change.len());
        let (number, change) = change.split_at(end);
        let number = read_decimal(number, 0).map_err(|_| ErrorKind::InvalidData)? as usize;
        if let Some(added) = change.strip_prefix(b"+ ".as_slice()) {
            self.put_through(number, text)?;
            text.extend_from_slice(added)?;
        } else {
            self.leave_out(number, text)?;
            if let Some(instead) = change.strip_prefix(b" ".as_slice()) {
                text.extend_from_slice(instead)?;
            }
        }
        Ok(())
    }
}

/// The text of a case's lines. Those that begin with `~` name a base of the section of bases, or change the one named
/// last; the others stand as they are.
pub(crate) fn expand(alloc: Global, bases: &[u8], lines: &[u8]) -> io::Result<Vec<u8>> {
    let mut text = Vec::new(alloc);
    let mut base = Base {
        lines: &[],
        done: 0,
    };
    for line in lines.split_inclusive(|byte| *byte == b'\n') {
        match line.strip_prefix(b"~".as_slice()) {
            Some(name) if name.starts_with(b" ") => {
                base.finish(&mut text)?;
                base = Base::named(bases, name)?;
            }
            Some(change) => base.apply(change, &mut text)?,
            None => {
                base.finish(&mut text)?;
                text.extend_from_slice(line)?;
            }
        }
    }
    base.finish(&mut text)?;
    Ok(text)
}
