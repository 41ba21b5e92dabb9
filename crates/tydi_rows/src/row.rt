//! The rows of a table. A line of it begins with a mark and a space: `#` says what a row shows, `$` has the words, `<` a line of
//! the file, `~` a part of it that has no LF, `+ 9 text` nine such parts, `* 3 255` three bytes of this number, `^` a comment of all bytes but
//! LF, `>` a line of out, `|` a part that has no LF, `!` a line of err, and `?` a part that has no LF. A line `@ name` ends a file of this
//! name; the file that no such line ends is named `t`. `%` has words that are run second: what the first words write is then the file `t`.
//! `-` has what fails: `store 2` the call of the store of this number, `out 2` the push to out, `err 2` that to err; `most 4` is the most
//! bytes that a call gives or takes. `=` has the status, and ends the row; `again` is Done, where the text of out is then the file of the
//! same words, which give it again. `= 0 failing 4 12` is Done, and then each call of the store fails in turn, and each of the first 12
//! pushes to out, which takes 4 bytes at most.

use crate::running::{Faults, Outcome, run_over};
use std::alloc::Global;
use std::mem;
use std::process::Abort;
use tydi_base::{List, Memory, Text, emit, read_decimal};

pub(crate) const NO_FAULTS: Faults<'static> = Faults {
    store: &[],
    out: &[],
    err: &[],
    most: u16::MAX,
};

/// The input of a run as a row gives it, and the output that it expects.
#[derive(Drop)]
struct Row {
    words: List<Text>,
    then: List<Text>,
    files: List<(Text, List<u8>)>,
    file: List<u8>,
    out: List<u8>,
    err: List<u8>,
    failing_reads: List<u64>,
    failing_writes: List<u64>,
    failing_lines: List<u64>,
    most: u16,
}

impl Row {
    /// A row that was given nothing, where each call takes or gives one byte more than this at most.
    fn new(alloc: Global, most: u16) -> Row {
        Row {
            words: List::new(alloc),
            then: List::new(alloc),
            files: List::new(alloc),
            file: List::new(alloc),
            out: List::new(alloc),
            err: List::new(alloc),
            failing_reads: List::new(alloc),
            failing_writes: List::new(alloc),
            failing_lines: List::new(alloc),
            most,
        }
    }

    /// Takes a line of a table, but the one that ends a row.
    fn take(&mut self, alloc: Global, mark: &str, text: &str) -> Result<(), Memory> {
        match mark.as_bytes().first() {
            Some(b'$') => put_words(alloc, text, &mut self.words),
            Some(b'%') => put_words(alloc, text, &mut self.then),
            Some(b'@') => self.end_file(alloc, text),
            Some(b'-') => self.take_fault(text),
            Some(b'>') => push_line(text, &mut self.out),
            Some(b'|') => self.out.extend_from_slice(text.as_bytes()),
            Some(b'!') => push_line(text, &mut self.err),
            Some(b'?') => self.err.extend_from_slice(text.as_bytes()),
            _ => push_file(mark, text, &mut self.file),
        }
    }

    /// Ends a file of this name.
    fn end_file(&mut self, alloc: Global, name: &str) -> Result<(), Memory> {
        let file = mem::replace(&mut self.file, List::new(alloc));
        self.files.push((Text::new(alloc, name)?, file))
    }

    /// Takes what fails.
    fn take_fault(&mut self, text: &str) -> Result<(), Memory> {
        let (name, digits) = cut(text);
        let number = number(digits);
        match name.as_bytes().first() {
            Some(b's') => self.failing_reads.push(number),
            Some(b'o') => self.failing_writes.push(number),
            Some(b'e') => self.failing_lines.push(number),
            _ => {
                self.most = (number.saturating_sub(1) % 65536) as u16;
                Ok(())
            }
        }
    }

    /// The calls that fail.
    fn faults(&self) -> Faults<'_> {
        Faults {
            store: self.failing_reads.as_slice(),
            out: self.failing_writes.as_slice(),
            err: self.failing_lines.as_slice(),
            most: self.most,
        }
    }

    /// Runs the row's words on its files, where these calls fail.
    fn outcome(&self, alloc: Global, faults: &Faults<'_>) -> Result<Outcome, Memory> {
        let files = copied(alloc, self.files.as_slice())?;
        run_over(alloc, self.words.as_slice(), files, faults)
    }

    /// Runs the row's words. Their output becomes the file that is not ended yet, and the second words become those of the row.
    fn go_on(&mut self, alloc: Global) -> Result<(), Memory> {
        let Outcome { out, .. } = self.outcome(alloc, &NO_FAULTS)?;
        self.file = out;
        self.words = mem::replace(&mut self.then, List::new(alloc));
        Ok(())
    }

    /// Puts the text of out in the place of all files, under the name `t`.
    fn turn_round(&mut self, alloc: Global) -> Result<(), Memory> {
        self.files = List::new(alloc);
        self.file = List::from_slice(alloc, self.out.as_slice())?;
        self.end_file(alloc, "t")
    }

    /// Runs the row, and compares what came of it with what the row has.
    fn check(
        &mut self,
        rt: &(impl Abort + AllocGlobal),
        number: usize,
        end: &str,
    ) -> Result<(), Memory> {
        let (word, rest) = cut(end);
        let (_failing, calls) = cut(rest);
        let status = status_of(word);
        if !self.then.is_empty() {
            self.go_on(rt.alloc())?;
        }
        self.end_file(rt.alloc(), "t")?;
        self.check_run(rt, number, status)?;
        if word == "again" {
            self.turn_round(rt.alloc())?;
            self.check_run(rt, number, status)?;
        }
        if calls.is_empty() {
            return Ok(());
        }
        self.check_reads(rt)?;
        self.check_writes(rt, calls)
    }

    /// Runs the row's words, and compares what came of it. The first row of a table is seen to fail where its text or its status is another.
    fn check_run(
        &mut self,
        rt: &(impl Abort + AllocGlobal),
        number: usize,
        status: u8,
    ) -> Result<(), Memory> {
        let outcome = self.outcome(rt.alloc(), &self.faults())?;
        let is_right = is_wanted(&outcome, status, self.out.as_slice(), self.err.as_slice());
        let is_seen = number > 0 || self.is_spoilt_seen(&outcome, status);
        assert!(rt; is_right & is_seen, "row {number}");
        Ok(())
    }

    /// Whether another status and another text of out are seen to be others.
    fn is_spoilt_seen(&mut self, outcome: &Outcome, status: u8) -> bool {
        let is_pushed = self.out.push(b'!').is_ok();
        let is_other = !is_wanted(outcome, status, self.out.as_slice(), self.err.as_slice());
        self.out.pop();
        is_pushed
            & is_other
            & !is_wanted(
                outcome,
                status ^ 1,
                self.out.as_slice(),
                self.err.as_slice(),
            )
    }

    /// Runs the row's words where these calls fail, and compares what came of it.
    fn check_faults(
        &self,
        rt: &(impl Abort + AllocGlobal),
        faults: &Faults<'_>,
        status: u8,
        out: &[u8],
        err: &[u8],
    ) -> Result<(), Memory> {
        let outcome = self.outcome(rt.alloc(), faults)?;
        assert!(rt; is_wanted(&outcome, status, out, err), "a call that fails");
        Ok(())
    }

    /// Has each call of the store fail in turn, and last one that is not made. A file that is empty is none that the words name.
    fn check_reads(&self, rt: &(impl Abort + AllocGlobal)) -> Result<(), Memory> {
        let mut call = 0u64;
        for (name, file) in self.files.as_slice() {
            let calls = calls_for(file.len(), self.most);
            self.check_file(rt, name, call, calls)?;
            call = call.saturating_add(calls);
        }
        let faults = Faults {
            store: &[call],
            ..self.faults()
        };
        self.check_faults(rt, &faults, 0, self.out.as_slice(), b"")
    }

    /// Has each call of the store for a file fail in turn, from this one on: the run ends in ReadFault with nothing written.
    fn check_file(
        &self,
        rt: &(impl Abort + AllocGlobal),
        name: &Text,
        first: u64,
        calls: u64,
    ) -> Result<(), Memory> {
        let mut line = List::new(rt.alloc());
        emit!(line; "tydi: ReadFault ", name.as_str(), "\n")?;
        for call in 0..calls {
            let faults = Faults {
                store: &[first.saturating_add(call)],
                ..self.faults()
            };
            self.check_faults(rt, &faults, 3, b"", line.as_slice())?;
        }
        Ok(())
    }

    /// Has each of the first pushes to out fail in turn: the run ends in WriteFault with the pieces before in out.
    fn check_writes(&self, rt: &(impl Abort + AllocGlobal), calls: &str) -> Result<(), Memory> {
        let (piece, pushes) = cut(calls);
        let piece = number(piece) % 65536;
        for push in 0..number(pushes) {
            let faults = Faults {
                out: &[push],
                most: (piece.saturating_sub(1) % 65536) as u16,
                ..NO_FAULTS
            };
            match front_of(self.out.as_slice(), piece.saturating_mul(push)) {
                Some(front) => self.check_faults(rt, &faults, 4, front, b"tydi: WriteFault\n")?,
                None => self.check_faults(rt, &faults, 0, self.out.as_slice(), b"")?,
            }
        }
        Ok(())
    }

    /// Takes a line of a table, and where it ends the row of this number, runs the row and begins the next. Answers how many rows were run.
    fn take_line(
        &mut self,
        rt: &(impl Abort + AllocGlobal),
        number: usize,
        most: u16,
        line: &str,
    ) -> Result<usize, Memory> {
        let (mark, text) = cut(line);
        if mark == "=" {
            self.check(rt, number, text)?;
            *self = Row::new(rt.alloc(), most);
            Ok(1)
        } else {
            self.take(rt.alloc(), mark, text)?;
            Ok(0)
        }
    }
}

/// Whether this came of a run.
pub(crate) fn is_wanted(outcome: &Outcome, status: u8, out: &[u8], err: &[u8]) -> bool {
    (outcome.out.as_slice() == out) & (outcome.err.as_slice() == err) & (outcome.status == status)
}

/// Runs each row of a table, where a call takes or gives one byte more than this at most, and compares what came of it. Answers how
/// many rows there were.
fn check_rows(rt: &(impl Abort + AllocGlobal), table: &str, most: u16) -> Result<usize, Memory> {
    let mut row = Row::new(rt.alloc(), most);
    let mut count = 0usize;
    for line in table.lines() {
        count = count.saturating_add(row.take_line(rt, count, most, line)?);
    }
    Ok(count)
}

/// Runs a table of so many rows, once for each of these numbers, where a call takes or gives one byte more than that at most.
pub(crate) fn check_table(
    rt: &(impl Abort + AllocGlobal),
    table: &str,
    count: usize,
    mosts: &[u16],
) {
    for most in mosts {
        let rows = check_rows(rt, table, *most);
        assert!(rt; rows == Ok(count), "{rows:?}");
    }
}

// The status of a word; that of `again` is Done.
fn status_of(word: &str) -> u8 {
    if word == "again" {
        0
    } else {
        (number(word) % 256) as u8
    }
}

// How many calls of the store a file of so many bytes takes, each of which gives one byte more than this at most: the one that starts it,
// and those that pull, the last of which gives nothing. A file that is empty counts as none.
fn calls_for(bytes: usize, most: u16) -> u64 {
    let most = u64::from(most).saturating_add(1);
    if bytes == 0 {
        0
    } else {
        (bytes as u64).div_ceil(most).saturating_add(2)
    }
}

// The front of so many bytes, where it is not the whole.
fn front_of(bytes: &[u8], count: u64) -> Option<&[u8]> {
    if count < bytes.len() as u64 {
        bytes.get(..count as usize)
    } else {
        None
    }
}

// Files of the same names and texts.
fn copied(alloc: Global, files: &[(Text, List<u8>)]) -> Result<List<(Text, List<u8>)>, Memory> {
    let mut copies = List::new(alloc);
    for (name, file) in files {
        let name = Text::new(alloc, name.as_str())?;
        copies.push((name, List::from_slice(alloc, file.as_slice())?))?;
    }
    Ok(copies)
}

// Pushes what a line of a file says; a line with another mark says nothing.
fn push_file(mark: &str, text: &str, file: &mut List<u8>) -> Result<(), Memory> {
    match mark.as_bytes().first() {
        Some(b'<') => push_line(text, file),
        Some(b'~') => file.extend_from_slice(text.as_bytes()),
        Some(b'+') => push_repeated(text, file),
        Some(b'*') => push_bytes(text, file),
        Some(b'^') => push_comment(file),
        _ => Ok(()),
    }
}

// Puts the words of a line in the place of others.
fn put_words(alloc: Global, line: &str, words: &mut List<Text>) -> Result<(), Memory> {
    *words = words_of(alloc, line)?;
    Ok(())
}

// Pushes a comment of all bytes but LF, and LF.
fn push_comment(bytes: &mut List<u8>) -> Result<(), Memory> {
    bytes.extend_from_slice(b"//")?;
    for byte in 0..=255u8 {
        if byte != b'\n' {
            bytes.push(byte)?;
        }
    }
    bytes.push(b'\n')
}

fn push_line(text: &str, bytes: &mut List<u8>) -> Result<(), Memory> {
    bytes.extend_from_slice(text.as_bytes())?;
    bytes.extend_from_slice(b"\n")
}

// Pushes a text as often as the number before it says.
fn push_repeated(text: &str, bytes: &mut List<u8>) -> Result<(), Memory> {
    let (count, part) = cut(text);
    for _ in 0..number(count) {
        bytes.extend_from_slice(part.as_bytes())?;
    }
    Ok(())
}

// Pushes as many bytes as the first number says, each of which is the second.
fn push_bytes(text: &str, bytes: &mut List<u8>) -> Result<(), Memory> {
    let (count, byte) = cut(text);
    let byte = (number(byte) % 256) as u8;
    for _ in 0..number(count) {
        bytes.push(byte)?;
    }
    Ok(())
}

/// The first word of a line, and what comes after the space.
fn cut(line: &str) -> (&str, &str) {
    line.split_once(' ').unwrap_or((line, ""))
}

/// The number that digits spell, or the greatest.
fn number(digits: &str) -> u64 {
    read_decimal(digits.as_bytes()).unwrap_or(u64::MAX)
}

/// The words of a line, with one space between each two. An empty line has none.
pub(crate) fn words_of(alloc: Global, line: &str) -> Result<List<Text>, Memory> {
    let mut words = List::new(alloc);
    if line.is_empty() {
        return Ok(words);
    }
    for word in line.split(' ') {
        words.push(Text::new(alloc, word)?)?;
    }
    Ok(words)
}
