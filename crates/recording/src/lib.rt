// What the programs that write a call to a WAV file share: their words, and the file. A regular one, or one that is not there yet, is
// written as FILE.part and then renamed, so that what was there before is whole until the new one is. A link, a pipe and a device are
// written where they are.
#![tactic(auto)]

use std::fs::{OpenFile, OpenOptions};
use std::io::{ErrorKind, Seek, SeekFrom};
use std::rt::Files;
use std::{fs, io};
use text::Page;

pub mod words;

const UNWRITABLE: &str = ": FILE has to be a path that can be written, and ";

// The file that a program is to write, and where it says what fails.
#[derive(Drop)]
pub struct Target<'a, R, E> {
    pub rt: &'a R,
    pub errors: &'a E,
    pub program: &'a [u8],
    pub path: &'a [u8],
}

// A file that is being written.
#[derive(Drop)]
pub enum Recording<F> {
    InPlace(F),
    // as FILE.part
    Beside(F),
}

impl<F> Recording<F> {
    pub fn file(&mut self) -> &mut F {
        match self {
            Recording::InPlace(file) => file,
            Recording::Beside(file) => file,
        }
    }
}

impl<R: Files, E: Print> Target<'_, R, E> {
    // Has the file written, and answers whether it stands in its place.
    pub fn write<W: FnOnce(&mut R::File) -> io::Result<()>>(&self, put: W) -> bool
        requires { W.IsAlwaysCallable put }
    {
        match self.begin() {
            Some(mut recording) => {
                let good = put(recording.file());
                self.finish(recording, good)
            }
            None => false,
        }
    }

    // Opens the file for writing; none where it cannot be opened, which has been said.
    pub fn begin(&self) -> Option<Recording<R::File>> {
        if is_link(self.rt, self.path) {
            return self.in_place(open_overwrite(self.rt, self.path));
        }
        match open_append(self.rt, self.path) {
            Ok(file) => self.opened(file),
            Err(why) => self.missing(why),
        }
    }

    fn in_place(&self, opened: io::Result<R::File>) -> Option<Recording<R::File>> {
        match opened {
            Ok(file) => Some(Recording::InPlace(file)),
            Err(why) => {
                self.cannot_write(why);
                None
            }
        }
    }

    fn opened(&self, mut file: R::File) -> Option<Recording<R::File>> {
        if is_regular(&mut file) {
            drop(file);
            return self.beside();
        }
        Some(Recording::InPlace(file))
    }

    // A path that cannot be opened: that of a file to be made, or none.
    fn missing(&self, why: io::Error) -> Option<Recording<R::File>> {
        if why.kind() == ErrorKind::NotFound && !self.path.is_empty() {
            return self.beside();
        }
        self.in_place(Err(why))
    }

    fn beside(&self) -> Option<Recording<R::File>> {
        match open_new(self.rt, self.part().text()) {
            Ok(file) => Some(Recording::Beside(file)),
            Err(why) => {
                self.cannot_write_first(why);
                None
            }
        }
    }

    // FILE.part.
    fn part(&self) -> Page<4104> {
        let mut name = Page::new();
        name.put(self.path);
        name.put(b".part");
        name
    }

    // Ends it, and answers whether it stands in its place: `good` says whether all was written, or why not.
    pub fn finish(&self, recording: Recording<R::File>, good: io::Result<()>) -> bool {
        match recording {
            Recording::InPlace(_file) => self.written(good),
            Recording::Beside(file) => self.put_in_place(synced(file, good)),
        }
    }

    fn written(&self, good: io::Result<()>) -> bool {
        match good {
            Ok(()) => true,
            Err(why) => {
                self.cannot_write(why);
                false
            }
        }
    }

    fn put_in_place(&self, whole: io::Result<()>) -> bool {
        let part = self.part();
        let placed = self.written(renamed(self.rt, self.path, part.text(), whole));
        if !placed {
            self.remove(part.text());
        }
        placed
    }

    fn remove(&self, part: &[u8]) {
        if let Err(why) = removed(self.rt, part) {
            self.fail(": ", part, " is left behind", why);
        }
    }

    fn cannot_write(&self, why: io::Error) {
        self.fail(UNWRITABLE, self.path, " is not", why);
    }

    fn cannot_write_first(&self, why: io::Error) {
        let part = self.part();
        self.fail(
            UNWRITABLE,
            part.text(),
            ", which is written first, is not",
            why,
        );
    }

    // Says what failed with a path, and the system's word for why.
    fn fail(&self, before: &str, path: &[u8], after: &str, why: io::Error) {
        let mut line = Page::<16640>::new();
        line.put(self.program);
        line.put(before.as_bytes());
        put_quoted(&mut line, path);
        line.put(after.as_bytes());
        console::stream::fail(self.errors, line.text(), why);
    }
}

// A byte that would end the quotes or the line is written as its number.
fn put_quoted(line: &mut Page<16640>, path: &[u8]) {
    line.put_byte(b'"');
    for byte in path {
        if byte.is_ascii_control() || matches!(*byte, b'"' | b'\\') {
            line.put(b"\\x");
            line.put_hex(*byte as u64, 2);
        } else {
            line.put_byte(*byte);
        }
    }
    line.put_byte(b'"');
}

// Whether the path names a symbolic link.
fn is_link(rt: &impl Files, path: &[u8]) -> bool {
    seen(rt, path).is_ok_and(|found| found.is_symlink())
}

fn seen(rt: &impl Files, path: &[u8]) -> io::Result<fs::Metadata> {
    fs::symlink_metadata(rt, named(path)?)
}

// The path as std takes it, which opens no other.
fn named(path: &[u8]) -> io::Result<&str> {
    std::str::from_utf8(path).map_err(|_| io::Error::new(
        ErrorKind::InvalidFilename,
        "it is not UTF-8",
    ))
}

fn open_overwrite<R: Files>(rt: &R, path: &[u8]) -> io::Result<R::File> {
    fs::create(rt, named(path)?)
}

fn open_append<R: Files>(rt: &R, path: &[u8]) -> io::Result<R::File> {
    OpenOptions::new().append(true).open(rt, named(path)?)
}

fn open_new<R: Files>(rt: &R, path: &[u8]) -> io::Result<R::File> {
    OpenOptions::new()
        .write(true)
        .create_new(true)
        .open(rt, named(path)?)
}

// Only in a regular file is there a place past the end: a pipe has no places, a device has no such one.
fn is_regular(file: &mut impl Seek) -> bool {
    file.seek(SeekFrom::End(1)).is_ok_and(|place| place > 0)
}

// A disk may find out only when all is to be on it that it has no room.
fn synced(file: impl OpenFile + Drop, good: io::Result<()>) -> io::Result<()> {
    good?;
    file.sync_all()
}

fn renamed(rt: &impl Files, path: &[u8], part: &[u8], whole: io::Result<()>) -> io::Result<()> {
    whole?;
    fs::rename(rt, named(part)?, named(path)?)
}

fn removed(rt: &impl Files, part: &[u8]) -> io::Result<()> {
    fs::remove_file(rt, named(part)?)
}
