//! The lines of cases, obeyed one after another.
//!
//! | Line | What happens |
//! |---|---|
//! | empty | the next case begins: its store is empty, and its sink has room |
//! | `# ..` | a comment, which is printed |
//! | `file NAME`, `capture NAME` | the pieces behind it are a file that every later case can take |
//! | `with NAME=FILE ..` | these files are stored under these names |
//! | `fail N` | the call of the store of that number, counted from 0, fails |
//! | `room N` | the sink has room for so many bytes |
//! | `$ WORD ..` | the command is run: what it prints, and its status |
//! | `see NAME ..` | these files of the store are printed |
//! | `sum NAME ..` | their lengths and check sequences |
//! | `front NAME=FILE ..` | how many bytes of that file they have |
//! | `keep FILE=NAME ..` | files of the store are kept for later cases |

use crate::lines::{Fault, number, pair, place, words_of};
use crate::pieces::{HEAD, put_piece};
use crate::printing::{print, print_file, print_front, print_lines, print_status, print_sum};
use fab_base::{MemDepot, MemSink, OpenGate};
use fabric_tool::fabric_tool;
use std::alloc::Global;
use std::sync::Wait;
use std::thread::Threads;

// How much a command may print where nothing else is said.
const ROOM: usize = 10_000;

/// The files that were written down, the store and the room of the case, and all answers.
#[derive(Drop)]
pub(crate) struct Cases {
    shelf: MemDepot,
    depot: MemDepot,
    name: String,
    bytes: Vec<u8>,
    room: usize,
    out: Vec<u8>,
}

impl Cases {
    /// No file, and no answer.
    pub(crate) fn new(alloc: Global) -> Result<Cases, Fault> {
        Ok(Cases {
            shelf: MemDepot::new(alloc)?,
            depot: MemDepot::new(alloc)?,
            name: String::new(alloc),
            bytes: Vec::new(alloc),
            room: ROOM,
            out: Vec::new(alloc),
        })
    }

    /// All answers.
    pub(crate) fn into_answers(self) -> Vec<u8> {
        self.out
    }

    /// One line more. One that can't be obeyed is printed behind a question mark.
    pub(crate) fn answer<R: Threads + Wait + Sync>(
        &mut self,
        rt: &R,
        alloc: Global,
        line: &str,
    ) -> Result<(), Fault> {
        match self.obey(rt, alloc, line) {
            Err(Fault::Line) => print(&mut self.out, "? ", line),
            done => done,
        }
    }

    fn obey<R: Threads + Wait + Sync>(
        &mut self,
        rt: &R,
        alloc: Global,
        line: &str,
    ) -> Result<(), Fault> {
        if let Some(piece) = line.strip_prefix(" ") {
            return put_piece(alloc, &mut self.bytes, &self.shelf, piece);
        }
        self.finish(alloc)?;
        if let Some(words) = line.strip_prefix("$ ") {
            print(&mut self.out, line, "")?;
            return self.run(rt, alloc, words);
        }
        self.prepare(alloc, line)
    }

    // The file that was written down is kept.
    fn finish(&mut self, alloc: Global) -> Result<(), Fault> {
        if self.name.is_empty() {
            return Ok(());
        }
        self.shelf.store(alloc, self.name.as_str(), &self.bytes)?;
        self.name = String::new(alloc);
        Ok(())
    }

    // A line that runs nothing.
    fn prepare(&mut self, alloc: Global, line: &str) -> Result<(), Fault> {
        if let Some(name) = line.strip_prefix("file ") {
            return self.begin(alloc, name, &[]);
        }
        if let Some(name) = line.strip_prefix("capture ") {
            return self.begin(alloc, name, &HEAD);
        }
        if let Some(words) = line.strip_prefix("see ") {
            return self.see(words);
        }
        if let Some(words) = line.strip_prefix("sum ") {
            return self.sum(words);
        }
        if let Some(words) = line.strip_prefix("front ") {
            return self.front(words);
        }
        print(&mut self.out, line, "")?;
        self.set(alloc, line)
    }

    // A file begins with these bytes.
    fn begin(&mut self, alloc: Global, name: &str, head: &[u8]) -> Result<(), Fault> {
        self.name = String::from_str(alloc, name)?;
        self.bytes = Vec::from_slice(alloc, head)?;
        Ok(())
    }

    // A line that is printed as it stands.
    fn set(&mut self, alloc: Global, line: &str) -> Result<(), Fault> {
        if line.is_empty() {
            self.depot = MemDepot::new(alloc)?;
            self.room = ROOM;
            return Ok(());
        }
        if let Some(words) = line.strip_prefix("with ") {
            return self.with(alloc, words);
        }
        if let Some(words) = line.strip_prefix("keep ") {
            return self.keep(alloc, words);
        }
        if let Some(word) = line.strip_prefix("room ") {
            self.room = place(Some(word))?;
            return Ok(());
        }
        if let Some(word) = line.strip_prefix("fail ") {
            self.depot.fail_call(alloc, number(Some(word))?)?;
            return Ok(());
        }
        match line.strip_prefix("#") {
            Some(_) => Ok(()),
            None => Err(Fault::Line),
        }
    }

    fn with(&mut self, alloc: Global, words: &str) -> Result<(), Fault> {
        for word in words.split_whitespace() {
            let (name, file) = pair(word)?;
            copy(alloc, &self.shelf, file, &mut self.depot, name)?;
        }
        Ok(())
    }

    fn keep(&mut self, alloc: Global, words: &str) -> Result<(), Fault> {
        for word in words.split_whitespace() {
            let (file, name) = pair(word)?;
            copy(alloc, &self.depot, name, &mut self.shelf, file)?;
        }
        Ok(())
    }

    fn see(&mut self, names: &str) -> Result<(), Fault> {
        for name in names.split_whitespace() {
            print_file(&mut self.out, name, self.depot.content(name))?;
        }
        Ok(())
    }

    fn sum(&mut self, names: &str) -> Result<(), Fault> {
        for name in names.split_whitespace() {
            print_sum(&mut self.out, name, self.depot.content(name))?;
        }
        Ok(())
    }

    fn front(&mut self, words: &str) -> Result<(), Fault> {
        for word in words.split_whitespace() {
            let (name, other) = pair(word)?;
            let whole = self.shelf.content(other).unwrap_or(&[]);
            print_front(&mut self.out, name, self.depot.content(name), whole)?;
        }
        Ok(())
    }

    // Runs a command: its status, and what it printed.
    fn run<R: Threads + Wait + Sync>(
        &mut self,
        rt: &R,
        alloc: Global,
        words: &str,
    ) -> Result<(), Fault> {
        let words = words_of(alloc, words)?;
        let mut say = MemSink::new(alloc, self.room)?;
        let status = status_of(rt, alloc, &words, &mut self.depot, &mut say)?;
        print_lines(&mut self.out, "> ", say.content())?;
        print_status(&mut self.out, status)
    }
}

// Stores a file of a depot in another one.
fn copy(
    alloc: Global,
    from: &MemDepot,
    file: &str,
    to: &mut MemDepot,
    name: &str,
) -> Result<(), Fault> {
    match from.content(file) {
        Some(bytes) => to.store(alloc, name, bytes)?,
        None => return Err(Fault::Line),
    }
    Ok(())
}

// The status of a command over a depot that knows its words from now on.
fn status_of<R: Threads + Wait + Sync>(
    rt: &R,
    alloc: Global,
    words: &[String],
    depot: &mut MemDepot,
    say: &mut MemSink,
) -> Result<u8, Fault> {
    for word in words {
        depot.know(alloc, word.as_str())?;
    }
    if !depot.knows_all(words) {
        return Err(Fault::Line);
    }
    Ok(fabric_tool(rt, alloc, words, depot, say, &OpenGate))
}
