//! The command over real files, and with memory that is refused.
ghost use Rattle.tool_process.specs.Edge.{KnowsAll};

use fab_base::{Depot, Failed, MemSink, NoMemory, word_at};
use fabric_tool::Outcome;
use std::alloc::{AllocError, AllocGlobal, Global};
use std::env::FillError;
use std::os::unix::fs::symlink;
use std::process::Abort;
use std::rt::{Env, Files};
use std::sync::Wait;
use std::test::Fail;
use std::thread::Threads;
use std::{env, fs};
use tool_process::{FileDepot, Spot, standard_output, status_of_process, words_of};

const CONFIG: [u8; 35] = *b"fcf-mac 00:05:1e:00:00:02\nvlan 100\n";

// A VLAN request of 00:1b:21:00:00:0a to All-FCF-MACs at 1000 ms.
const REQUEST: [u8; 100] = [
    0xd4, 0xc3, 0xb2, 0xa1, 2, 0, 4, 0, 0, 0, 0, 0, 0, 0, 0, 0, 255, 255, 0, 0, 1, 0, 0, 0, //
    1, 0, 0, 0, 0, 0, 0, 0, 60, 0, 0, 0, 60, 0, 0, 0, //
    0x01, 0x10, 0x18, 0x01, 0x00, 0x02, 0x00, 0x1b, 0x21, 0x00, 0x00, 0x0a, 0x89, 0x14, //
    0x10, 0, 0x00, 0x04, 0, 0x01, 0, 2, 0, 0, 2, 2, 0x00, 0x1b, 0x21, 0x00, 0x00, 0x0a, //
    0, 0, 0, 0, 0, 0, 0, 0, 0, 0, 0, 0, 0, 0, 0, 0, 0, 0, 0, 0, 0, 0, 0, 0, 0, 0, 0, 0,
];

// Its answer: a VLAN notification of VLAN 100 from 00:05:1e:00:00:02.
const NOTIFICATION: [u8; 100] = [
    0xd4, 0xc3, 0xb2, 0xa1, 2, 0, 4, 0, 0, 0, 0, 0, 0, 0, 0, 0, 255, 255, 0, 0, 1, 0, 0, 0, //
    1, 0, 0, 0, 0, 0, 0, 0, 60, 0, 0, 0, 60, 0, 0, 0, //
    0x00, 0x1b, 0x21, 0x00, 0x00, 0x0a, 0x00, 0x05, 0x1e, 0x00, 0x00, 0x02, 0x89, 0x14, //
    0x10, 0, 0x00, 0x04, 0, 0x02, 0, 3, 0, 0, 2, 2, 0x00, 0x05, 0x1e, 0x00, 0x00, 0x02, 14, 1, 0,
    100, //
    0, 0, 0, 0, 0, 0, 0, 0, 0, 0, 0, 0, 0, 0, 0, 0, 0, 0, 0, 0, 0, 0, 0, 0,
];

const ONE_PORT: [&str; 5] = ["run", "K", "J", "IN", "OUT"];

const TWO_PORTS: [&str; 7] = ["run", "K", "J", "IN", "OUT", "IN2", "OUT2"];

fn words_in(alloc: Global, words: &[&str]) -> Result<Vec<String>, NoMemory> {
    let mut list = Vec::new(alloc);
    for word in words {
        list.push(String::from_str(alloc, word)?)?;
    }
    Ok(list)
}

// The status of a command over real files where the standard output leads to this spot.
fn status_beside<R: Threads + Wait + Sync + Files>(
    rt: &R,
    alloc: Global,
    words: &[String],
    printed: &Spot,
    say: &mut MemSink,
) -> Result<u8, NoMemory> {
    let mut depot = FileDepot::new(rt, alloc, words, printed)?;
    Ok(status_of_process(rt, alloc, words, &mut depot, say))
}

// Runs a command over real files, which prints this line and answers this status.
fn ends<R: Threads + Wait + Sync + Files + Abort>(
    rt: &R,
    alloc: Global,
    words: &[&str],
    line: &[u8],
    wanted: u8,
) -> Result<(), Fail> {
    ends_beside(rt, alloc, words, &Spot::Other, (line, wanted))
}

// The same where the standard output leads to this spot.
fn ends_beside<R: Threads + Wait + Sync + Files + Abort>(
    rt: &R,
    alloc: Global,
    words: &[&str],
    printed: &Spot,
    wanted: (&[u8], u8),
) -> Result<(), Fail> {
    let words = words_in(alloc, words)?;
    let mut say = MemSink::new(alloc, 100)?;
    let status = status_beside(rt, alloc, &words, printed, &mut say)?;
    assert_eq!(rt; say.content(), wanted.0);
    assert_eq!(rt; status, wanted.1);
    Ok(())
}

// Writes files, each a name and what it holds.
fn write_all<R: Files + Abort>(rt: &R, files: &[(&str, &[u8])]) {
    for (name, bytes) in files {
        assert!(rt; fs::write(rt, name, *bytes).is_ok());
    }
}

// A file has these bytes.
fn assert_holds<R: Files + AllocGlobal + Abort>(rt: &R, name: &str, bytes: &[u8]) {
    let text = fs::read(rt, name);
    assert!(rt; matches!(&text, Ok(text) if text.as_slice() == bytes));
}

// What stands in the outputs before is no part of them afterwards, though it is longer.
#[test]
fn real_files(rt: HostRuntime) -> Result<(), Fail> {
    let before = [0; 200];
    write_all(
        &rt,
        &[
            ("K", &CONFIG),
            ("IN", &REQUEST),
            ("J", &before),
            ("OUT", &before),
        ],
    );
    ends(&rt, rt.alloc(), &ONE_PORT, b"frames 1 entries 2\n", 0)?;
    assert_holds(&rt, "J", b"journal 2\n1000 tick\n1000 1 0 vlans\n");
    assert_holds(&rt, "OUT", &NOTIFICATION);
    Ok(())
}

#[test]
fn statuses_of_a_process(rt: HostRuntime) -> Result<(), Fail> {
    let alloc = rt.alloc();
    // Names of its own, since all tests write into one folder.
    fs::write(&rt, "FAULTY", b"fcf-mac 00:05:1e:00:00:02\nvlan 5000\n")?;
    let rows: [(&[&str], &[u8], u8); 3] = [
        (
            &["run", "FAULTY", "NONE", "IN", "OUT"],
            b"config 2 value\n",
            1,
        ),
        (&["run", "K", "J", "IN", "IN"], b"words\n", 2),
        (&["run", "MISSING", "NONE", "IN", "OUT"], b"read fault\n", 3),
    ];
    for (words, line, wanted) in rows {
        ends(&rt, alloc, words, line, wanted)?;
    }
    assert_unmade(&rt, "NONE");
    Ok(())
}

// A process that was started with these words.
#[derive(Drop)]
struct Started<'a> {
    words: &'a [&'a [u8]],
}

impl Env for Started<'_> {
    fn arg(&self, i: usize, buf: &mut [u8]) -> Result<usize, FillError> {
        let Some(word) = self.words.get(i) else {
            return Err(FillError::NotPresent);
        };
        let Some(room) = buf.get_mut(..word.len()) else {
            return Err(FillError::TooLong);
        };
        room.copy_from_slice(word);
        Ok(word.len())
    }

    fn var(&self, _name: &str, _buf: &mut [u8]) -> Result<usize, FillError> {
        Err(FillError::NotPresent)
    }

    fn var_at(&self, _i: usize, _buf: &mut [u8]) -> Result<usize, FillError> {
        Err(FillError::NotPresent)
    }
}

// How many words a process that was started with these has, or how it ends without.
fn count_of(alloc: Global, words: &[&[u8]]) -> Result<usize, Outcome> {
    let told = words_of(&(Started { words }, alloc))?;
    Ok(told.len())
}

// All words behind the first come, however many there are, and one that isn't UTF-8 is no word.
#[test]
fn words_of_a_process(rt: HostRuntime) -> Result<(), Fail> {
    let mut words = [b"K".as_slice(); 200];
    assert!(rt; matches!(count_of(rt.alloc(), &words), Ok(199)));
    words[199] = b"\xff";
    assert!(rt; matches!(count_of(rt.alloc(), &words), Err(Outcome::Words)));
    Ok(())
}

// What a command prints goes where this test's own output goes, and no file of the command may.
#[test]
fn the_standard_output_is_no_output(rt: HostRuntime) -> Result<(), Fail> {
    write_all(&rt, &[("PLAIN", &CONFIG), ("HEARD", &REQUEST)]);
    let words = ["run", "PLAIN", "UNMADE", "HEARD", "/dev/stdout"];
    let printed = standard_output(&rt);
    ends_beside(&rt, rt.alloc(), &words, &printed, (b"", 4))?;
    assert_unmade(&rt, "UNMADE");
    Ok(())
}

// A pcapng file without packets: a section header of version 1.0 and unknown length.
const SECTION: [u8; 28] = [
    10, 13, 13, 10, 28, 0, 0, 0, 0x4d, 0x3c, 0x2b, 0x1a, 1, 0, 0, 0, //
    255, 255, 255, 255, 255, 255, 255, 255, 28, 0, 0, 0,
];

fn assert_unmade<R: Files + Abort>(rt: &R, name: &str) {
    assert!(rt; matches!(fs::exists(rt, name), Ok(false)));
}

// A command over two names of one file opens no output, and the file is as it was.
fn is_kept<R: Threads + Wait + Sync + Files + AllocGlobal + Abort>(
    rt: &R,
    words: &[&str],
    bytes: &[u8],
) -> Result<(), Fail> {
    fs::write(rt, "TWICE", bytes)?;
    ends(rt, rt.alloc(), words, b"write fault\n", 4)?;
    assert_unmade(rt, "NEW");
    assert_holds(rt, "TWICE", bytes);
    Ok(())
}

// Commands over TWICE and OTHER, and what stands in the file before.
const OVER_TWO: [(&[&str], &[u8]); 6] = [
    (&["run", "SET", "NEW", "TWICE", "OTHER"], &REQUEST),
    (&["run", "SET", "OTHER", "TWICE", "NEW"], &REQUEST),
    (&["run", "TWICE", "NEW", "ASKED", "OTHER"], &CONFIG),
    (&["convert", "TWICE", "OTHER"], &SECTION),
    (&["migrate", "TWICE", "OTHER"], b""),
    (
        &[
            "make", "1", "NEW", "1", "TWICE", "3", "4", "OTHER", "6", "7", "8",
        ],
        &REQUEST,
    ),
];

// The words with a name in the place of OTHER.
fn with_other<'a>(
    alloc: Global,
    words: &[&'a str],
    other: &'a str,
) -> Result<Vec<&'a str>, AllocError> {
    let mut named = Vec::new(alloc);
    for word in words {
        named.push(if *word == "OTHER" { other } else { word })?;
    }
    Ok(named)
}

// The commands over TWICE and another name of it.
fn commands_keep_it<R: Threads + Wait + Sync + Files + AllocGlobal + Abort>(
    rt: &R,
    other: &str,
) -> Result<(), Fail> {
    for (words, bytes) in OVER_TWO {
        let named = with_other(rt.alloc(), words, other)?;
        is_kept(rt, &named, bytes)?;
    }
    Ok(())
}

// The files of the test below, and links to them. The names are its own, since all tests write into
// one folder.
fn make_links<R: Files + Abort>(rt: &R) -> Result<(), Fail> {
    write_all(rt, &[("SET", &CONFIG), ("ASKED", &REQUEST), ("TWICE", b"")]);
    fs::create_dir_all(rt, "folder")?;
    for (to, name) in [
        ("TWICE", "SOFT"),
        ("folder/NEXT", "LINK"),
        ("../NEW", "folder/NEXT"),
    ] {
        symlink(rt, to, name)?;
    }
    fs::hard_link(rt, "TWICE", "HARD")?;
    Ok(())
}

// No file is written where a name of an output leads to one that isn't there yet by another way too,
// or by a link through another folder and another link; a device may stand twice.
fn files_to_come_are_kept<R: Threads + Wait + Sync + Files + AllocGlobal + Abort>(
    rt: &R,
) -> Result<(), Fail> {
    for [journal, output] in [["NEW", "folder/../NEW"], ["LINK", "NEW"]] {
        is_kept(rt, &["run", "SET", journal, "TWICE", output], &REQUEST)?;
    }
    let words = ["run", "SET", "/dev/null", "ASKED", "/dev/./null"];
    ends(rt, rt.alloc(), &words, b"frames 1 entries 2\n", 0)
}

#[test]
fn two_names_of_one_file(rt: HostRuntime) -> Result<(), Fail> {
    make_links(&rt)?;
    for other in ["./TWICE", "folder/../TWICE", "SOFT", "HARD"] {
        commands_keep_it(&rt, other)?;
    }
    let absolute = env::current_dir(&rt)?.join(rt.alloc(), "TWICE")?;
    commands_keep_it(&rt, absolute.as_str())?;
    files_to_come_are_kept(&rt)
}

// Opens FIRST and SECOND, and puts a byte and more into the first, if memory is there.
fn put_first<R: Files + AllocGlobal + Abort>(
    rt: &R,
    depot: &mut FileDepot<'_, R>,
    words: &[String],
) -> Result<(), Failed>
    requires { KnowsAll depot.old.desk words.now }
{
    assert_eq!(rt; words.len(), 3);
    let first = depot.open_out(word_at(words, 1))?;
    let opened = depot.open_out(word_at(words, 2)).is_ok();
    is_or_unread(rt, "FIRST", b"before");
    is_or_unread(rt, "SECOND", b"before");
    depot.put(first, b"after")?;
    is_or_unread(rt, "FIRST", b"after");
    is_or_unread(rt, "SECOND", if opened { b"" } else { b"before" });
    Ok(())
}

// Holds whichever allocation is refused (`rt try --test --fail-alloc N`): an output is as it was
// until the first byte is written.
#[test]
fn no_file_is_emptied_before_a_byte_comes(rt: HostRuntime) -> Result<(), Fail> {
    write_all(&rt, &[("FIRST", b"before"), ("SECOND", b"before")]);
    if let Ok(words) = words_in(rt.alloc(), &["run", "FIRST", "SECOND"]) {
        if let Ok(mut depot) = FileDepot::new(&rt, rt.alloc(), &words, &Spot::Other) {
            let _put = put_first(&rt, &mut depot, &words);
        }
    }
    Ok(())
}

// A file has these bytes; memory to read it may be refused.
fn is_or_unread<R: Files + AllocGlobal + Abort>(rt: &R, name: &str, bytes: &[u8]) {
    if let Ok(text) = fs::read(rt, name) {
        assert_eq!(rt; text.as_slice(), bytes);
    }
}

// Runs a command over real files, or not: memory for its words and files may be refused.
fn run_or_not<R: Threads + Wait + Sync + Files>(
    rt: &R,
    alloc: Global,
    words: &[&str],
) -> Result<u8, NoMemory> {
    let words = words_in(alloc, words)?;
    let mut say = MemSink::new(alloc, 100)?;
    status_beside(rt, alloc, &words, &Spot::Other, &mut say)
}

// A file is as it was, or holds a prefix of these bytes; memory to read it may be refused.
fn is_front<R: Files + AllocGlobal + Abort>(rt: &R, name: &str, whole: &[u8]) {
    if let Ok(text) = fs::read(rt, name) {
        assert!(rt; text.as_slice() == b"before".as_slice() || whole.starts_with(&text));
    }
}

// The same of a whole run over two ports: each output is as it was, or holds a prefix of the whole.
#[test]
fn outputs_are_as_they_were_or_fronts(rt: HostRuntime) -> Result<(), Fail> {
    // The second port's request comes in a later window, at 2000.
    let (mut later, mut answer) = (REQUEST, NOTIFICATION);
    later[24] = 2;
    answer[24] = 2;
    write_all(&rt, &[("K", &CONFIG), ("IN", &REQUEST), ("IN2", &later)]);
    write_all(
        &rt,
        &[("J", b"before"), ("OUT", b"before"), ("OUT2", b"before")],
    );
    let _status = run_or_not(&rt, rt.alloc(), &TWO_PORTS);
    let journal = b"journal 2\n1000 tick\n1000 1 0 vlans\n2000 tick\n2000 2 0 vlans\n";
    is_front(&rt, "J", journal.as_slice());
    is_front(&rt, "OUT", NOTIFICATION.as_slice());
    is_front(&rt, "OUT2", answer.as_slice());
    Ok(())
}
