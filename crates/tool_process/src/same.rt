//! Which names of a command lead to one real file, or to the standard output.
ghost use Rattle.std.specs.Prelude.{◌≡◌, ◌<◌, length, IfOk, IfSome};
ghost use Rattle.std.specs.Fs.{file_type};
ghost use Rattle.tool_process.specs.Same as spec;
ghost use Rattle.tool_process.specs.Same.{IsSpotOf, IsNextOne, IsFirstPair, IsFirstPrinted, IsMix};
ghost use Rattle.tool_process.specs.Same.{HasSpots, IsMixOf};

use fab_base::{NoMemory, word_at};
use std::alloc::Global;
use std::fs;
use std::fs::Metadata;
use std::os::unix::fs::MetadataExt;
use std::path::Path;
use std::rt::Files;

/// Where the file of a name lies, by the numbers of a device and an inode.
#[derive(Debug, Drop)]
pub enum Spot {
    /// A regular file.
    File {
        device: u64,
        inode: u64,
    },
    /// A file that isn't there yet: its folder, and its name in it.
    New {
        device: u64,
        inode: u64,
        name: String,
    },
    /// A pipe, a socket or a terminal, which may stand under several names.
    Stream {
        device: u64,
        inode: u64,
    },
    /// A folder, /dev/null, or nothing.
    Other,
}

/// What the names of a command are to each other and to the standard output.
#[derive(Clone, Copy, Debug, PartialEq, Eq)]
pub(crate) enum Mix {
    /// Each name is a file of its own.
    Apart,
    /// The names at these two places are one file.
    Two(usize, usize),
    /// The standard output is a regular file, and the name at this place leads to it.
    Printed(usize),
    /// The standard output is a pipe or a terminal, and the name at this place leads to it.
    Piped(usize),
}

impl Mix {
    ghost use Rattle.std.specs.Prelude.{◌≡◌, true, false};
    ghost use Rattle.tool_process.specs.Same.{IsPrinted};
    ghost use Rattle.tool_process.specs.declared.same.Mix.TheVariants.{Apart};

    /// Whether a name leads to the regular file that is the standard output.
    pub(crate) fn is_printed(self) -> bool
        ensures printed { result ≡ true → IsPrinted self }
        ensures other { result ≡ false → ¬ IsPrinted self }
    {
        match self {
            Mix::Printed(_) => true,
            Mix::Apart | Mix::Two(..) | Mix::Piped(_) => false,
        }
    }

    /// Whether two names lead to one place.
    pub(crate) fn is_mixed(self) -> bool
        ensures { result ≡ false → self ≡ Apart }
    {
        match self {
            Mix::Apart => false,
            _ => true,
        }
    }
}

// The device number of /dev/null: major 1, minor 3.
const NULL: u64 = 0x103;

// As many links as Linux follows in one name.
const LINKS: usize = 40;

/// The place of the first word that is a file's name.
pub(crate) fn first_name(words: &[String]) -> usize
    ensures { result ≡ spec.first_name words.now }
{
    if words.is_empty() {
        return 0;
    }
    match word_at(words, 0) {
        // the number of a load isn't a file
        "make" => 2,
        // nor are a node's start, MAC and names
        "enode" => 5,
        _ => 1,
    }
}

/// What the file names among the words are to each other and to the standard output.
pub(crate) fn mix_of<R: Files>(
    files: &R,
    alloc: Global,
    words: &[String],
    printed: &Spot,
) -> Result<Mix, NoMemory>
    ensures { IfOk result (IsMixOf words.now printed.now) }
{
    let spots = spots_of(files, alloc, words)?;
    Ok(mix_by(&spots, printed))
}

// Where the name of each word leads.
fn spots_of<R: Files>(files: &R, alloc: Global, words: &[String]) -> Result<Vec<Spot>, NoMemory>
    ensures { IfOk result (λ v. HasSpots words.now v.items) }
{
    let mut spots: Vec<Spot> = Vec::with_capacity(alloc, words.len())?;
    for place in 0..words.len() {
        let spot = if place < first_name(words) {
            Spot::Other
        } else {
            spot_of(files, alloc, word_at(words, place))?
        };
        spots.push(spot)?;
    }
    Ok(spots)
}

// What names are to each other that lead to these spots, beside a standard output.
fn mix_by(spots: &[Spot], printed: &Spot) -> Mix
    ensures { IsMix spots.now printed.now result }
{
    if let Some(mix) = printed_over(spots, printed) {
        return mix;
    }
    match two_of_one(spots) {
        Some((one, other)) => Mix::Two(one, other),
        None => Mix::Apart,
    }
}

/// Where the standard output leads.
pub fn standard_output<R: Files>(files: &R) -> Spot {
    match fs::metadata(files, "/proc/self/fd/1") {
        Ok(found) => spot_at(&found),
        Err(_) => Spot::Other,
    }
}

// Where the file of a name lies; a link that leads nowhere yet is followed to its end.
fn spot_of<R: Files>(files: &R, alloc: Global, name: &str) -> Result<Spot, NoMemory> {
    let Ok(found) = fs::metadata(files, name) else {
        let end = end_of_links(files, alloc, name)?;
        return new_spot(files, alloc, &end);
    };
    Ok(spot_at(&found))
}

fn spot_at(found: &Metadata) -> Spot
    ensures { IsSpotOf (file_type found.now) result }
{
    let (device, inode) = (found.dev(), found.ino());
    if found.is_file() {
        return Spot::File { device, inode };
    }
    if found.is_dir() || found.rdev() == NULL {
        return Spot::Other;
    }
    Spot::Stream { device, inode }
}

// The name at the end of links. One that leads to itself is left where it is: it can't be opened.
fn end_of_links<R: Files>(files: &R, alloc: Global, name: &str) -> Result<String, NoMemory> {
    let mut end = String::from_str(alloc, name)?;
    for _ in 0..LINKS {
        match next_of_links(files, alloc, &end)? {
            Some(next) => end = next,
            None => return Ok(end),
        }
    }
    Ok(end)
}

// The name to which a link leads, or none where a name is no link.
fn next_of_links<R: Files>(
    files: &R,
    alloc: Global,
    name: &str,
) -> Result<Option<String>, NoMemory> {
    let Ok(target) = files.read_link(alloc, name) else {
        return Ok(None);
    };
    let next = if target.as_path().is_absolute() {
        String::from_str(alloc, target.as_str())?
    } else {
        format!(in alloc; "{}/{}", folder_of(name), target.as_str())?
    };
    Ok(Some(next))
}

// The folder in which a name lies.
fn folder_of(name: &str) -> &str {
    match Path::new(name).parent() {
        Some(parent) if !parent.as_str().is_empty() => parent.as_str(),
        _ => ".",
    }
}

// Where a file of this name would be made.
fn new_spot<R: Files>(files: &R, alloc: Global, name: &str) -> Result<Spot, NoMemory> {
    let Ok(found) = fs::metadata(files, folder_of(name)) else {
        return Ok(Spot::Other);
    };
    let Some(last) = Path::new(name).file_name() else {
        return Ok(Spot::Other);
    };
    Ok(Spot::New {
        device: found.dev(),
        inode: found.ino(),
        name: String::from_str(alloc, last)?,
    })
}

// The first name that leads to the standard output.
fn printed_over(spots: &[Spot], printed: &Spot) -> Option<Mix>
    ensures { IsFirstPrinted spots.now printed.now result }
{
    for place in 0..spots.len() {
        if are_one(&spots[place], printed) {
            return Some(Mix::Printed(place));
        }
        if are_one_stream(&spots[place], printed) {
            return Some(Mix::Piped(place));
        }
    }
    None
}

// The first two places at which one file is.
fn two_of_one(spots: &[Spot]) -> Option<(usize, usize)>
    ensures { IsFirstPair spots.now result }
{
    for place in 0..spots.len() {
        if let Some(other) = met_again(spots, place) {
            return Some((place, other));
        }
    }
    None
}

fn met_again(spots: &[Spot], place: usize) -> Option<usize>
    requires { place < length spots.now }
    ensures { IsNextOne spots.now place result }
{
    for later in place + 1..spots.len() {
        if are_one(&spots[place], &spots[later]) {
            return Some(later);
        }
    }
    None
}

// Whether two names are one regular file, which is there or would be made.
fn are_one(one: &Spot, other: &Spot) -> bool
    ensures { result ≡ spec.are_one one.now other.now }
{
    match (one, other) {
        (
            Spot::File { device, inode },
            Spot::File {
                device: d,
                inode: i,
            },
        ) => *device == *d && *inode == *i,
        (
            Spot::New {
                device,
                inode,
                name,
            },
            Spot::New {
                device: d,
                inode: i,
                name: n,
            },
        ) => *device == *d && *inode == *i && name.as_str() == n.as_str(),
        _ => false,
    }
}

fn are_one_stream(one: &Spot, other: &Spot) -> bool
    ensures { result ≡ spec.are_one_stream one.now other.now }
{
    match (one, other) {
        (
            Spot::Stream { device, inode },
            Spot::Stream {
                device: d,
                inode: i,
            },
        ) => *device == *d && *inode == *i,
        _ => false,
    }
}
