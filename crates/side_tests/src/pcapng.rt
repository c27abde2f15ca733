//! Conversions, and what they write.
use fab_base::{Depot, MemDepot, NoMemory, word_at};
use pcap_file::Budget;
use pcapng_file::*;
use std::alloc::Global;
use std::process::Abort;
use std::test::Fail;

/// More than the file here has.
const AMPLE: Budget = Budget {
    bytes: 1_073_741_824,
    frames: 200_000,
};

// One section, an interface in nanoseconds at 28, and a packet of 4 bytes at 56, 1 ms after 1970.
const SMALL: [u8; 92] = [
    0x0a, 0x0d, 0x0d, 0x0a, 28, 0, 0, 0, 0x4d, 0x3c, 0x2b, 0x1a, 1, 0, 0, 0, 255, 255, 255, 255,
    255, 255, 255, 255, 28, 0, 0, 0, 1, 0, 0, 0, 28, 0, 0, 0, 1, 0, 0, 0, 0, 0, 0, 0, 9, 0, 1, 0,
    9, 0, 0, 0, 28, 0, 0, 0, 6, 0, 0, 0, 36, 0, 0, 0, 0, 0, 0, 0, 0, 0, 0, 0, 0x40, 0x42, 0x0f, 0,
    4, 0, 0, 0, 5, 0, 0, 0, 1, 2, 3, 4, 36, 0, 0, 0,
];

// A depot with the small file, and the name of one to be written.
fn with_small(alloc: Global) -> Result<MemDepot, NoMemory> {
    let mut depot = MemDepot::new(alloc)?;
    depot.store(alloc, "in", &SMALL)?;
    depot.know(alloc, "out")?;
    Ok(depot)
}

fn in_and_out(alloc: Global) -> Result<Vec<String>, NoMemory> {
    let mut words = Vec::new(alloc);
    for word in ["in", "out"] {
        words.push(String::from_str(alloc, word)?)?;
    }
    Ok(words)
}

// Converts the file of the first word into that of the second, under these limits.
fn convert_words(
    rt: &impl Abort,
    alloc: Global,
    depot: &mut MemDepot,
    words: &[String],
    limits: Budget,
) -> Result<u64, ConvertError> {
    assert!(rt; depot.knows_all(words));
    assert_eq!(rt; words.len(), 2);
    let from = word_at(words, 0);
    convert(alloc, depot, from, word_at(words, 1), limits)
}

// What a conversion of the small file answers under these limits, and whether it wrote these bytes.
fn assert_converted(
    rt: &impl Abort,
    alloc: Global,
    limits: Budget,
    answer: Result<u64, ConvertError>,
    written: Option<&[u8]>,
) -> Result<(), Fail> {
    let words = in_and_out(alloc)?;
    let mut depot = with_small(alloc)?;
    assert_eq!(rt;
        convert_words(rt, alloc, &mut depot, &words, limits),
        answer
    );
    assert_eq!(rt; depot.content("out"), written);
    Ok(())
}

#[test]
fn a_file_is_converted(rt: HostRuntime) -> Result<(), Fail> {
    let capture = [
        0xd4, 0xc3, 0xb2, 0xa1, 2, 0, 4, 0, 0, 0, 0, 0, 0, 0, 0, 0, 0xff, 0xff, 0, 0, 1, 0, 0, 0,
        0, 0, 0, 0, 0xe8, 3, 0, 0, 4, 0, 0, 0, 5, 0, 0, 0, 1, 2, 3, 4,
    ];
    assert_converted(&rt, rt.alloc(), AMPLE, Ok(1), Some(capture.as_slice()))?;
    Ok(())
}

#[test]
fn a_packet_past_the_limit_is_not_converted(rt: HostRuntime) -> Result<(), Fail> {
    let limits = Budget {
        bytes: 92,
        frames: 0,
    };
    let why = ConvertError::Input(NgError::Limit(NgLimit::Frames));
    assert_converted(&rt, rt.alloc(), limits, Err(why), None)?;
    Ok(())
}

// The first packet of the small file's stream.
fn first_packet(alloc: Global) -> Result<Option<NgRecord>, Fail> {
    let mut depot = MemDepot::new(alloc)?;
    depot.store(alloc, "in", &SMALL)?;
    let slot = depot.open_in("in")?;
    let mut stream = NgStream::new(alloc, AMPLE);
    let packet = stream.next(alloc, &mut depot, slot)?;
    Ok(packet)
}

#[test]
fn a_stream_gives_a_packet(rt: HostRuntime) -> Result<(), Fail> {
    let packet = first_packet(rt.alloc())?.ok_or("a packet")?;
    assert_eq!(rt; packet.moment.0, 1);
    assert_eq!(rt; packet.face, 0);
    assert_eq!(rt; packet.original, 5);
    assert_eq!(rt; packet.caught.bytes.view(), [1, 2, 3, 4].as_slice());
    Ok(())
}
