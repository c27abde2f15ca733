//! An example with its bytes, what is refused of it, and what no fabric goes on from.
use fab_config::read_config;
use fab_state::{
    FitFault, FitWhy, SeamError, SeamFault, SeamWhy, check_fit, read_seam, write_seam,
};
use std::alloc::{AllocError, Global};
use std::test::Fail;

/// Two ports, one login, and an address whose last login ended.
pub(crate) const EXAMPLE: &str =
    "state 1\nclock 1783036800100\nadvertised 1783036796000\nchanges 12\ngreatest 1783036800142\nport 1 4711\nport 2 4705\naddress 010100 2100001b2100000a\naddress 010101 2100001b2100000b 1783036790000\nlogin 010100 2100001b2100000a 2000001b2100000a 1 001b2100000a 1783036799000 1783036760000 1 2000001b2100000a 0000010000000000000000000000000000000000000000000000000000000000 - 6469736b - 2112\n";

/// The lines of the example.
const LINES: [&str; 10] = [
    "state 1\n",
    "clock 1783036800100\n",
    "advertised 1783036796000\n",
    "changes 12\n",
    "greatest 1783036800142\n",
    "port 1 4711\n",
    "port 2 4705\n",
    "address 010100 2100001b2100000a\n",
    "address 010101 2100001b2100000b 1783036790000\n",
    "login 010100 2100001b2100000a 2000001b2100000a 1 001b2100000a 1783036799000 1783036760000 1 2000001b2100000a 0000010000000000000000000000000000000000000000000000000000000000 - 6469736b - 2112\n",
];

/// The configuration that the example goes on under.
pub(crate) const CONFIG: &str =
    "fcf-mac 00:05:1e:00:00:02\nvlan 100\ndomain 1\npool 4\nperiod 8000\nwindow 10\nlimit 2\n";

/// The first address of the pool, and how many there are.
pub(crate) const FIRST: u32 = 0x010100;

pub(crate) const COUNT: u32 = 4;

#[test]
fn an_example_is_read_and_written(rt: HostRuntime) -> Result<(), Fail> {
    let seam = read_seam(rt.alloc(), FIRST, COUNT, 2, EXAMPLE.as_bytes())?;
    let mut text = Vec::new(rt.alloc());
    write_seam(rt.alloc(), &seam, &mut text).map_err(|_| "memory")?;
    assert_eq!(rt; text.as_slice(), EXAMPLE.as_bytes());
    assert_eq!(rt; seam.nexts.items(), [4711, 4705].as_slice());
    Ok(())
}

#[test]
fn a_spoiled_byte_is_named_by_its_line(rt: HostRuntime) -> Result<(), Fail> {
    for (place, byte, line) in [
        (6, b'2', 1),
        (14, b'0', 2),
        (38, b'\t', 3),
        (61, b'+', 4),
        (64, b'G', 5),
        (92, b'2', 6),
        (106, b'a', 7),
        (124, b'2', 9),
        (133, b'B', 8),
        (151, b'f', 9),
        (236, b'0', 10),
        (206, b'X', 10),
        (363, b'0', 10),
        (376, b'-', 10),
    ] {
        let mut text = EXAMPLE.as_bytes().to_vec(rt.alloc())?;
        if let Some(spoiled) = text.get_mut(place) {
            *spoiled = byte;
        }
        let found = read_seam(rt.alloc(), FIRST, COUNT, 2, &text).err();
        let wanted = SeamFault {
            line,
            why: SeamWhy::Spelling,
        };
        assert_eq!(rt; found, Some(SeamError::Fault(wanted)));
    }
    Ok(())
}

// ---- spoiled texts are refused, or they are the text of another seam

#[test]
fn a_changed_byte_is_refused_or_says_another_seam(rt: HostRuntime) -> Result<(), Fail> {
    for place in 0..EXAMPLE.len() {
        for byte in [b'0', b'1', b'a', b'-', b' ', b'\n', 0, 255] {
            let mut text = EXAMPLE.as_bytes().to_vec(rt.alloc())?;
            if let Some(spoiled) = text.get_mut(place) {
                *spoiled = byte;
            }
            assert!(rt; is_refused_or_said(rt.alloc(), &text), "byte {place}");
        }
    }
    Ok(())
}

#[test]
fn a_line_that_is_missing_or_stands_twice_is_refused_or_says_another_seam(
    rt: HostRuntime,
) -> Result<(), Fail> {
    for spoiled in 0..LINES.len() {
        for times in [0, 2] {
            let text = repeated(rt.alloc(), spoiled, times)?;
            assert!(rt; is_refused_or_said(rt.alloc(), &text), "line {spoiled}");
        }
    }
    Ok(())
}

#[test]
fn lines_that_are_exchanged_are_refused(rt: HostRuntime) -> Result<(), Fail> {
    for one in 0..LINES.len() {
        for other in 0..one {
            let text = exchanged(rt.alloc(), one, other)?;
            let line = refused_line(rt.alloc(), &text);
            assert!(rt; line > other, "lines {other} and {one}");
        }
    }
    Ok(())
}

// The line in which a text is refused, and 0 where it isn't.
fn refused_line(alloc: Global, text: &[u8]) -> usize {
    match read_seam(alloc, FIRST, COUNT, 2, text) {
        Err(SeamError::Fault(fault)) => fault.line,
        Err(SeamError::Memory) => 0,
        Ok(_) => 0,
    }
}

// Whether a text is refused, or is the text of the seam that is read.
fn is_refused_or_said(alloc: Global, text: &[u8]) -> bool {
    match read_seam(alloc, FIRST, COUNT, 2, text) {
        Ok(seam) => {
            let mut again = Vec::new(alloc);
            write_seam(alloc, &seam, &mut again).is_ok() && again.as_slice() == text
        }
        Err(SeamError::Fault(_)) => true,
        Err(SeamError::Memory) => false,
    }
}

// The example with a line so many times.
fn repeated(alloc: Global, spoiled: usize, times: usize) -> Result<Vec<u8>, AllocError> {
    let mut text = Vec::new(alloc);
    for (place, line) in LINES.iter().enumerate() {
        let count = if place == spoiled { times } else { 1 };
        for _ in 0..count {
            text.extend_from_slice(line.as_bytes())?;
        }
    }
    Ok(text)
}

// The example with two lines in each other's place.
fn exchanged(alloc: Global, one: usize, other: usize) -> Result<Vec<u8>, AllocError> {
    let mut text = Vec::new(alloc);
    for place in 0..LINES.len() {
        let from = if place == one {
            other
        } else if place == other {
            one
        } else {
            place
        };
        if let Some(line) = LINES.get(from) {
            text.extend_from_slice(line.as_bytes())?;
        }
    }
    Ok(text)
}

// ---- what a fabric can go on from

#[test]
fn a_fabric_goes_on_from_the_example(rt: HostRuntime) -> Result<(), Fail> {
    let config = read_config(rt.alloc(), CONFIG.as_bytes())?;
    let seam = read_seam(rt.alloc(), FIRST, COUNT, 2, EXAMPLE.as_bytes())?;
    assert_eq!(rt; check_fit(&config, 2, &seam), Ok(()));
    Ok(())
}

#[test]
fn no_fabric_goes_on_from_such_a_head(rt: HostRuntime) -> Result<(), Fail> {
    let config = read_config(rt.alloc(), CONFIG.as_bytes())?;
    for (old, new, line, why) in [
        (
            "clock 1783036800100\nadvertised 1783036796000",
            "clock\nadvertised",
            2,
            FitWhy::Begun,
        ),
        (
            "clock 1783036800100",
            "clock 1783036800105",
            2,
            FitWhy::Window,
        ),
        (
            "clock 1783036800100",
            "clock 8796093022210",
            2,
            FitWhy::Clock,
        ),
        (" 1783036796000", "", 3, FitWhy::Alone),
        ("1783036796000", "1783036800101", 3, FitWhy::Advertised),
        ("1783036796000", "1783036792100", 3, FitWhy::Period),
        ("changes 12", "changes 65535", 4, FitWhy::Changes),
        ("1783036800142", "1783036800099", 5, FitWhy::Greatest),
        ("1783036790000", "1783036800101", 9, FitWhy::Ended),
        (" 1783036790000", "", 9, FitWhy::Unheld),
    ] {
        let text = replaced(rt.alloc(), old, new)?;
        let seam = read_seam(rt.alloc(), FIRST, COUNT, 2, text.as_bytes())?;
        assert_eq!(rt;
            check_fit(&config, 2, &seam),
            Err(FitFault { line, why }),
            "{new}"
        );
    }
    Ok(())
}

#[test]
fn no_fabric_goes_on_from_such_a_login(rt: HostRuntime) -> Result<(), Fail> {
    let config = read_config(rt.alloc(), CONFIG.as_bytes())?;
    for (old, new, why) in [
        (
            "login 010100 2100001b2100000a",
            "login 010100 2100001b2100000c",
            FitWhy::Holder,
        ),
        ("a 1 001b", "a 3 001b", FitWhy::Port),
        ("1783036799000", "1783036800101", FitWhy::Heard),
        ("1783036799000", "1783036780099", FitWhy::Overdue),
        ("1783036760000", "1783036575099", FitWhy::Overdue),
        (" 2112", " 2110", FitWhy::Size),
        (" 1 2000", " 4 2000", FitWhy::Watch),
    ] {
        let text = replaced(rt.alloc(), old, new)?;
        let seam = read_seam(rt.alloc(), FIRST, COUNT, 2, text.as_bytes())?;
        let wanted = FitFault { line: 10, why };
        assert_eq!(rt; check_fit(&config, 2, &seam), Err(wanted), "{new}");
    }
    Ok(())
}

// The example with another text in the place of one that it has.
pub(crate) fn replaced(alloc: Global, old: &str, new: &str) -> Result<String, Fail> {
    match EXAMPLE.split_once(old) {
        Some((front, rest)) => Ok(format!(in alloc; "{front}{new}{rest}")?),
        None => Err(Fail::from("the example has no such text")),
    }
}
