//! Happy paths of what takes memory, and stores that refuse.
ghost use Rattle.std.specs.Prelude.{IfOk, IsTrue};
ghost use Rattle.fab_base.specs.MemDepot.{mem_seen};

use arrayvec::ArrayVec;
use fab_base::{
    Bytes, Depot, Failed, FcId, IdList, MemDepot, MemSink, NoMemory, OwnedList, Sink, append_made,
    append_reserved, put, put_all, say_all, word_at,
};
use std::alloc::Global;
use std::process::Abort;
use std::test::Fail;

#[test]
fn bytes_are_appended_where_they_were_made(rt: HostRuntime) -> Result<(), Fail> {
    let alloc = rt.alloc();
    let mut out = b"ab".to_vec(alloc)?;
    append_made(alloc, b"cd".to_vec(alloc), &mut out)?;
    assert_eq!(rt; out.as_slice(), b"abcd".as_slice());
    Ok(())
}

#[test]
fn bytes_are_appended_to_what_was_reserved(rt: HostRuntime) -> Result<(), Fail> {
    let mut reserved = Vec::with_capacity(rt.alloc(), 2)?;
    append_reserved(&mut reserved, b"ef");
    assert_eq!(rt; reserved.as_slice(), b"ef".as_slice());
    Ok(())
}

#[test]
fn bytes_are_put_behind_one_another(rt: HostRuntime) -> Result<(), Fail> {
    let mut list = ArrayVec::<u8, 3>::new();
    put(&mut list, b"g");
    put(&mut list, b"hi");
    assert_eq!(rt; list.as_slice(), b"ghi".as_slice());
    Ok(())
}

#[test]
fn bytes_are_those_that_were_copied(rt: HostRuntime) -> Result<(), Fail> {
    let bytes = Bytes::copy(rt.alloc(), b"abc")?;
    assert_eq!(rt; bytes.view(), b"abc".as_slice());
    Ok(())
}

#[test]
fn bytes_are_those_of_a_list(rt: HostRuntime) -> Result<(), Fail> {
    let bytes = Bytes::from_vec(b"de".to_vec(rt.alloc())?);
    assert_eq!(rt; bytes.view(), b"de".as_slice());
    Ok(())
}

#[test]
fn lists_keep_their_items(rt: HostRuntime) -> Result<(), Fail> {
    let alloc = rt.alloc();
    let address = FcId::new(0x01_0100).ok_or("an address")?;
    let mut list = IdList::new(alloc)?;
    assert_eq!(rt; list.len(), 0);
    list.push(alloc, address)?;
    assert_eq!(rt; list.len(), 1);
    assert_eq!(rt; list.at(0).copied(), Some(address));
    assert_eq!(rt; list.at(1).copied(), None);
    Ok(())
}

fn one_two_three(alloc: Global) -> Result<OwnedList<u8>, NoMemory> {
    let mut list = OwnedList::empty(alloc);
    list.push(alloc, 1)?;
    list.append(alloc, OwnedList::from_vec([2, 3].to_vec(alloc)?))?;
    Ok(list)
}

#[test]
fn lists_are_joined_and_shortened(rt: HostRuntime) -> Result<(), Fail> {
    let mut list = one_two_three(rt.alloc())?;
    assert_eq!(rt; list.len(), 3);
    assert_eq!(rt; list.pop(), Some(3));
    assert_eq!(rt; list.pop(), Some(2));
    assert_eq!(rt; list.at(0).copied(), Some(1));
    assert_eq!(rt; list.at(1).copied(), None);
    assert_eq!(rt; list.pop(), Some(1));
    assert_eq!(rt; list.pop(), None);
    Ok(())
}

fn named(alloc: Global, name: &str) -> Result<Vec<String>, NoMemory> {
    let mut words = Vec::new(alloc);
    words.push(String::from_str(alloc, name)?)?;
    Ok(words)
}

/// A depot with a file of this name and these bytes.
fn depot_of(alloc: Global, name: &str, bytes: &[u8]) -> Result<MemDepot, NoMemory> {
    let mut depot = MemDepot::new(alloc)?;
    depot.store(alloc, name, bytes)?;
    Ok(depot)
}

fn input(rt: &impl Abort, depot: &mut MemDepot, words: &[String]) -> Result<u32, Failed>
    ensures { IfOk result (λ slot. IsTrue ((mem_seen depot.new).input slot)) }
{
    assert!(rt; depot.knows_all(words));
    assert!(rt; words.len() == 1);
    depot.open_in(word_at(words, 0))
}

fn output(rt: &impl Abort, depot: &mut MemDepot, words: &[String]) -> Result<u32, Failed>
    ensures { IfOk result (λ slot. IsTrue ((mem_seen depot.new).output slot)) }
{
    assert!(rt; depot.knows_all(words));
    assert!(rt; words.len() == 1);
    depot.open_out(word_at(words, 0))
}

/// Two fetches of three bytes answer this, and leave these bytes in the buffer.
fn assert_fetched(
    rt: &impl Abort,
    depot: &mut MemDepot,
    words: &[String],
    wants: [Result<usize, Failed>; 2],
    bytes: &[u8; 3],
) -> Result<(), Failed> {
    let input = input(rt, depot, words)?;
    let mut buffer = [0; 3];
    assert_eq!(rt; depot.fetch(input, &mut buffer), wants[0]);
    assert_eq!(rt; depot.fetch(input, &mut buffer), wants[1]);
    assert_eq!(rt; buffer, *bytes);
    Ok(())
}

#[test]
fn a_file_is_fetched_in_pieces(rt: HostRuntime) -> Result<(), Fail> {
    let words = named(rt.alloc(), "in")?;
    let mut depot = depot_of(rt.alloc(), "in", b"abcde")?;
    assert_fetched(&rt, &mut depot, &words, [Ok(3), Ok(2)], b"dec")?;
    assert_fetched(&rt, &mut depot, &words, [Ok(3), Ok(2)], b"dec")?;
    Ok(())
}

#[test]
fn a_fetch_fails_where_it_is_told(rt: HostRuntime) -> Result<(), Fail> {
    let words = named(rt.alloc(), "in")?;
    let mut depot = depot_of(rt.alloc(), "in", b"abcde")?;
    depot.fail_call(rt.alloc(), 1)?;
    assert_fetched(&rt, &mut depot, &words, [Err(Failed), Ok(3)], b"abc")?;
    Ok(())
}

/// Two puts answer this, and leave these bytes in the file.
fn assert_put(
    rt: &impl Abort,
    depot: &mut MemDepot,
    words: &[String],
    wants: [Result<(), Failed>; 2],
    bytes: &[u8],
) -> Result<(), Failed> {
    let output = output(rt, depot, words)?;
    assert_eq!(rt; put_all(depot, output, b"new"), wants[0]);
    assert_eq!(rt; put_all(depot, output, b"er"), wants[1]);
    assert_eq!(rt; depot.content("out"), Some(bytes));
    Ok(())
}

#[test]
fn an_output_is_emptied(rt: HostRuntime) -> Result<(), Fail> {
    let words = named(rt.alloc(), "out")?;
    let mut depot = depot_of(rt.alloc(), "out", b"old")?;
    assert_put(&rt, &mut depot, &words, [Ok(()), Ok(())], b"newer")?;
    Ok(())
}

#[test]
fn a_put_fails_where_it_is_told(rt: HostRuntime) -> Result<(), Fail> {
    let words = named(rt.alloc(), "out")?;
    let mut depot = depot_of(rt.alloc(), "out", b"old")?;
    depot.fail_call(rt.alloc(), 1)?;
    assert_put(&rt, &mut depot, &words, [Err(Failed), Ok(())], b"er")?;
    Ok(())
}

#[test]
fn a_name_without_a_file_is_not_opened(rt: HostRuntime) -> Result<(), Fail> {
    let words = named(rt.alloc(), "missing")?;
    let mut depot = depot_of(rt.alloc(), "in", b"")?;
    assert!(rt; !depot.knows_all(&words));
    assert_eq!(rt; depot.content("in"), Some(b"".as_slice()));
    depot.know(rt.alloc(), "missing")?;
    assert!(rt; input(&rt, &mut depot, &words).is_err());
    assert_eq!(rt; depot.content("missing"), None);
    Ok(())
}

#[test]
fn a_sink_in_memory_takes_what_fits(rt: HostRuntime) -> Result<(), Fail> {
    for (room, first, second, want) in [
        (0, Err(Failed), Err(Failed), b"".as_slice()),
        (2, Ok(2), Err(Failed), b"ab".as_slice()),
        (4, Ok(3), Err(Failed), b"abcd".as_slice()),
        (5, Ok(3), Ok(()), b"abcde".as_slice()),
    ] {
        let mut sink = MemSink::new(rt.alloc(), room)?;
        assert_eq!(rt; sink.put(b"abc"), first);
        assert_eq!(rt; say_all(&mut sink, b"de"), second);
        assert_eq!(rt; sink.content(), want);
    }
    Ok(())
}
