//! Two threads take turns with one list.
ghost use Rattle.std.specs.Prelude.{◌≡◌, ◌≢◌, ℕ, Some};
ghost use Rattle.fab_turn.specs.Lock.{IsPassOf, IsIdle};

use super::*;
use fab_base::PortNo;
use std::alloc::Global;
use std::process::Abort;
use std::sync::Wait;
use std::test::*;
use std::thread;
use std::thread::Threads;

mod log;

use log::{Log, Note};

const TURNS: u64 = 50;

// Takes a turn, and adds a note where there is memory.
fn add<R: Wait>(rt: &R, lock: &TurnLock<Log>, pass: &mut Pass<Log>, port: PortNo, number: u64)
    requires { IsPassOf lock.now pass.old × IsIdle pass.old × (pass.old.port ≡ Some port) }
    ensures { IsPassOf lock.now pass.new × IsIdle pass.new × (pass.new.port ≡ Some port) }
{
    let mut log = lock.turn(rt, pass);
    if log.add(Note { port, number }) {
        lock.finish(pass, log);
    } else {
        lock.finish_without(pass, log);
    }
}

fn add_all<R: Wait>(rt: &R, lock: &TurnLock<Log>, mut pass: Pass<Log>, port: PortNo) -> Pass<Log>
    requires { IsPassOf lock.now pass × IsIdle pass × (pass.port ≡ Some port) }
    ensures { IsPassOf lock.now result × IsIdle result × (result.port ≡ Some port) }
{
    for number in 0..TURNS {
        add(rt, lock, &mut pass, port, number);
    }
    pass
}

fn two<R: Threads + Wait + Sync>(rt: &R, alloc: Global, one: PortNo, other: PortNo) -> Option<Log>
    requires { one ≢ other }
{
    let Ok((lock, mut root)) = TurnLock::open(alloc, Log::new(alloc)) else {
        return None;
    };
    let log = lock.turn(rt, &mut root);
    lock.finish_without(&mut root, log);
    let first = lock.split(&mut root, one);
    let second = lock.split(&mut root, other);
    let shared = &lock;
    let (first, second) = thread::join(
        rt,
        move || -> Pass<Log>
            requires { IsPassOf shared.now first × IsIdle first × (first.port ≡ Some one) }
            ensures { IsPassOf shared.entry.now result × IsIdle result × (result.port ≡ Some one) }
        { add_all(rt, shared, first, one) },
        move || -> Pass<Log>
            requires { IsPassOf shared.now second × IsIdle second × (second.port ≡ Some other) }
            ensures { IsPassOf shared.entry.now result × IsIdle result
                × (result.port ≡ Some other) }
        { add_all(rt, shared, second, other) },
    );
    lock.join(&mut root, first);
    lock.join(&mut root, second);
    Some(lock.close(root))
}

#[test]
fn two_threads_take_fifty_turns_each(rt: HostRuntime) -> Result<(), Fail> {
    let Some((one, other)) = PortNo::new(1).zip(PortNo::new(2)) else {
        return Err("two ports".into());
    };
    let log = two(&rt, rt.alloc(), one, other).ok_or("memory")?;
    assert_eq!(rt; log.len(), 100);
    assert!(rt; log.numbers_ascend(one) && log.numbers_ascend(other));
    Ok(())
}
