//! What follows of how far captures were read.
ghost use Rattle.window_records.specs.Laws.{
  LateEnds,
  LooksAhead,
  NextIsAhead,
  NextIsFirst,
  NoneIsLeft,
  ReadIsAll,
  ReadIsBelow,
  ReadSplits,
  ReadStays,
  ReadsOn,
  WindowMoves,
};

use crate::{steps_find_the_stop, stops_keep_what_is_before};

/// The looks that are left are those from the next window on: it is the window of the first of
/// them, and where it is too late they stop there. Without a next window there are none.
pub fn looks_to_come()
    ensures ahead { LooksAhead }
    ensures next { NextIsAhead }
    ensures first { NextIsFirst }
    ensures late { LateEnds }
    ensures none { NoneIsLeft }
{
    // Law: which look is a stop, and which looks stop later; the clauses late and ahead follow.
    steps_find_the_stop();
    stops_keep_what_is_before();
}

/// Taking the next window puts some record of it on a shelf, and fewer are left.
pub fn windows_move_on()
    ensures { WindowMoves }
{}

/// What was read grows by what is taken. It is a prefix of each capture's records, and at the end
/// all of them.
pub fn records_are_read()
    ensures on { ReadsOn }
    ensures stays { ReadStays }
    ensures below { ReadIsBelow }
    ensures splits { ReadSplits }
    ensures all { ReadIsAll }
{}
