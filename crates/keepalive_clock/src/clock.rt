//! The clock: voices with their last moments, each at a place of its own, and the places by voice
//! and by deadline.
ghost use Rattle.std.specs.Prelude.{◌≡◌, ℕ, ◌+◌, ◌<◌, ◌≤◌, ◌^◌, ◌⊎◌, if◌then◌else◌, length, IfOk, IfSome, MatchOption, IfNone, Some, None, [], ◌∷◌, IsTrue, false, is_some, OnSome, ◌↔◌, IsPermutation};
ghost use Rattle.keepalive_clock.specs.Voices.{same_voice};
ghost use Rattle.keepalive_clock.specs.Clock.{last_of, count_with, without, HearsVoice, ForgetsVoice, KeepsLimits, IsSound};
ghost use Rattle.keepalive_clock.specs.Order.{IsWhole};
ghost use Rattle.keepalive_clock.specs.Clock.{is_silent_voice, has_silent, HasSilent, IsFirstSilence};

use crate::orders::{ByDue, ByVoice, hear_again};
use crate::{LastHeard, Steps, Voice};
use fab_base::{Moment, NoMemory};
use slab::Slab;
use sorted_lists::{order_find, order_put, order_take};
use std::alloc::Global;
use std::marker::Model;
use std::sync::ledger::Ledger;

/// When each voice was last heard. No voice comes twice.
#[derive(Debug)]
pub struct KeepClock {
    order: ByDue,
    room: u32,
    records: Slab<LastHeard>,
    // The places of the records, by their voices' numbers.
    by_voice: Vec<usize>,
    // Those places in descending order of the deadlines, so that the first one is the last.
    by_due: Vec<usize>,
}

impl Drop for KeepClock {
    // By hand, so that it is dropped by one call.
    fn drop(self) {
        let KeepClock {
            order: _,
            room: _,
            records: _records,
            by_voice: _by_voice,
            by_due: _by_due,
        } = self;
    }
}

impl Model for KeepClock {
    ghost use Rattle.sorted_lists.specs.Orders.{seen};
    ghost use Rattle.keepalive_clock.specs.Clock.{VoiceClock};

    ghost Value = { VoiceClock };

    ghost use Rattle.keepalive_clock.specs.Order.{IsClockKept};

    ghost view = { λ c. record {
      node_period = c.order.node_period;
      port_period = c.order.port_period;
      room = c.room;
      voices = seen c.records c.by_voice.items;
    } };

    ghost invariant = { λ c. IsClockKept c.order.node_period
        c.order.port_period
        c.room
        c.records
        c.by_voice
        c.by_due };
}

impl KeepClock {
    /// A clock without voices and with room for so many. Periods are in milliseconds.
    pub fn new(
        alloc: Global,
        node_period: u32,
        port_period: u32,
        room: u32,
    ) -> Result<KeepClock, NoMemory>
        ensures { IfOk result (λ c. c ≡ record {
          node_period = node_period;
          port_period = port_period;
          room = room;
          voices = [];
        }) }
    {
        let records = Slab::with_capacity(alloc, room as usize)?;
        let by_voice = Vec::with_capacity(alloc, room as usize)?;
        let by_due = Vec::with_capacity(alloc, room as usize)?;
        Ok(KeepClock {
            order: ByDue {
                node_period,
                port_period,
            },
            room,
            records,
            by_voice,
            by_due,
        })
    }

    /// The voice was heard at this moment.
    pub fn heard(&mut self, voice: Voice, now: Moment)
        requires range { now < 2 ^ 63 }
        requires room { IsTrue (is_some (last_of voice self.old.voices))
            ⊎ (length self.old.voices < self.old.room) }
        ensures limits { KeepsLimits self.old self.new }
        ensures voices { IsPermutation (record { voice = voice; last = now }
            ∷ without voice self.old.voices) self.new.voices }
        ensures count { length self.new.voices ≡ count_with voice self.old.voices }
        ensures sound { IsSound self.new }
        ensures last { HearsVoice voice now self.old.voices self.new.voices }
    {
        let number = voice.number() as u128;
        match order_find(&ByVoice, &self.records, &self.by_voice, number) {
            Some(place) => {
                hear_again(&self.order, &mut self.records, &mut self.by_due, place, now);
            }
            None => {
                let place = self.records.insert_reserved(LastHeard { voice, last: now });
                order_put(&ByVoice, &self.records, &mut self.by_voice, place);
                order_put(&self.order, &self.records, &mut self.by_due, place);
            }
        }
    }

    /// Forgets a voice. False where it isn't there.
    pub fn forget(&mut self, voice: Voice) -> bool
        ensures there { result ≡ is_some (last_of voice self.old.voices) }
        ensures voices { self.new ≡ record self.old { voices = without voice self.old.voices } }
        ensures last { ForgetsVoice voice self.old.voices self.new.voices }
        ensures count { length self.new.voices + 1 ≡ count_with voice self.old.voices }
        ensures sound { IsSound self.new }
        ensures absent { result ≡ false → self.new ≡ self.old }
    {
        self.remove_voice(&voice)
    }

    /// When the voice was last heard.
    pub fn last(&self, voice: &Voice) -> Option<Moment>
        ensures moment { result ≡ last_of voice.now self.now.voices }
        ensures sound { IsSound self.now }
    {
        let number = voice.number() as u128;
        match order_find(&ByVoice, &self.records, &self.by_voice, number) {
            Some(place) => Some(self.records[place].last),
            None => None,
        }
    }

    /// The least moment at which some voice is silent too long.
    pub fn due(&self) -> Option<Moment>
        ensures first { MatchOption result (self.now.voices ≡ [])
            (λ moment. IsFirstSilence self.now moment) }
        ensures silent { (now : ℕ) → IsTrue (has_silent self.now now) ↔ HasSilent self.now now }
        ensures sound { IsSound self.now }
    {
        match self.by_due.last() {
            Some(place) => Some(Moment(self.order.due(&self.records[*place]) as u64)),
            None => None,
        }
    }

    /// Takes out a voice that is silent too long.
    pub fn pop_due<L: Ledger>(&mut self, now: Moment, steps: &mut Steps<L>) -> Option<Voice>
        ensures step { steps.new ≡ steps.old + 1 }
        ensures some { is_some result ≡ has_silent self.old now }
        ensures silent { IfSome result (λ voice. IsTrue (is_silent_voice self.old now voice)) }
        ensures taken { IfSome result (λ voice. self.new
            ≡ record self.old { voices = without voice self.old.voices }) }
        ensures last { IfSome result (λ voice. ForgetsVoice voice self.old.voices self.new.voices) }
        ensures count { OnSome result (length self.old.voices ≡ length self.new.voices + 1) }
        ensures none { IfNone result (self.new ≡ self.old) }
        ensures sound { IsSound self.new }
    {
        steps.tick();
        let Some(place) = self.by_due.last() else {
            return None;
        };
        let first = self.records[*place];
        if self.order.due(&first) > now.0 as u128 {
            return None;
        }
        self.remove_voice(&first.voice);
        Some(first.voice)
    }

    fn remove_voice(&mut self, voice: &Voice) -> bool
        ensures there { result ≡ is_some (last_of voice.now self.old.voices) }
        ensures voices { self.new ≡ record self.old { voices = without voice.now self.old.voices } }
        ensures sound { IsSound self.new }
        ensures absent { result ≡ false → self.new ≡ self.old }
        ensures was_sound { IsSound self.old }
        ensures whole { IsWhole voice.now }
    {
        let number = voice.number() as u128;
        match order_find(&ByVoice, &self.records, &self.by_voice, number) {
            Some(place) => {
                order_take(&self.order, &self.records, &mut self.by_due, place);
                order_take(&ByVoice, &self.records, &mut self.by_voice, place);
                self.records.remove(place);
                true
            }
            None => false,
        }
    }
}
