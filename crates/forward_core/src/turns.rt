//! The turns of frames, one for each kind of judgement: what the frame sends is made first, then
//! the entry is kept, and then the tables change, which takes no memory.
#![tactic(auto, using(crate::proofs::FrameLemmas::carried_takes))]

ghost use Rattle.std.specs.Prelude.{◌≡◌, IsTrue};
ghost use Rattle.fab_judge.specs.declared.judging.Judged.TheVariants as judged;
ghost use Rattle.fab_policy.specs.Classes.{of_replied, of_settled};
ghost use Rattle.fab_policy.specs.Free.{is_free};
ghost use Rattle.fab_policy.specs.declared.verdict.Verdict.TheVariants.{Answered, Granted, Registered};
ghost use Rattle.forward_core.specs.Turns.{IsJudged, TakesOrStays};

use crate::Fabric;
use crate::arrived::Arrived;
use crate::carrying::{carry_out, carry_out_reply, grant, register};
use ct_messages::{CtAsk, CtTell};
use fab_base::{FcId, NoMemory};
use fab_judge::Candidate;
use fab_policy::{Asker, Replied, Settled, Verdict, tables_change};
use fab_sending::{Grant, answer_sends, frame_sends, grant_sends, registration_sends, reply_sends};
use std::alloc::Global;

impl Fabric {
    // A settled verdict.
    pub(crate) fn settle(
        &mut self,
        alloc: Global,
        arrived: &Arrived<'_>,
        verdict: &Settled,
    ) -> Result<(), NoMemory>
        requires { IsJudged self.old.settings self.old.state.tables arrived.now
            (judged.Must verdict.now) (of_settled verdict.now) }
        ensures { TakesOrStays self.old arrived.now (of_settled verdict.now) result self.new }
    {
        let sends = frame_sends(alloc, &self.before(), arrived.port, self.place(), *verdict)?;
        self.keep_frame(alloc, arrived, verdict.verdict(), sends)?;
        carry_out(&mut self.roster, arrived, *verdict);
        Ok(())
    }

    // A verdict that is replied to the sender of the frame.
    pub(crate) fn reply(
        &mut self,
        alloc: Global,
        arrived: &Arrived<'_>,
        verdict: &Replied,
        to: Asker,
    ) -> Result<(), NoMemory>
        requires { IsJudged self.old.settings self.old.state.tables arrived.now
            (judged.Replied verdict.now to) (of_replied verdict.now) }
        ensures { TakesOrStays self.old arrived.now (of_replied verdict.now) result self.new }
    {
        let sends = reply_sends(alloc, &self.before(), arrived.port, *verdict, to)?;
        self.keep_frame(alloc, arrived, verdict.verdict(), sends)?;
        carry_out_reply(&mut self.roster, arrived, *verdict, to);
        Ok(())
    }

    // A login is granted an address that is free for it.
    pub(crate) fn log_in(
        &mut self,
        alloc: Global,
        arrived: &Arrived<'_>,
        login: &Candidate,
        address: FcId,
    ) -> Result<(), NoMemory>
        requires judged { IsJudged self.old.settings self.old.state.tables arrived.now
            (judged.MayGrant login.now) (Granted address) }
        requires free { IsTrue (is_free self.old.state.tables login.now.request address) }
        ensures { TakesOrStays self.old arrived.now (Granted address) result self.new }
    {
        let granted = Grant {
            request: &login.request,
            to: login.to,
            kind: login.kind,
            several: login.several,
            address,
            ended: &login.ended,
        };
        let sends = grant_sends(alloc, &self.before(), arrived.port, &granted)?;
        self.keep_frame(alloc, arrived, Verdict::Granted(address), sends)?;
        grant(
            &mut self.roster,
            arrived,
            &login.request,
            login.node,
            address,
            &login.ended,
        );
        Ok(())
    }

    // A live N_Port registers what its request says.
    pub(crate) fn register(
        &mut self,
        alloc: Global,
        arrived: &Arrived<'_>,
        to: Asker,
        ask: &CtAsk<'_>,
    ) -> Result<(), NoMemory>
        requires { IsJudged self.old.settings self.old.state.tables arrived.now
            (judged.Registers to ask.now) Registered }
        ensures { TakesOrStays self.old arrived.now Registered result self.new }
    {
        let sends = registration_sends(alloc, &self.before(), arrived.port, to, ask)?;
        self.keep_frame(alloc, arrived, Verdict::Registered, sends)?;
        register(&mut self.roster, arrived, to, ask);
        Ok(())
    }

    // A query of a live N_Port gets its answer, in frames of the receive size that it gave.
    pub(crate) fn answer(
        &mut self,
        alloc: Global,
        arrived: &Arrived<'_>,
        to: Asker,
        tell: &CtTell,
        size: u16,
    ) -> Result<(), NoMemory>
        requires { IsJudged self.old.settings self.old.state.tables arrived.now
            (judged.Answers to tell.now size) Answered }
        ensures { TakesOrStays self.old arrived.now Answered result self.new }
    {
        // Law: an answer leaves the tables as they are.
        tables_change();
        let sends = answer_sends(alloc, &self.before(), arrived.port, to, tell, size)?;
        self.keep_frame(alloc, arrived, Verdict::Answered, sends)?;
        // For the proof: the roster is the one before.
        let _ = &self.roster;
        Ok(())
    }
}
