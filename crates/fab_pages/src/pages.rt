//! Pages: for each port the bytes that its output grows by next.
ghost use Rattle.std.specs.Prelude.{◌≡◌, ◌-◌, ◌<◌, ◌≤◌, ◌^◌, ◌++◌, ◌∷◌, [], length, take, drop, OnOk, OnErr, IsTrue};
ghost use Rattle.fab_base.specs.Layout.{spelled_low};
ghost use Rattle.pcap_file.specs.Capture.{record_bytes};
ghost use Rattle.fab_policy.specs.Text.{sent_bytes};
ghost use Rattle.fab_sending.specs.Message.{can_send};
ghost use Rattle.fab_pages.specs.Pages.{AreEarly, GrowBy, GoesOn, Writes, items_in, sent_by, sents_of};

use crate::cuts::{cut_all, lengths_of};
use fab_base::{Moment, NoMemory};
use fab_config::Config;
use forward_core::{Drained, Out, write_out};
use pcap_file::{LAST_SECOND, RECORD_HEAD};
use std::alloc::Global;

/// Where the first of the two lengths of a record stands in it.
const LENGTH_AT: usize = 8;

/// What a fabric made, and the configuration by which its frames are sent.
#[derive(Clone, Copy)]
pub struct Sendings<'a> {
    pub config: &'a Config,
    pub drained: &'a Drained,
}

impl Sendings<'_> {
    /// Appends the record of each frame that is sent to the page of its port, pages being in port
    /// order. A frame's bytes are copied once, from its entry into the page. Where memory is
    /// refused the pages have what they had.
    pub fn write_records(&self, alloc: Global, pages: &mut [Vec<u8>]) -> Result<(), NoMemory>
        requires { AreEarly self.now.drained.now.outs }
        ensures { Writes (sents_of self.now) pages.old pages.new result }
    {
        let lengths = lengths_of(alloc, pages)?;
        match self.write_each(alloc, pages) {
            Ok(()) => Ok(()),
            Err(NoMemory) => {
                cut_all(&lengths, pages);
                Err(NoMemory)
            }
        }
    }

    // The same; where memory is refused, behind the pages stands some of it.
    fn write_each(&self, alloc: Global, pages: &mut [Vec<u8>]) -> Result<(), NoMemory>
        requires { AreEarly self.now.drained.now.outs }
        ensures { GrowBy (sents_of self.now) (items_in pages.old) (items_in pages.new) result }
    {
        for index in 0..self.drained.outs.len() {
            let Some(out) = self.drained.outs.at(index) else {
                unreachable!()
            };
            self.write_to_port(alloc, out, pages)?;
        }
        Ok(())
    }

    // Appends the record of a frame that is sent to the page of its port; other ports have none.
    fn write_to_port(&self, alloc: Global, out: &Out, pages: &mut [Vec<u8>]) -> Result<(), NoMemory>
        requires can { IsTrue (can_send self.now.drained.now.events out.now.message) }
        requires early { out.now.moment < 2 ^ 53 }
        ensures { GrowBy (sent_by self.now out.now ∷ []) (items_in pages.old)
            (items_in pages.new) result }
    {
        let port = out.port.index();
        if port >= pages.len() {
            return Ok(());
        }
        self.write_sent(alloc, out, &mut pages[port])?;
        Ok(())
    }

    // Appends the record of a frame that is sent. Its lengths are set once the frame stands there,
    // so that no byte of a frame is copied twice.
    pub(crate) fn write_sent(
        &self,
        alloc: Global,
        out: &Out,
        page: &mut Vec<u8>,
    ) -> Result<(), NoMemory>
        requires can { IsTrue (can_send self.now.drained.now.events out.now.message) }
        requires early { out.now.moment < 2 ^ 53 }
        ensures ok { OnOk result (page.new.items
            ≡ page.old.items ++ sent_bytes (sent_by self.now out.now)) }
        ensures front { GoesOn page.old.items page.new.items }
    {
        let begin = page.len();
        write_front(out.moment, page)?;
        write_out(alloc, self.config, &self.drained.events, out, page)?;
        set_length(&mut page[begin..]);
        Ok(())
    }
}

// Appends what stands before a frame that is sent at a moment: its time, and lengths of 0. Where
// memory is refused nothing is appended.
fn write_front(moment: Moment, page: &mut Vec<u8>) -> Result<(), NoMemory>
    requires { moment < 2 ^ 53 }
    ensures ok { OnOk result (page.new.items ≡ page.old.items ++ record_bytes moment []) }
    ensures err { OnErr result (page.new.items ≡ page.old.items) }
{
    page.extend_from_slice(&front_of(moment))?;
    Ok(())
}

// The record of a frame without bytes at a moment.
fn front_of(moment: Moment) -> [u8; RECORD_HEAD]
    requires { moment < 2 ^ 53 }
    ensures { result ≡ record_bytes moment [] }
{
    let seconds = (moment.0 / 1000).min(LAST_SECOND);
    let micros = (moment.0 - seconds * 1000) * 1000;
    let mut front = [0; RECORD_HEAD];
    front[..4].copy_from_slice(&seconds.to_le_bytes()[..4]);
    front[4..LENGTH_AT].copy_from_slice(&micros.to_le_bytes()[..4]);
    front
}

// Sets both lengths of a record to that of the frame in it.
fn set_length(stored: &mut [u8])
    requires least { 16 ≤ length stored.old }
    requires most { length stored.old ≤ 65551 }
    ensures { stored.new ≡ take 8 stored.old ++ spelled_low 4 (length stored.old - 16)
        ++ spelled_low 4 (length stored.old - 16) ++ drop 16 stored.old }
{
    let length = ((stored.len() - RECORD_HEAD) as u32).to_le_bytes();
    stored[LENGTH_AT..LENGTH_AT + 4].copy_from_slice(&length);
    stored[LENGTH_AT + 4..RECORD_HEAD].copy_from_slice(&length);
}
