//! What is read of a frame and sent in answer to it by the configuration alone (FC-BB-5, "FIP VLAN
//! discovery", "FIP discovery").
ghost use Rattle.case_lines.specs.Printing.{Grows};
ghost use Rattle.std.specs.Prelude.{◌≡◌, ◌<◌, ◌⊎◌};

use case_lines::{put, word_at};
use fab_base::{Bytes, Caught, PortNo};
use fab_config::{Config, ConfigError, read_config};
use fab_policy::{Verdict, frame_rule, write_frame_line};
use fab_sending::{write_advertisement, write_advertisement_to, write_notice_to};
use heard_frames::hear;
use std::alloc::Global;
use table_cases::say::{end, end_hex};
use table_cases::words::{CaseFault, hex, mac, name_at, short};

/// The text of a configuration so far, and the configuration.
#[derive(Drop)]
pub struct Settings {
    pub text: Vec<u8>,
    config: Option<Config>,
}

impl Settings {
    /// No text, and no configuration.
    pub fn new(alloc: Global) -> Settings {
        Settings {
            text: Vec::new(alloc),
            config: None,
        }
    }

    /// `config` alone reads the lines before it; else it is one more line of the text.
    pub(crate) fn call(
        &mut self,
        alloc: Global,
        line: &[u8],
        out: &mut Vec<u8>,
    ) -> Result<(), CaseFault>
        ensures grows { Grows out.old.items out.new.items }
        ensures one { (self.new.text ≡ self.old.text) ⊎ (self.new.config ≡ self.old.config) }
    {
        match name_at(line, 1) {
            "" => self.read(alloc, out),
            "new" => {
                self.text.clear();
                end(out, "new")
            }
            _ => {
                put(&mut self.text, line.get(7..).unwrap_or(&[]))?;
                put(&mut self.text, b"\n")?;
                end(out, "noted")
            }
        }
    }

    fn read(&mut self, alloc: Global, out: &mut Vec<u8>) -> Result<(), CaseFault>
        ensures grows { Grows out.old.items out.new.items }
        ensures text { self.new.text ≡ self.old.text }
    {
        self.config = Some(config_of(alloc, &self.text)?);
        end(out, "read")
    }

    /// The configuration that was read last.
    pub(crate) fn config(&self) -> Result<&Config, CaseFault> {
        match &self.config {
            Some(config) => Ok(config),
            None => Err(CaseFault::Closed),
        }
    }
}

/// The configuration of a text.
pub fn config_of(alloc: Global, text: &[u8]) -> Result<Config, CaseFault> {
    match read_config(alloc, text) {
        Ok(config) => Ok(config),
        Err(ConfigError::Memory) => Err(CaseFault::Memory),
        Err(_) => Err(CaseFault::Refused),
    }
}

/// A frame that was captured, whole or not.
pub fn caught(alloc: Global, line: &[u8], place: usize) -> Result<Caught, CaseFault>
    requires { place < 1000 }
{
    let whole = word_at(line, place) != b"cut".as_slice();
    let bytes = hex(alloc, line, place + 1)?;
    Ok(Caught { bytes, whole })
}

/// `rule whole|cut FRAME`: the verdict by the rules on the frame itself, or `none`.
pub(crate) fn rule_call(
    alloc: Global,
    config: &Config,
    line: &[u8],
    out: &mut Vec<u8>,
) -> Result<(), CaseFault>
    ensures grows { Grows out.old.items out.new.items }
{
    let caught = caught(alloc, line, 1)?;
    match frame_rule(config, &hear(&caught)) {
        Some(cause) => {
            write_frame_line(alloc, PortNo::at(0), 0, &Verdict::Dropped(cause), out)?;
            Ok(())
        }
        None => end(out, "none"),
    }
}

/// `reply notice MAC tagged|untagged`, `reply solicited MAC SIZE`, `reply advertisement`, and
/// `reply twice`, two advertisements one behind the other. They stand behind a byte 07.
pub(crate) fn reply_call(
    alloc: Global,
    config: &Config,
    line: &[u8],
    out: &mut Vec<u8>,
) -> Result<(), CaseFault>
    ensures grows { Grows out.old.items out.new.items }
{
    let mut bytes = Vec::new(alloc);
    bytes.push(7)?;
    replied(alloc, config, line, &mut bytes)?;
    end_hex(out, &bytes)
}

fn replied(
    alloc: Global,
    config: &Config,
    line: &[u8],
    bytes: &mut Vec<u8>,
) -> Result<(), CaseFault> {
    match name_at(line, 1) {
        "notice" => {
            let untagged = name_at(line, 3) == "untagged";
            write_notice_to(alloc, config, mac(line, 2)?, untagged, bytes)?;
        }
        "solicited" => {
            write_advertisement_to(alloc, config, mac(line, 2)?, short(line, 3)?, bytes)?;
        }
        "advertisement" => write_advertisement(alloc, config, bytes)?,
        "twice" => {
            write_advertisement(alloc, config, bytes)?;
            write_advertisement(alloc, config, bytes)?;
        }
        _ => return Err(CaseFault::Words),
    }
    Ok(())
}
