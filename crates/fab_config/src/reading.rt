//! Reading a configuration text.
ghost use Rattle.std.specs.Prelude.{◌≡◌, ◌≤◌, [], Err, IfErr, OnOk, length};
ghost use Rattle.fab_config.specs.Fitting.{Fits};
ghost use Rattle.fab_config.specs.Lines.{lines_of};
ghost use Rattle.fab_config.specs.Text.{decoded, lines_read, NOTHING};
ghost use Rattle.fab_config.specs.Told.{AnswersText, text_error};

use crate::draft::Draft;
use crate::words::cut_line;
use crate::{Config, ConfigFault, ConfigWhy};
use fab_base::NoMemory;
use std::alloc::Global;
use thiserror::Error;

/// Why no configuration was read.
#[derive(Clone, Copy, Debug, PartialEq, Eq, Error)]
pub enum ConfigError {
    /// The text is no configuration, and this is its first fault.
    #[error(transparent)]
    Fault(ConfigFault),
    /// Memory was refused.
    #[error("memory was refused")]
    Memory,
}

impl From<ConfigFault> for ConfigError {
    ghost use Rattle.std.specs.Prelude.{◌≡◌};
    ghost use Rattle.fab_config.specs.declared.reading.ConfigError.TheVariants.{Fault};

    ghost from_gives = { λ fault e. e ≡ Fault fault };

    fn from(fault: ConfigFault) -> ConfigError {
        ConfigError::Fault(fault)
    }
}

/// Why a line was not read.
#[derive(Clone, Copy)]
pub(crate) enum LineError {
    Fault(ConfigWhy),
    Memory,
}

impl From<ConfigWhy> for LineError {
    ghost use Rattle.std.specs.Prelude.{◌≡◌};
    ghost use Rattle.fab_config.specs.declared.reading.LineError.TheVariants.{Fault};

    ghost from_gives = { λ why e. e ≡ Fault why };

    fn from(why: ConfigWhy) -> LineError {
        LineError::Fault(why)
    }
}

impl From<NoMemory> for LineError {
    ghost use Rattle.std.specs.Prelude.{◌≡◌};
    ghost use Rattle.fab_config.specs.declared.reading.LineError.TheVariants.{Memory};

    ghost from_gives = { λ _ e. e ≡ Memory };

    fn from(_refused: NoMemory) -> LineError {
        LineError::Memory
    }
}

/// The most bytes of a text.
const MOST_TEXT: usize = 1048576;

/// The value of a configuration text, or its first fault.
pub fn read_config(alloc: Global, text: &[u8]) -> Result<Config, ConfigError>
    ensures { AnswersText result (decoded text.now) }
{
    check_length(text)?;
    read_lines(alloc, text)
}

// Refuses a text that is too long.
#[tactic(auto, unfolding(crate::specs::Text::decoded))]
fn check_length(text: &[u8]) -> Result<(), ConfigFault>
    ensures within { OnOk result (length text.now ≤ 1048576) }
    ensures lines { OnOk result (decoded text.now ≡ lines_read 1 NOTHING (lines_of text.now)) }
    ensures long { IfErr result (λ fault. decoded text.now ≡ Err fault) }
{
    if text.len() > MOST_TEXT {
        return Err(ConfigFault {
            line: 0,
            why: ConfigWhy::Long,
        });
    }
    Ok(())
}

// The value of the lines of a text.
fn read_lines(alloc: Global, text: &[u8]) -> Result<Config, ConfigError>
    requires { length text.now ≤ 1048576 }
    ensures { AnswersText result (lines_read 1 NOTHING (lines_of text.now)) }
{
    let Ok(mut draft) = Draft::new(alloc) else {
        return Err(ConfigError::Memory);
    };
    let mut rest = text;
    let mut line = 1;
    while !rest.is_empty() {
        let (words, more) = cut_line(rest);
        draft = match draft.with_line(alloc, words) {
            Ok(draft) => draft,
            Err(error) => return Err(text_error(line, error)),
        };
        rest = more;
        line += 1;
    }
    Ok(finished(draft, line)?)
}

// The value of a draft behind which no line is left, unless a required key is missing.
fn finished(draft: Draft, line: u32) -> Result<Config, ConfigFault>
    requires { Fits draft }
    ensures { result ≡ lines_read line draft [] }
{
    draft.finish().ok_or(ConfigFault {
        line,
        why: ConfigWhy::Missing,
    })
}

// What an error of a line is to the text.
fn text_error(line: u32, error: LineError) -> ConfigError
    ensures { result ≡ text_error line error }
{
    match error {
        LineError::Fault(why) => ConfigError::Fault(ConfigFault { line, why }),
        LineError::Memory => ConfigError::Memory,
    }
}
