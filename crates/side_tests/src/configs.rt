//! The text of refused memory, which no case can show.
use fab_config::ConfigError;
use std::test::Fail;

#[test]
fn refused_memory_has_a_text(rt: HostRuntime) -> Result<(), Fail> {
    let memory = ConfigError::Memory;
    let text = format!(in rt.alloc(); "{memory}")?;
    assert_eq!(rt; text.as_str(), "memory was refused");
    Ok(())
}
