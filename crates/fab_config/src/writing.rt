//! Writing a configuration text.
ghost use Rattle.std.specs.Prelude.{◌≡◌, ◌<◌, ◌++◌, ◌∷◌, [], IfOk, OnOk, OnErr, flat_map, codes};
ghost use Rattle.fab_base.specs.Layout.{spelled};
ghost use Rattle.fab_base.specs.Texts.{hex};
ghost use Rattle.fab_config.specs.Names.{zone_names, set_names};
ghost use Rattle.fab_config.specs.Written as spec;

use crate::{Activation, ActivationList, Config, SetList, Zone, ZoneList, ZoneSet};
use fab_base::{Bytes, Mac, NoMemory, Wwn, append_made};
use std::alloc::{AllocError, Global};

/// Appends the text of a configuration: each key in the order of the table, then zones, zone sets
/// and activations.
pub fn write_config(alloc: Global, config: &Config, out: &mut Vec<u8>) -> Result<(), NoMemory>
    ensures ok { OnOk result (out.new.items ≡ out.old.items ++ spec.written config.now) }
    ensures err { OnErr result (out.new.items ≡ out.old.items) }
{
    append_made(alloc, text_of(alloc, config), out)
}

#[tactic(auto, unfolding(crate::specs::Written::written))]
fn text_of(alloc: Global, config: &Config) -> Result<Vec<u8>, AllocError>
    ensures { IfOk result (λ v. v.items ≡ spec.written config.now) }
{
    let mut text = Vec::new(alloc);
    write_addresses(alloc, config, &mut text)?;
    write_numbers(alloc, config, &mut text)?;
    write_zones(&config.zones, &mut text)?;
    write_sets(&config.zones, &config.sets, &mut text)?;
    write_activations(alloc, &config.sets, &config.activations, &mut text)?;
    Ok(text)
}

// The lines of MAC, VLAN, name and FC-MAP.
fn write_addresses(alloc: Global, config: &Config, out: &mut Vec<u8>) -> Result<(), AllocError>
    ensures { OnOk result (out.new.items ≡ out.old.items ++ spec.addresses_text config.now) }
{
    write_mac(&config.fcf_mac, out)?;
    write_number(alloc, b"vlan", u64::from(config.vlan), out)?;
    write_switch(&config.switch, out)?;
    write_fc_map(config.fc_map, out)
}

fn write_mac(mac: &Mac, out: &mut Vec<u8>) -> Result<(), AllocError>
    ensures { OnOk result (out.new.items
        ≡ out.old.items ++ spec.line_text (codes "fcf-mac") (spec.octets_text mac.now ∷ [])) }
{
    write_octets(b"fcf-mac", &mac.0, out)
}

fn write_switch(name: &Wwn, out: &mut Vec<u8>) -> Result<(), AllocError>
    ensures { OnOk result (out.new.items
        ≡ out.old.items ++ spec.line_text (codes "switch") (spec.name_text name.now ∷ [])) }
{
    write_octets(b"switch", &name_bytes(name), out)
}

fn write_fc_map(map: u32, out: &mut Vec<u8>) -> Result<(), AllocError>
    ensures { OnOk result (out.new.items
        ≡ out.old.items
        ++ spec.line_text (codes "fc-map") (spec.octets_text (spelled 3 map) ∷ [])) }
{
    write_octets(b"fc-map", &map.to_be_bytes()[1..], out)
}

// The eight bytes of a name.
fn name_bytes(name: &Wwn) -> [u8; 8]
    ensures { result ≡ spelled 8 name.now }
{
    name.0.to_be_bytes()
}

// The lines of the other numbers.
fn write_numbers(alloc: Global, config: &Config, out: &mut Vec<u8>) -> Result<(), AllocError>
    ensures { OnOk result (out.new.items ≡ out.old.items ++ spec.numbers_text config.now) }
{
    write_number(alloc, b"domain", u64::from(config.domain), out)?;
    write_number(alloc, b"pool", u64::from(config.pool), out)?;
    write_number(alloc, b"priority", u64::from(config.priority), out)?;
    write_number(alloc, b"period", u64::from(config.period), out)?;
    write_number(alloc, b"window", u64::from(config.window), out)?;
    write_number(alloc, b"limit", u64::from(config.limit), out)
}

fn write_number(alloc: Global, key: &[u8], number: u64, out: &mut Vec<u8>) -> Result<(), AllocError>
    ensures { OnOk result (out.new.items ≡ out.old.items ++ spec.number_line key.now number) }
{
    let words = format!(in alloc; " {number}\n")?;
    out.extend_from_slice(key)?;
    out.extend_from_slice(words.as_bytes())
}

fn write_octets(key: &[u8], bytes: &[u8], out: &mut Vec<u8>) -> Result<(), AllocError>
    ensures { OnOk result (out.new.items
        ≡ out.old.items ++ spec.line_text key.now (spec.octets_text bytes.now ∷ [])) }
{
    out.extend_from_slice(key)?;
    out.extend_from_slice(b" ")?;
    put_octets(bytes, out)?;
    out.extend_from_slice(b"\n")
}

fn put_octets(bytes: &[u8], out: &mut Vec<u8>) -> Result<(), AllocError>
    ensures { OnOk result (out.new.items ≡ out.old.items ++ spec.octets_text bytes.now) }
{
    let Some((first, rest)) = bytes.split_first() else {
        return Ok(());
    };
    out.extend_from_slice(&octet_text(*first))?;
    put_colons(rest, out)
}

// Each byte after a colon.
fn put_colons(bytes: &[u8], out: &mut Vec<u8>) -> Result<(), AllocError>
    ensures { OnOk result (out.new.items
        ≡ out.old.items ++ flat_map (λ c. 58 ∷ hex 2 c) bytes.now) }
{
    for byte in bytes {
        let [high, low] = octet_text(*byte);
        out.extend_from_slice(&[b':', high, low])?;
    }
    Ok(())
}

/// The two digits of a byte, in lower case.
pub fn octet_text(byte: u8) -> [u8; 2]
    ensures { result ≡ hex 2 byte }
{
    let mut digits = [0; 2];
    hex::encode_to_slice(&[byte], &mut digits).unwrap();
    digits
}

fn write_zones(zones: &ZoneList, out: &mut Vec<u8>) -> Result<(), AllocError>
    ensures { OnOk result (out.new.items ≡ out.old.items ++ flat_map spec.zone_line zones.now) }
{
    for index in 0..zones.len() {
        write_zone(zones.at(index).unwrap(), out)?;
    }
    Ok(())
}

fn write_zone(zone: &Zone, out: &mut Vec<u8>) -> Result<(), AllocError>
    ensures { OnOk result (out.new.items ≡ out.old.items ++ spec.zone_line zone.now) }
{
    out.extend_from_slice(b"zone")?;
    put_word(&zone.name, out)?;
    put_members(zone, out)?;
    out.extend_from_slice(b"\n")
}

fn put_word(word: &Bytes, out: &mut Vec<u8>) -> Result<(), AllocError>
    ensures { OnOk result (out.new.items ≡ out.old.items ++ spec.spaced word.now) }
{
    out.extend_from_slice(b" ")?;
    out.extend_from_slice(word.view())
}

fn put_members(zone: &Zone, out: &mut Vec<u8>) -> Result<(), AllocError>
    ensures { OnOk result (out.new.items
        ≡ out.old.items ++ flat_map (λ m. spec.spaced (spec.name_text m)) zone.now.members) }
{
    for index in 0..zone.members.len() {
        put_name(zone.members.at(index).unwrap(), out)?;
    }
    Ok(())
}

fn put_name(name: &Wwn, out: &mut Vec<u8>) -> Result<(), AllocError>
    ensures { OnOk result (out.new.items ≡ out.old.items ++ spec.spaced (spec.name_text name.now)) }
{
    out.extend_from_slice(b" ")?;
    put_octets(&name_bytes(name), out)
}

fn write_sets(zones: &ZoneList, sets: &SetList, out: &mut Vec<u8>) -> Result<(), AllocError>
    ensures { OnOk result (out.new.items
        ≡ out.old.items ++ flat_map (spec.set_line zones.now) sets.now) }
{
    for index in 0..sets.len() {
        write_set(zones, sets.at(index).unwrap(), out)?;
    }
    Ok(())
}

fn write_set(zones: &ZoneList, set: &ZoneSet, out: &mut Vec<u8>) -> Result<(), AllocError>
    ensures { OnOk result (out.new.items ≡ out.old.items ++ spec.set_line zones.now set.now) }
{
    out.extend_from_slice(b"zoneset")?;
    put_word(&set.name, out)?;
    put_places(zones, set, out)?;
    out.extend_from_slice(b"\n")
}

fn put_places(zones: &ZoneList, set: &ZoneSet, out: &mut Vec<u8>) -> Result<(), AllocError>
    ensures { OnOk result (out.new.items
        ≡ out.old.items ++ flat_map
        (λ p. spec.spaced (spec.name_at (zone_names zones.now) p)) set.now.places) }
{
    for index in 0..set.places.len() {
        put_zone_name(zones, *set.places.at(index).unwrap(), out)?;
    }
    Ok(())
}

// The name of the zone at a place.
fn put_zone_name(zones: &ZoneList, place: u32, out: &mut Vec<u8>) -> Result<(), AllocError>
    ensures { OnOk result (out.new.items
        ≡ out.old.items ++ spec.spaced (spec.name_at (zone_names zones.now) place)) }
{
    match zones.at(place as usize) {
        Some(zone) => put_word(&zone.name, out),
        None => out.extend_from_slice(b" "),
    }
}

fn write_activations(
    alloc: Global,
    sets: &SetList,
    activations: &ActivationList,
    out: &mut Vec<u8>,
) -> Result<(), AllocError>
    ensures { OnOk result (out.new.items
        ≡ out.old.items ++ flat_map (spec.activation_line sets.now) activations.now) }
{
    for index in 0..activations.len() {
        write_activation(alloc, sets, activations.at(index).unwrap(), out)?;
    }
    Ok(())
}

fn write_activation(
    alloc: Global,
    sets: &SetList,
    activation: &Activation,
    out: &mut Vec<u8>,
) -> Result<(), AllocError>
    ensures { OnOk result (out.new.items
        ≡ out.old.items ++ spec.activation_line sets.now activation.now) }
{
    let moment = activation.moment.0;
    let words = format!(in alloc; " {moment}\n")?;
    out.extend_from_slice(b"activate")?;
    put_set_name(sets, activation.set, out)?;
    out.extend_from_slice(words.as_bytes())
}

// The name of the zone set at a place.
fn put_set_name(sets: &SetList, place: u32, out: &mut Vec<u8>) -> Result<(), AllocError>
    ensures { OnOk result (out.new.items
        ≡ out.old.items ++ spec.spaced (spec.name_at (set_names sets.now) place)) }
{
    match sets.at(place as usize) {
        Some(set) => put_word(&set.name, out),
        None => out.extend_from_slice(b" "),
    }
}
