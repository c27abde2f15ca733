//! Names and addresses as hexadecimal text in lower case.
ghost use Rattle.std.specs.Prelude.{◌≡◌, ◌*◌, length};
ghost use Rattle.fab_base.specs.Texts.{hex, hex_bytes};

use crate::{FcId, Mac, Wwn};

/// The twelve digits of a MAC.
pub fn mac_text(mac: &Mac) -> [u8; 12]
    ensures { result ≡ hex_bytes mac.now }
{
    let mut text = [0; 12];
    write_digits(&mac.0, &mut text);
    text
}

/// The sixteen digits of a worldwide name.
pub fn wwn_text(name: &Wwn) -> [u8; 16]
    ensures { result ≡ hex 16 name.now }
{
    let mut text = [0; 16];
    write_digits(&name.0.to_be_bytes(), &mut text);
    text
}

/// The six digits of an address.
pub fn address_text(address: &FcId) -> [u8; 6]
    ensures { result ≡ hex 6 address.now }
{
    let mut text = [0; 6];
    write_digits(&address.value().to_be_bytes()[1..], &mut text);
    text
}

// Two digits for each byte.
fn write_digits(bytes: &[u8], text: &mut [u8])
    requires { length text.old ≡ 2 * length bytes.now }
    ensures { text.new ≡ hex_bytes bytes.now }
{
    hex::encode_to_slice(bytes, text).unwrap();
}
