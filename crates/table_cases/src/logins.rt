//! The table of logins (FC-LS-2, "FLOGI" and "FDISC").
ghost use Rattle.case_lines.specs.Printing.{Grows};
ghost use Rattle.std.specs.Prelude.{◌≡◌};

use crate::held::{open, open_in};
use crate::say::{end, end_address, end_bool, end_number, say, say_address, say_enode, say_name};
use crate::words::{CaseFault, address, enode, hexadecimal, name, name_at, short, small};
use fab_base::NoMemory;
use login_table::{Login, LoginTable};
use std::alloc::Global;

/// A table, and how many logins it holds at most.
#[derive(Drop)]
pub(crate) struct Logins {
    table: LoginTable,
    limit: u32,
    ghost limited: { table.limit ≡ limit },
}

/// A call of a table of logins.
pub(crate) fn login_call(
    alloc: Global,
    held: &mut Option<Logins>,
    line: &[u8],
    out: &mut Vec<u8>,
) -> Result<(), CaseFault>
    ensures grows { Grows out.old.items out.new.items }
{
    if name_at(line, 1) == "open" {
        return open(held, opened(alloc, small(line, 2)?)?, out);
    }
    open_in(held)?.asked(line, out)
}

fn opened(alloc: Global, limit: u32) -> Result<Logins, NoMemory> {
    let table = LoginTable::new(alloc, limit)?;
    Ok(Logins { table, limit })
}

impl Logins {
    fn asked(&mut self, line: &[u8], out: &mut Vec<u8>) -> Result<(), CaseFault>
        ensures grows { Grows out.old.items out.new.items }
    {
        match name_at(line, 1) {
            "add" => self.add(line, out),
            "server" => self.set_server(line, out),
            "remove" => said(out, self.table.remove(address(line, 2)?).as_ref()),
            _ => self.found(line, out),
        }
    }

    fn found(&self, line: &[u8], out: &mut Vec<u8>) -> Result<(), CaseFault>
        ensures grows { Grows out.old.items out.new.items }
    {
        match name_at(line, 1) {
            "at" => said(out, self.table.by_address(address(line, 2)?)),
            "named" => said(out, self.table.by_name(name(line, 2)?)),
            "from" => end_address(out, self.table.after(hexadecimal(line, 2)?)),
            "behind" => {
                let enode = enode(line, 2)?;
                end_address(out, self.table.first_of(&enode, hexadecimal(line, 4)?))
            }
            "count" => end_number(out, u64::from(self.table.len())),
            _ => Err(CaseFault::Words),
        }
    }

    // `add ADDRESS NAME NODE PORT MAC`.
    fn add(&mut self, line: &[u8], out: &mut Vec<u8>) -> Result<(), CaseFault>
        ensures grows { Grows out.old.items out.new.items }
    {
        let login = login_of(line)?;
        if self.table.len() >= self.limit
            || self.table.by_address(login.address).is_some()
            || self.table.by_name(login.name).is_some()
        {
            return Err(CaseFault::Refused);
        }
        self.table.add(login);
        end(out, "added")
    }

    // `server ADDRESS SIZE`, or - for no size.
    fn set_server(&mut self, line: &[u8], out: &mut Vec<u8>) -> Result<(), CaseFault>
        ensures grows { Grows out.old.items out.new.items }
    {
        let size = match name_at(line, 3) {
            "-" => None,
            _ => Some(short(line, 3)?),
        };
        end_bool(out, self.table.set_server(address(line, 2)?, size))
    }
}

/// A login without one at the name server: `ADDRESS NAME NODE PORT MAC`.
pub fn login_of(line: &[u8]) -> Result<Login, CaseFault> {
    Ok(Login {
        address: address(line, 2)?,
        name: name(line, 3)?,
        node: name(line, 4)?,
        enode: enode(line, 5)?,
        server_size: None,
    })
}

/// A login, or `none`.
pub fn said(out: &mut Vec<u8>, login: Option<&Login>) -> Result<(), CaseFault>
    ensures grows { Grows out.old.items out.new.items }
{
    let Some(login) = login else {
        return end(out, "none");
    };
    say(out, "login")?;
    say_address(out, login.address)?;
    say_name(out, &login.name)?;
    say_name(out, &login.node)?;
    say_enode(out, &login.enode)?;
    match login.server_size {
        Some(size) => end_number(out, u64::from(size)),
        None => end(out, "-"),
    }
}
