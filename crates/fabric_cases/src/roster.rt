//! Who is live, behind which port and with which address, and the verdict of one frame
//! (FC-BB-5, FC-LS-2, FC-GS-6).
ghost use Rattle.std.specs.Prelude.{◌≡◌, ◌==◌, true, false, IfOk};
ghost use Rattle.std.specs.List.{list_any};
ghost use Rattle.fab_roster.specs.Reaching.{zones_of};

use ct_messages::read_ask;
use fab_base::{FcId, Moment, NoMemory, PortNo, Wwn};
use fab_config::Config;
use fab_judge::{Judged, judge};
use fab_policy::{Verdict, write_frame_line};
use fab_roster::{Login, Request, Roster};
use frame_cases::{caught, config_of};
use heard_frames::hear;
use std::alloc::Global;
use table_cases::held::{open, open_in};
use table_cases::logins::{login_of, said};
use table_cases::registry::{end_answer, said_refusal};
use table_cases::say::{end, end_address, end_bool, end_number, say_number};
use table_cases::words::{
    CaseFault, address, enode, hex, moment, name, name_at, octet, port, short,
};
use table_cases::zoning::is_function;
use zone_rules::Zones;

/// A roster, with its configuration and its zones.
pub(crate) struct Roll {
    config: Config,
    zones: Zones,
    roster: Roster,
    limit: u32,
    ghost rules: { zones ≡ zones_of config },
    ghost limited: { roster.limit ≡ limit },
}

impl Drop for Roll {
    // By hand, so that it is dropped by one call.
    fn drop(self) {
        let Roll {
            config: _config,
            zones: _zones,
            roster: _roster,
            limit: _,
        } = self;
    }
}

/// A call of a roster.
pub(crate) fn roster_call(
    alloc: Global,
    held: &mut Option<Roll>,
    text: &[u8],
    line: &[u8],
    out: &mut Vec<u8>,
) -> Result<(), CaseFault> {
    if name_at(line, 1) == "open" {
        return open(held, opened(alloc, text)?, out);
    }
    open_in(held)?.asked(alloc, line, out)
}

fn opened(alloc: Global, text: &[u8]) -> Result<Roll, CaseFault> {
    let config = config_of(alloc, text)?;
    roll_of(alloc, config)
}

fn roll_of(alloc: Global, config: Config) -> Result<Roll, CaseFault> {
    let limit = config.limit;
    match tables(alloc, &config) {
        Ok((zones, roster)) => Ok(Roll {
            config,
            zones,
            roster,
            limit,
        }),
        Err(fault) => Err(fault),
    }
}

// The zones of a configuration and a roster without logins.
fn tables(alloc: Global, config: &Config) -> Result<(Zones, Roster), CaseFault>
    ensures rules { IfOk result (λ t. t.0 ≡ zones_of config.now) }
    ensures limited { IfOk result (λ t. t.1.limit ≡ config.now.limit) }
{
    let zones = Zones::build(alloc, &config.zones, &config.sets, &config.activations)?;
    let roster = empty(alloc, config)?;
    Ok((zones, roster))
}

fn empty(alloc: Global, config: &Config) -> Result<Roster, CaseFault>
    ensures { IfOk result (λ r. r.limit ≡ config.now.limit) }
{
    let Some(lowest) = FcId::new(u32::from(config.domain) * 65536 + 256) else {
        return Err(CaseFault::Refused);
    };
    let count = config.pool;
    if config.limit > 1000 || count > 65536 || lowest.value() > 0xFE0000 {
        return Err(CaseFault::Refused);
    }
    Ok(Roster::new(alloc, lowest, count, config.limit, config.period)?)
}

impl Roll {
    fn asked(&mut self, alloc: Global, line: &[u8], out: &mut Vec<u8>) -> Result<(), CaseFault> {
        match name_at(line, 1) {
            "clock" => self.set_clock(moment(line, 2)?)?,
            "grant" => self.grant(login_of(line)?)?,
            "end" => self.end(address(line, 2)?)?,
            "server" => self.set_server(address(line, 2)?, short(line, 3)?)?,
            "watch" => self.watch(address(line, 2)?, octet(line, 3)?)?,
            _ => return self.found(alloc, line, out),
        }
        end(out, "done")
    }

    fn found(&self, alloc: Global, line: &[u8], out: &mut Vec<u8>) -> Result<(), CaseFault> {
        match name_at(line, 1) {
            "find" => end_address(out, self.roster.find(&request(line)?)),
            "free" => end_bool(out, self.roster.is_free(&request(line)?, address(line, 6)?)),
            "at" => said(out, self.roster.by_address(address(line, 2)?)),
            "named" => said(out, self.roster.by_name(name(line, 2)?)),
            "heard" => said_heard(out, self.roster.heard_at(address(line, 2)?)),
            "judge" => self.judge(alloc, line, out),
            "query" => {
                let payload = hex(alloc, line, 3)?;
                self.query(alloc, address(line, 2)?, payload.view(), out)
            }
            _ => Err(CaseFault::Words),
        }
    }

    fn set_clock(&mut self, now: Moment) -> Result<(), CaseFault> {
        if now.0 >= 1 << 63 {
            return Err(CaseFault::Refused);
        }
        if let Some(before) = self.roster.clock() {
            if now.0 < before.0 {
                return Err(CaseFault::Refused);
            }
        }
        self.roster.set_clock(now);
        Ok(())
    }

    fn grant(&mut self, login: Login) -> Result<(), CaseFault> {
        let request = Request {
            flogi: false,
            enode: login.enode,
            name: login.name,
        };
        if self.roster.clock().is_none()
            || !self.roster.is_free(&request, login.address)
            || !is_new(&self.roster, login.name)
            || self.roster.len() >= self.limit
        {
            return Err(CaseFault::Refused);
        }
        let login = Login {
            server_size: None,
            ..login
        };
        self.roster.grant(login);
        Ok(())
    }

    fn end(&mut self, address: FcId) -> Result<(), CaseFault> {
        if self.roster.clock().is_none() || self.roster.by_address(address).is_none() {
            return Err(CaseFault::Refused);
        }
        self.roster.end(address);
        Ok(())
    }

    fn set_server(&mut self, address: FcId, size: u16) -> Result<(), CaseFault> {
        if size < 256 || size > 2112 || size % 4 != 0 || self.roster.by_address(address).is_none() {
            return Err(CaseFault::Refused);
        }
        self.roster.set_server(address, Some(size));
        Ok(())
    }

    fn watch(&mut self, address: FcId, function: u8) -> Result<(), CaseFault> {
        if !is_function(function) || self.roster.by_address(address).is_none() {
            return Err(CaseFault::Refused);
        }
        self.roster.watch(address, function);
        Ok(())
    }

    // `judge PORT whole|cut FRAME`: the verdict, with the least address that may be granted.
    fn judge(&self, alloc: Global, line: &[u8], out: &mut Vec<u8>) -> Result<(), CaseFault> {
        let port = port(line, 2)?;
        let caught = caught(alloc, line, 3)?;
        let heard = hear(&caught);
        let Ok(judged) = judge(alloc, &self.config, &self.zones, &self.roster, port, &heard) else {
            return Err(CaseFault::Memory);
        };
        said_judged(alloc, port, &judged, out)
    }

    // `query ASKER PAYLOAD`: what the name server answers an N_Port that is logged in.
    fn query(
        &self,
        alloc: Global,
        asker: FcId,
        payload: &[u8],
        out: &mut Vec<u8>,
    ) -> Result<(), CaseFault> {
        let Ok(ask) = read_ask(payload) else {
            return Err(CaseFault::Words);
        };
        if self.roster.by_address(asker).is_none() {
            return Err(CaseFault::Refused);
        }
        if ask.is_registration() {
            said_refusal(out, self.roster.refusal(asker, &ask))?;
            let noticed = self.roster.is_noticed(asker, &ask);
            return end(out, if noticed { "noticed" } else { "quiet" });
        }
        let tell = self
            .roster
            .answer(alloc, &self.config, &self.zones, asker, &ask)?;
        end_answer(alloc, &tell, out)
    }
}

// Whether nobody has a name.
fn is_new(roster: &Roster, name: Wwn) -> bool
    ensures { result ≡ true
        → list_any (λ p. p.name == name) roster.now.tables.ports ≡ false }
{
    roster.by_name(name).is_none()
}

// `flogi|fdisc PORT MAC NAME`.
fn request(line: &[u8]) -> Result<Request, CaseFault> {
    Ok(Request {
        flogi: name_at(line, 2) == "flogi",
        enode: enode(line, 3)?,
        name: name(line, 5)?,
    })
}

// The moments at which an N_Port's ENode and itself were last heard.
fn said_heard(out: &mut Vec<u8>, heard: Option<(Moment, Moment)>) -> Result<(), CaseFault> {
    match heard {
        Some((node, port)) => {
            say_number(out, node.0)?;
            end_number(out, port.0)
        }
        None => end(out, "none"),
    }
}

fn said_judged(
    alloc: Global,
    port: PortNo,
    judged: &Judged<'_>,
    out: &mut Vec<u8>,
) -> Result<(), CaseFault> {
    let verdict = match judged {
        Judged::Must(verdict) => verdict.verdict(),
        Judged::Replied { verdict, .. } => verdict.verdict(),
        Judged::MayGrant(login) => Verdict::Granted(login.free),
        Judged::Registers { .. } => Verdict::Registered,
        Judged::Answers { .. } => Verdict::Answered,
    };
    write_frame_line(alloc, port, 0, &verdict, out)?;
    Ok(())
}
