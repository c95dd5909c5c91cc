//! Asking a site at its admin port.

ghost use Rattle.std.specs.Prelude.{◌≡◌};
ghost use Rattle.zqueue.specs.Told.{status_told};

use crate::configured::site_configured;
use crate::refusal::Refusal;
use crate::settling::{read_file, settled};
use std::alloc::Global;
use std::net::{Net, SocketAddr, TcpListener, TcpStream};
use std::rt::Files;
use std::sync::Wait;
use std::time::{Clock, Duration};
use std::{str, thread};
use zq_admin::{Answer, Asked, ask};
use zq_server::SiteSettings;

/// How many seconds an admin port may take to answer.
const PATIENCE: u64 = 5;

/// How many milliseconds there are from one look at a site that ends to the next.
const LOOK: u64 = 100;

/// How many seconds a site may take to end beside those that it waits for its peers.
const ENDING: u64 = 15;

/// The statuses: what was asked is so, or it is not, or nobody answers.
const YES: u8 = 0;

const NO: u8 = 1;

const NOBODY: u8 = 2;

/// Has the site of the settings file of this name end, and waits until it has: until nobody answers
/// at its admin port. The status is 0 then, 1 where it does not end in time, and 2 where nobody
/// answers at first, which standard error says.
pub fn stop_file<R>(rt: &R, alloc: Global, path: &str) -> Result<u8, Refusal>
where
    R: Files
        + Net<Listener = TcpListener, Stream = TcpStream>
        + Clock
        + Wait
        + Print
        + Eprint
        + Alloc<A = Global>,
{
    let settings = settings_in(rt, alloc, path)?;
    let address = admin_of(rt, path, &settings)?;
    let token = token_of(&settings);
    match told(rt, alloc, &address, Asked::Stop, token) {
        Some(202) => {}
        Some(_) => return Ok(NO),
        None => return Ok(NOBODY),
    }
    let looks = settings.drain.value().saturating_add(ENDING) * (1_000 / LOOK);
    for _ in 0..looks {
        let _ = thread::sleep(rt, Duration::from_millis(LOOK));
        let found = ask(rt, alloc, &address, Asked::Alive, token, patience());
        if found.is_err() {
            return Ok(YES);
        }
    }
    let _ = eprintln!(rt; "zqueue: the site at {address} has not ended");
    Ok(NO)
}

/// Says how ready the site of the settings file of this name is. The status is 0 where it is ready,
/// 1 where it is not, and 2 where nobody answers, which standard error says.
pub fn status_file<R>(rt: &R, alloc: Global, path: &str) -> Result<u8, Refusal>
where
    R: Files + Net<Listener = TcpListener, Stream = TcpStream> + Print + Eprint + Alloc<A = Global>,
{
    let settings = settings_in(rt, alloc, path)?;
    let address = admin_of(rt, path, &settings)?;
    let code = told(rt, alloc, &address, Asked::Ready, token_of(&settings));
    Ok(status_told(code))
}

/// The settings of one site in the file of this name.
fn settings_in<R>(rt: &R, alloc: Global, path: &str) -> Result<SiteSettings, Refusal>
where
    R: Files + Eprint + Alloc<A = Global>,
{
    let bytes = read_file(rt, path)?;
    settled(rt, path, site_configured(alloc, &bytes))
}

/// What the site of these settings has to be told.
fn token_of(settings: &SiteSettings) -> Option<&str> {
    match &settings.admin.token {
        Some(token) => Some(token.as_str()),
        None => None,
    }
}

/// Where the site of these settings is asked. Where it is nowhere standard error says so.
fn admin_of<R: Eprint>(rt: &R, path: &str, settings: &SiteSettings) -> Result<SocketAddr, Refusal> {
    match settings.admin.asked_at() {
        Some(address) => Ok(address),
        None => {
            let _ = eprintln!(rt; "zqueue: {path}: there is no admin port, as admin is missing");
            Err(Refusal::Settings)
        }
    }
}

/// Asks this at an admin port, writes what is answered to standard output, and gives the status of
/// HTTP. Where nobody answers there is none, and standard error says so.
fn told<R>(
    rt: &R,
    alloc: Global,
    address: &SocketAddr,
    asked: Asked,
    token: Option<&str>,
) -> Option<u16>
where
    R: Net<Listener = TcpListener, Stream = TcpStream> + Print + Eprint,
{
    match ask(rt, alloc, address, asked, token, patience()) {
        Ok(Answer { code, words }) => {
            let _ = print!(rt; "{}", str::from_utf8(&words).unwrap_or("?\n"));
            Some(code)
        }
        Err(error) => {
            let _ = eprintln!(rt; "zqueue: nobody answers at {address}: {error}");
            None
        }
    }
}

/// The status of a program that was told this status of HTTP, or none.
fn status_told(code: Option<u16>) -> u8
    ensures { result ≡ status_told code }
{
    match code {
        Some(200) => YES,
        Some(_) => NO,
        None => NOBODY,
    }
}

/// How long an admin port may take to answer.
fn patience() -> Duration {
    Duration::from_secs(PATIENCE)
}
