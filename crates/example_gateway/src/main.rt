//! A gateway to a sensor: a program that embeds the server. It serves the contents of a file at the path /measured,
//! such as one of the files in which a system reports its sensors. The file is read before each turn of the event loop,
//! and at least once a second.
//!
//!     example_gateway 127.0.0.1:5683 /sys/class/thermal/thermal_zone0/temp
#![tactic(auto)]

use anyhow::{Context, Result, bail};
use coap_serve::{
    Clock, Config, Door, Limits, NoApplication, NoMonitor, PathKey, Service, ServiceConfig, Starts,
    Times,
};
use coap_sockets::{SocketDoor, SystemClock};
use std::io::Read;
use std::net::{Net, SocketAddr};
use std::rt::{Env, Files};
use std::{env, fs, time};

/// Returns the measured value: the bytes of a file.
fn measured(rt: &(impl Files + AllocGlobal), file: &str) -> Result<Vec<u8>> {
    let mut bytes = Vec::new(rt.alloc());
    fs::open(rt, file)
        .context("cannot open the sensor's file")?
        .read_to_end(&mut bytes)
        .context("cannot read the sensor's file")?;
    Ok(bytes)
}

/// Returns the configuration of a server that stores one resource and starts at this time.
fn configuration(now: u64) -> Result<Config> {
    let limits = Limits::builder()
        .max_message(1_152)
        .max_sent(1_152)
        .queue(8_192)
        .outstanding(1)
        .build()?;
    let config = Config::builder()
        .limits(limits)
        .dynamic_max(1)
        .rep_max(1_024)
        .starts(Starts::at(now))
        .build()?;
    Ok(config)
}

/// Stores the measured value at a path if it is new, serves the connections once, and waits.
fn turn<D: Door>(
    value: Vec<u8>,
    path: &PathKey,
    now: u64,
    stored: &mut Option<Vec<u8>>,
    door: &mut D,
    service: &mut Service<D::Wire>,
) -> Result<()> {
    // Each `put` notifies the observers, so only a new value is stored. `put` fails if a client deleted the
    // resource and stored another one, since the server stores only one. It is then repeated in the next turn.
    if stored.as_ref() != Some(&value)
        && service.put(path, Some(0), &value, &mut NoMonitor).is_ok()
    {
        *stored = Some(value);
    }
    let times = Times { now, second: 0 };
    let wait = service
        .turn(door, times, &mut NoApplication, &mut NoMonitor)
        .context("no memory to serve the connections")?;
    door.wait(wait.at_most(now.saturating_add(1)), service.can_open());
    Ok(())
}

/// Serves the contents of a file at an address, as long as the file can be read. Each error says what could not be
/// done, and `main` prints it with its cause.
fn serve(
    rt: &(impl Eprint + Files + Net + time::Clock + AllocGlobal),
    address: SocketAddr,
    file: &str,
) -> Result<()> {
    let mut clock = SystemClock::new(rt);
    let config = configuration(clock.now())?;
    let mut door = SocketDoor::listen(rt, rt.alloc(), address, config.connections()).context(
        "cannot listen at the address",
    )?;
    eprintln!(rt;
        "example_gateway: listening on {}",
        door.address().unwrap_or(address)
    )?;
    let mut service = Service::new(rt.alloc(), ServiceConfig::new(config)).context(
        "no memory for the server",
    )?;
    run(
        rt,
        file,
        &mut clock,
        config.turns(),
        &mut door,
        &mut service,
    )
}

/// Serves the connections in a loop. A function that owns the server drops it at each `?`, which makes its proof long,
/// so this one borrows it.
fn run<R: Files + AllocGlobal, D: Door>(
    rt: &R,
    file: &str,
    clock: &mut impl Clock,
    turns: u64,
    door: &mut D,
    service: &mut Service<D::Wire>,
) -> Result<()> {
    let path = PathKey::from_segments(&[b"measured"]).context("no path")?;
    let mut stored = None;
    for _ in 0..turns {
        let value = measured(rt, file)?;
        turn(value, &path, clock.now(), &mut stored, door, service)?;
    }
    bail!("the limit of turns is reached")
}

fn main(rt: HostRuntime) -> Result<()> {
    let mut words = env::args(&rt)?;
    let _name = words.next();
    match (words.next(), words.next()) {
        (Some(address), Some(file)) => {
            let address = address
                .parse::<SocketAddr>()
                .context("the address is not of the form IP:PORT")?;
            serve(&rt, address, file.as_str())
        }
        _ => println!(&rt; "usage: example_gateway ADDRESS:PORT FILE").context("cannot write"),
    }
}
