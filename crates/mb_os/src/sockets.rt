//! Sockets of this machine as a link.

ghost use Rattle.std.specs.Prelude.{◌≡◌, ◌≤◌, None};
ghost use Rattle.mb_edge.specs.Faults.{one_more};

use crate::addresses::{CLIENT, known_address, port_of};
use crate::bursts::Bursts;
use crate::room::make_room;
use crate::rounds::Rounds;
use crate::starter::Starter;
use crate::telling::tell;
use crate::watch::Watch;
use crate::ways::Ways;
use mb_edge::{Failed, Got, Link};
use std::fmt::Display;
use std::io::{Eprint, ErrorKind};
use std::net::{Net, SocketAddr, UdpSocket};
use std::process::Process;
use std::time::{Clock, Duration, Instant};
use std::{io, thread};

/// How often a port that is taken is tried again.
const TRIES: u32 = 200;

/// How long it waits before that, in milliseconds: two seconds in all. Nodes of a run that was ended leave their ports sooner.
const TRY_WAIT: u64 = 10;

/// A socket on the loopback address, at the port of the own number. It tells nothing of its content.
///
/// Where this program was started by another one that is named here, the link fails once that one has ended: then it tells nothing that comes and sends
/// nothing. It asks before each send to the client program. Before a send to a host, and behind a receive, it asks once for a tenth of a millisecond. So no
/// node outlives the cluster that started it, and none is heard by a later one, whose nodes take longer to begin than that.
///
/// A receive tells a quiet at latest 50 milliseconds behind the last one, though datagrams wait. A datagram that finds no way to its peer is lost. Behind a
/// burst of long datagrams to a peer a send waits a millisecond, and a client program that sends one round of datagrams behind another, with no receive
/// between them, waits before each but the first.
#[derive(Drop)]
pub struct UdpLink<R> {
    rt: R,
    starter: Starter,
    socket: Option<Watch>,
    ways: Option<Ways>,
    /// None of a host.
    rounds: Option<Rounds>,
    bursts: Bursts,
    faults: u64,
}

impl<R> UdpLink<R> {
    /// A link that is not open yet. Until then its receives and sends fail. Behind the end of `starter` they fail too.
    pub fn new(rt: R, process: Process, starter: Option<u32>) -> UdpLink<R>
        ensures { result.faults ≡ 0 }
    {
        UdpLink {
            rt,
            starter: Starter::new(process, starter),
            socket: None,
            ways: None,
            rounds: None,
            bursts: Bursts::new(),
            faults: 0,
        }
    }

    /// Counts a fault.
    fn count_fault(&mut self) -> Failed
        ensures failed { result ≡ Failed.Device }
        ensures counted { self.new.faults ≡ one_more self.old.faults }
        ensures later { self.old.faults ≤ self.new.faults }
    {
        self.faults = self.faults.saturating_add(1);
        Failed::Device
    }
}

impl<R: Eprint> UdpLink<R> {
    /// Counts a fault, and tells it.
    fn failed<D: Display + Drop>(&mut self, what: D, cause: &io::Error) -> Failed
        ensures failed { result ≡ Failed.Device }
        ensures counted { self.new.faults ≡ one_more self.old.faults }
        ensures later { self.old.faults ≤ self.new.faults }
    {
        tell(&self.rt, what, cause);
        self.count_fault()
    }

    /// Counts that who started this program has ended, and tells it.
    fn was_left(&mut self) -> Failed
        ensures failed { result ≡ Failed.Device }
        ensures counted { self.new.faults ≡ one_more self.old.faults }
        ensures later { self.old.faults ≤ self.new.faults }
    {
        let cause = io::Error::other("who started this node has ended");
        self.failed("the link failed", &cause)
    }
}

/// Takes a port. One that is taken is tried again for a while.
fn bound<R: Net + Clock>(rt: &R, address: SocketAddr) -> io::Result<UdpSocket> {
    for _ in 0..TRIES {
        match UdpSocket::bind(rt, address) {
            Err(e) if e.kind() == ErrorKind::AddrInUse => {
                thread::sleep(rt, Duration::from_millis(TRY_WAIT));
            }
            result => return result,
        }
    }
    UdpSocket::bind(rt, address)
}

fn opened<R: Net + Clock>(rt: &R, port: u16, own: u8) -> io::Result<Watch> {
    let socket = bound(rt, known_address(port, own)?)?;
    make_room(&socket);
    Ok(Watch::new(socket, Instant::now(rt)?))
}

impl<R: Net + Clock + Eprint> Link for UdpLink<R> {
    ghost use Rattle.mb_edge.specs.Seen.{link_state};

    ghost seen = { λ l. link_state None None None l.faults };

    ghost sends_without_memory = { Unit {0} };

    /// A socket that it had open is closed before.
    fn open(&mut self, port: u16, own: u8) -> Result<(), Failed> {
        self.socket = None;
        match opened(&self.rt, port, own) {
            Ok(watch) => {
                self.socket = Some(watch);
                self.ways = Some(Ways::new(port));
                self.rounds = (own == CLIENT).then_some(Rounds::new());
                self.bursts = Bursts::new();
                Ok(())
            }
            Err(cause) => {
                let port = port_of(port, own);
                Err(self.failed(format_args!("the link failed: port {port}"), &cause))
            }
        }
    }

    fn recv(&mut self, into: &mut [u8]) -> Got {
        let Some(watch) = &mut self.socket else {
            return Got::Failed(self.count_fault());
        };
        let got = watch.receive(&self.rt, into);
        if let Some(rounds) = &mut self.rounds {
            *rounds = Rounds::new();
        }
        self.bursts = Bursts::new();
        if self.starter.had_ended(&self.rt) {
            return Got::Failed(self.was_left());
        }
        match got {
            Ok(Some(count)) => Got::Datagram(count),
            Ok(None) => Got::Quiet,
            Err(cause) => Got::Failed(self.failed("the link failed: a receive", &cause)),
        }
    }

    fn send(&mut self, to: u8, bytes: &[u8]) -> Result<(), Failed> {
        let left = if to == CLIENT {
            self.starter.has_ended(&self.rt)
        } else {
            self.starter.had_ended(&self.rt)
        };
        if left {
            return Err(self.was_left());
        }
        if let Some(rounds) = &mut self.rounds {
            if let Some(pause) = rounds.pause_before(to) {
                thread::sleep(&self.rt, pause);
            }
        }
        let Some(ways) = &mut self.ways else {
            return Err(self.count_fault());
        };
        let port = ways.port_of(to);
        let sent = ways.send(&self.rt, to, bytes);
        if let Some(pause) = self.bursts.pause_behind(to, bytes.len()) {
            thread::sleep(&self.rt, pause);
        }
        match sent {
            Ok(()) => Ok(()),
            Err(cause) => {
                let what = format_args!("the link failed: a datagram to port {port}");
                Err(self.failed(what, &cause))
            }
        }
    }
}
