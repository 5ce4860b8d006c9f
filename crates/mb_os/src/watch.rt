//! A socket that looks for its next datagram before it waits for one, and tells a quiet by the clock.
//!
//! A receive tells a quiet where one is due ([`Quiets`]), also where datagrams wait. Otherwise it looks, or waits, at most until one is due: how long a receive
//! of the socket waits is set anew where that is another number of milliseconds than before, so at most once in a millisecond, and never while it looks.
//!
//! Who waits sleeps. To wake it takes a processor that has nothing else to do 20 to 40 microseconds on a virtual machine, and each request to a cluster is three
//! datagrams in a row or more; what the processes do in between takes no longer than that. So behind a datagram a receive looks for the next one for a while,
//! and sleeps only where none came. Between looks other processes go first: between any two of them where there are others, and less and less often where
//! this one has its processor to itself, since to give way costs as much as a look. Where another one then keeps the processor, there are more processes than
//! processors, and looking costs more than it spares: a process that gave way has to wait for its turn, and one that is woken has not. Then receives wait, as
//! long as [`REST`] says, and longer where it stays so.

ghost use Rattle.std.specs.Prelude.{◌≤◌, length, IfOk, IfSome};

use crate::quiets::Quiets;
use std::io::ErrorKind;
use std::net::UdpSocket;
use std::time::{Clock, Duration, Instant};
use std::{io, thread};

/// How long a receive looks, in microseconds: the time of a request, so that nobody sleeps as long as requests follow each other. No longer, so that a process
/// to which nothing comes uses no processor.
const LOOK_TIME: u64 = 200;

/// A process that gives way and is back in fewer microseconds was alone.
const ALONE: u64 = 3;

/// The most looks between which a process that is alone does not give way. They take as long as a step of another one, which then waited for nothing.
const LONGEST_STRIDE: u32 = 32;

/// After so many microseconds somebody else had the processor between two looks: a process that has work for more than a few datagrams.
const CROWDED: u64 = 1_000;

/// How many datagrams are waited for before a receive looks again, once the processor was crowded. So many are the time of some 350 requests: what a task of
/// the system that comes now and then may cost.
const REST: u32 = 1_024;

/// Where it is soon crowded again, so many times as many.
const GROWTH: u32 = 8;

/// Up to this. To find out that it is crowded costs some milliseconds, which is little in the time of so many.
const LONGEST_REST: u32 = 131_072;

/// Behind so many datagrams that were found while looking it is not soon.
const CALM: u32 = 4_096;

/// The most looks of a receive, also where the clock stands still.
const LOOKS: u32 = 10_000;

/// A socket, and how its receives go.
#[derive(Drop)]
pub(crate) struct Watch {
    socket: UdpSocket,
    /// When the last quiet was.
    quiets: Quiets,
    /// How long a receive of the socket waits, in milliseconds. None where that was not set yet.
    wait: Option<u64>,
    /// Whether it looks. Then a receive of the socket doesn't wait.
    looks: bool,
    /// How many datagrams are waited for before it looks again.
    rest: u32,
    /// How many that will be when it is soon crowded again.
    next_rest: u32,
    /// How many datagrams were found while looking since it was crowded.
    found: u32,
    /// Before how many looks it gives way once.
    stride: u32,
    /// How many looks there were since it gave way.
    steps: u32,
}

impl Watch {
    /// A socket that is opened now. It waits, up to the first datagram.
    pub(crate) fn new(socket: UdpSocket, now: Instant) -> Watch {
        Watch {
            socket,
            quiets: Quiets::since(now),
            wait: None,
            looks: false,
            rest: 0,
            next_rest: REST,
            found: 0,
            stride: 1,
            steps: 0,
        }
    }

    /// One receive. None is a quiet: one that is due, or the end of the time to the next one.
    pub(crate) fn receive<R: Clock>(&mut self, rt: &R, into: &mut [u8]) -> io::Result<Option<usize>>
        ensures { IfOk result (λ count. IfSome count (λ n. n ≤ length into.new)) }
    {
        let now = Instant::now(rt)?;
        let Some(left) = self.quiets.left(now) else {
            self.quiets = Quiets::since(now);
            return Ok(None);
        };
        if self.looks {
            if let Some(count) = self.look(rt, now, into)? {
                return Ok(Some(count));
            }
            self.set_looks(false)?;
        }
        self.set_wait(left)?;
        self.wait(rt, into)
    }

    /// Waits for a datagram. None where none came in time.
    fn wait<R: Clock>(&mut self, rt: &R, into: &mut [u8]) -> io::Result<Option<usize>>
        ensures { IfOk result (λ count. IfSome count (λ n. n ≤ length into.new)) }
    {
        let got = taken(&self.socket, into)?;
        if got.is_some() {
            self.look_again()?;
        } else {
            self.quiets = Quiets::since(Instant::now(rt)?);
        }
        Ok(got)
    }

    /// Looks for a datagram, in a receive that began at this time. None where none came in time, or the processor was crowded.
    fn look<R: Clock>(
        &mut self,
        rt: &R,
        begun: Instant,
        into: &mut [u8],
    ) -> io::Result<Option<usize>>
        ensures { IfOk result (λ count. IfSome count (λ n. n ≤ length into.new)) }
    {
        if let Some(count) = taken(&self.socket, into)? {
            return Ok(Some(count));
        }
        for _ in 0..LOOKS {
            self.step_aside(rt)?;
            let spent = begun.elapsed(rt)?;
            if spent >= Duration::from_micros(CROWDED) {
                self.crowd();
                break;
            }
            if let Some(count) = taken(&self.socket, into)? {
                self.found = self.found.saturating_add(1);
                return Ok(Some(count));
            }
            if spent >= Duration::from_micros(LOOK_TIME) {
                break;
            }
        }
        Ok(None)
    }

    /// Before one look in a stride other processes go first. The stride grows as long as there are none.
    fn step_aside<R: Clock>(&mut self, rt: &R) -> io::Result<()> {
        self.steps = self.steps.saturating_add(1);
        if self.steps < self.stride {
            return Ok(());
        }
        self.steps = 0;
        let begun = Instant::now(rt)?;
        thread::yield_now();
        self.stride = if begun.elapsed(rt)? < Duration::from_micros(ALONE) {
            self.stride.saturating_mul(2).min(LONGEST_STRIDE)
        } else {
            1
        };
        Ok(())
    }

    /// The processor is crowded.
    fn crowd(&mut self) {
        if self.found >= CALM {
            self.next_rest = REST;
        }
        self.found = 0;
        self.rest = self.next_rest;
        self.next_rest = self.rest.saturating_mul(GROWTH).min(LONGEST_REST);
    }

    /// A datagram came while it waited: it looks for the next one, unless it rests.
    fn look_again(&mut self) -> io::Result<()> {
        if self.rest == 0 {
            return self.set_looks(true);
        }
        self.rest -= 1;
        Ok(())
    }

    /// Sets how long a receive of the socket waits, in milliseconds.
    fn set_wait(&mut self, wait: u64) -> io::Result<()> {
        if self.wait != Some(wait) {
            self.socket
                .set_read_timeout(Some(Duration::from_millis(wait)))?;
            self.wait = Some(wait);
        }
        Ok(())
    }

    fn set_looks(&mut self, looks: bool) -> io::Result<()> {
        self.socket.set_nonblocking(looks)?;
        self.looks = looks;
        Ok(())
    }
}

/// One receive of a socket, made again as long as it is interrupted. None where the socket has no datagram.
fn taken(socket: &UdpSocket, into: &mut [u8]) -> io::Result<Option<usize>>
    ensures { IfOk result (λ count. IfSome count (λ n. n ≤ length into.new)) }
{
    for _ in 0..u64::MAX {
        match socket.recv(into) {
            Ok(count) => return Ok(Some(count)),
            Err(e) => match e.kind() {
                ErrorKind::Interrupted => {}
                ErrorKind::WouldBlock | ErrorKind::TimedOut => return Ok(None),
                _ => return Err(e),
            },
        }
    }
    Ok(None)
}
