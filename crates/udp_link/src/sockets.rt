//! Two sockets of this host, one for queries and one for reports, and the wait for a datagram.
//!
//! Where no report came lately, a call for the next query waits for it a moment, so that a query
//! behind a short pause costs one call of the system to receive it and none to wait. Where reports
//! come, no call waits at one socket while the other one may have something.

ghost use Rattle.std.specs.Prelude.{◌≡◌, ◌≤◌, length, IfOk, IfSome};
ghost use Rattle.r53_io.specs.Network.{octets_given};
ghost use Rattle.udp_link.specs.Link.{HasNotFailed};

use crate::peers::{peer_at, place_of};
use mio::unix::SourceFd;
use mio::{Events, Interest, Poll, Token};
use r53_io::{Arrival, Peer};
use std::alloc::Global;
use std::io::{self, ErrorKind};
use std::net::{IpAddr, Ipv4Addr, Net, SocketAddr, UdpSocket};
use std::os::fd::AsRawFd;
use std::time::Duration;

/// After so many queries in a row the report socket is looked at, where it is empty.
const MAX_QUERIES: u32 = 32;

/// How many milliseconds a patient call at the query socket waits. The system rounds it up to its
/// own measure of time, a few milliseconds.
const MOMENT: u64 = 1;

/// How many milliseconds are waited for a datagram of either socket.
const WAIT: u64 = 100;

/// How often it waits at most, where the system tells of a datagram that was taken already.
const MAX_WAITS: u32 = 4;

const QUERY: Token = Token(0);

const REPORT: Token = Token(1);

/// Two open sockets.
#[derive(Drop)]
pub(crate) struct Sockets {
    query: UdpSocket,
    report: UdpSocket,
    poll: Poll,
    events: Events,
    /// How many queries came since the last look at the report socket, and since the last pause.
    queries: u32,
    /// After how many the next look comes: fewer while reports come.
    next_look: u32,
    /// Whether a call at the query socket waits a moment: while no report comes.
    is_patient: bool,
    /// Whether the system told of reports, and the socket was not found empty since.
    is_reported: bool,
    /// Whether the system tells of queries.
    is_watched: bool,
}

impl Sockets {
    /// Opens both on the loopback address. Port 0 leaves the choice to the system.
    pub(crate) fn open(
        alloc: Global,
        net: &impl Net,
        query_port: u16,
        report_port: u16,
    ) -> io::Result<Sockets> {
        let query = query_socket(net, query_port)?;
        let report = UdpSocket::bind(net, local(report_port))?;
        report.set_nonblocking(true)?;
        let poll = Poll::new(net)?;
        register(&poll, &query, QUERY)?;
        register(&poll, &report, REPORT)?;
        let events = Events::with_capacity(alloc, 2)?;
        Ok(Sockets {
            query,
            report,
            poll,
            events,
            queries: 0,
            next_look: MAX_QUERIES,
            is_patient: true,
            is_reported: false,
            is_watched: true,
        })
    }

    /// The two ports.
    pub(crate) fn ports(&self) -> io::Result<(u16, u16)> {
        let query = self.query.local_addr()?.port();
        let report = self.report.local_addr()?.port();
        Ok((query, report))
    }

    /// Sends a datagram from the query port.
    pub(crate) fn send(&self, peer: Peer, bytes: &[u8]) -> io::Result<usize> {
        self.query.send_to(bytes, place_of(peer))
    }

    /// The next datagram of either socket, or Quiet.
    ///
    /// A query goes first, but after 32 of them a report does, and while reports are there behind
    /// each: so neither socket waits for ever.
    pub(crate) fn next(&mut self, into: &mut [u8]) -> io::Result<Arrival>
        ensures within { IfOk result (λ a. octets_given a ≤ length into.old) }
        ensures open { IfOk result HasNotFailed }
    {
        if self.queries >= self.next_look
            && let Some(arrival) = self.look(into)?
        {
            return Ok(arrival);
        }
        if let Some(arrival) = self.query(into)? {
            self.queries = self.queries.saturating_add(1);
            return Ok(arrival);
        }
        self.queries = 0;
        self.watch()?;
        self.wait(into)
    }

    /// A look at the report socket. Where a report is there, the next look comes behind the next query.
    fn look(&mut self, into: &mut [u8]) -> io::Result<Option<Arrival>>
        ensures within { IfOk result (λ found.
            IfSome found (λ a. octets_given a ≤ length into.old)) }
        ensures open { IfOk result (λ found. IfSome found HasNotFailed) }
        ensures room { length into.new ≡ length into.old }
    {
        self.queries = 0;
        let found = self.report(into)?;
        if found.is_none() {
            self.next_look = MAX_QUERIES;
            self.look_away();
            self.be_patient(true);
        }
        Ok(found)
    }

    /// Has calls at the query socket wait a moment, or not. Where the system refuses, they go on as
    /// they did.
    fn be_patient(&mut self, is_patient: bool) {
        if self.is_patient != is_patient && self.query.set_nonblocking(!is_patient).is_ok() {
            self.is_patient = is_patient;
        }
    }

    /// Has the system tell of queries: also of one that is there already.
    fn watch(&mut self) -> io::Result<()> {
        if !self.is_watched {
            register(&self.poll, &self.query, QUERY)?;
            self.is_watched = true;
        }
        Ok(())
    }

    /// Has the system tell of queries no more: where it tells of them, each reply that is sent has
    /// it look for who waits at the socket. Where it refuses, it goes on telling.
    fn look_away(&mut self) {
        let query = self.query.as_raw_fd();
        if self.is_watched
            && self
                .poll
                .registry()
                .deregister(&mut SourceFd(&query))
                .is_ok()
        {
            self.is_watched = false;
        }
    }

    /// Waits for a datagram, where no query is there.
    ///
    /// The system tells once of what came: a socket of which it told is asked until nothing is there.
    fn wait(&mut self, into: &mut [u8]) -> io::Result<Arrival>
        ensures within { IfOk result (λ a. octets_given a ≤ length into.old) }
        ensures open { IfOk result HasNotFailed }
    {
        for _ in 0..MAX_WAITS {
            if self.is_reported
                && let Some(arrival) = self.report(into)?
            {
                return Ok(arrival);
            }
            self.is_reported = false;
            self.poll
                .poll(&mut self.events, Some(Duration::from_millis(WAIT)))?;
            if self.events.is_empty() {
                break;
            }
            self.is_reported = self.is_told(REPORT);
            if self.is_reported {
                self.next_look = 0;
                self.be_patient(false);
            }
            if self.is_told(QUERY)
                && let Some(arrival) = self.query(into)?
            {
                self.queries = 1;
                return Ok(arrival);
            }
        }
        Ok(Arrival::Quiet)
    }

    /// Whether the system told of a socket when it was last asked.
    fn is_told(&self, socket: Token) -> bool {
        self.events.iter().any(|event| event.token() == socket)
    }

    /// A query that is there.
    // In its caller's place: what comes isn't handed on through memory.
    #[inline(always)]
    fn query(&self, into: &mut [u8]) -> io::Result<Option<Arrival>>
        ensures within { IfOk result (λ found.
            IfSome found (λ a. octets_given a ≤ length into.old)) }
        ensures open { IfOk result (λ found. IfSome found HasNotFailed) }
        ensures room { length into.new ≡ length into.old }
    {
        match self.query.recv_from(into) {
            Ok((n, from)) => Ok(Some(Arrival::Dns(peer_at(from), n))),
            Err(error) if is_none_there(&error) => Ok(None),
            Err(error) => Err(error),
        }
    }

    /// A report that is there. While some come no call waits at the query socket.
    fn report(&mut self, into: &mut [u8]) -> io::Result<Option<Arrival>>
        ensures within { IfOk result (λ found.
            IfSome found (λ a. octets_given a ≤ length into.old)) }
        ensures open { IfOk result (λ found. IfSome found HasNotFailed) }
        ensures room { length into.new ≡ length into.old }
    {
        match self.report.recv_from(into) {
            Ok((n, _)) => {
                self.next_look = 1;
                self.be_patient(false);
                Ok(Some(Arrival::Report(n)))
            }
            Err(error) if is_none_there(&error) => Ok(None),
            Err(error) => Err(error),
        }
    }
}

/// A socket for queries, whose calls wait a moment.
fn query_socket(net: &impl Net, port: u16) -> io::Result<UdpSocket> {
    let socket = UdpSocket::bind(net, local(port))?;
    socket.set_read_timeout(Some(Duration::from_millis(MOMENT)))?;
    socket.set_write_timeout(Some(Duration::from_millis(MOMENT)))?;
    Ok(socket)
}

/// Has the system tell of what comes to a socket. A call at a socket of which it told ends in any
/// case: it doesn't wait, or a moment alone.
fn register(poll: &Poll, socket: &UdpSocket, token: Token) -> io::Result<()> {
    let descriptor = socket.as_raw_fd();
    poll.registry()
        .register(&mut SourceFd(&descriptor), token, Interest::READABLE)
}

/// Whether a call told that nothing is there: it would wait, or a signal ended its wait.
fn is_none_there(error: &io::Error) -> bool {
    matches!(error.kind(), ErrorKind::WouldBlock | ErrorKind::Interrupted)
}

/// A port of this host alone.
fn local(port: u16) -> SocketAddr {
    SocketAddr::new(IpAddr::V4(Ipv4Addr::LOCALHOST), port)
}
