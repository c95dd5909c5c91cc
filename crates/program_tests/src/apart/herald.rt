//! What takes the line that a site writes.

use super::places::Place;
use std::alloc::Global;
use std::io;
use std::io::{ErrorKind, Write};
use std::net::{IpAddr, Ipv4Addr, Net, Shutdown, SocketAddr, TcpListener, TcpStream};

/// Takes a site's line. Before its first bytes a peer dials in and leaves, and a client asks at
/// 127.0.0.2: where one of the two finds nobody who listens, nothing is taken.
#[derive(Drop)]
pub struct Herald<'a, N: Net<Listener = TcpListener, Stream = TcpStream>> {
    net: &'a N,
    own: Place,
    /// What was taken.
    pub line: Vec<u8>,
    /// The client's connection.
    pub client: Option<TcpStream>,
}

impl<'a, N: Net<Listener = TcpListener, Stream = TcpStream>> Herald<'a, N> {
    /// Of the site at this place.
    pub fn new(net: &'a N, alloc: Global, own: Place) -> Herald<'a, N> {
        Herald {
            net,
            own,
            line: Vec::new(alloc),
            client: None,
        }
    }

    /// The connection of a client that asks once.
    fn ask(&self) -> io::Result<TcpStream> {
        let there = IpAddr::V4(Ipv4Addr::new(127, 0, 0, 2));
        let mut client = TcpStream::connect(self.net, SocketAddr::from((there, self.own.clients)))?;
        client.write_all(b"*1\r\n$4\r\nPING\r\n")?;
        client.shutdown(Shutdown::Write)?;
        Ok(client)
    }
}

impl<N: Net<Listener = TcpListener, Stream = TcpStream>> Write for Herald<'_, N> {
    fn write(&mut self, bytes: &[u8]) -> io::Result<usize> {
        if self.client.is_none() {
            drop(TcpStream::connect(self.net, self.own.door())?);
            self.client = Some(self.ask()?);
        }
        match self.line.extend_from_slice(bytes) {
            Ok(()) => Ok(bytes.len()),
            Err(_) => Err(ErrorKind::OutOfMemory.into()),
        }
    }

    fn flush(&mut self) -> io::Result<()> {
        Ok(())
    }
}
