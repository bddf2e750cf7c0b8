//! The addresses at which the server listens.

use mio::net::TcpListener;
use serve_failures::{Failure, Step};
use serve_options::{Address, Options};
use std::alloc::Global;
use std::io;
use std::net::{Net, ToSocketAddrs};

/// Listens at the first address of the name.
pub(crate) fn listen<R: Net>(
    rt: &R,
    alloc: Global,
    address: &Address<'_>,
) -> Result<TcpListener, Failure> {
    let mut found = match (address.host, address.port).to_socket_addrs(rt) {
        Ok(found) => found,
        Err(error) => return Err(Failure::system(alloc, Step::Resolve, &address.host, error)),
    };
    let bound = match found.next() {
        Some(address) => TcpListener::bind(rt, address),
        None => Err(io::Error::from(io::ErrorKind::NotFound)),
    };
    match bound {
        Ok(listener) => Ok(listener),
        Err(error) => Err(Failure::system(alloc, Step::Bind, address, error)),
    }
}

/// Listens for monitoring systems, if the options ask for it.
pub(crate) fn listen_for_scrapers<R: Net>(
    rt: &R,
    alloc: Global,
    options: &Options<'_>,
) -> Result<Option<TcpListener>, Failure> {
    match &options.metrics {
        None => Ok(None),
        Some(address) => Ok(Some(listen(rt, alloc, address)?)),
    }
}
