//! How many clients may be connected.

use crate::places::{give_back_place, has_place, take_place};
use mio::Waker;
use std::alloc::Global;
use std::collections::BTreeMap;
use std::net::IpAddr;
use std::sync::atomic::{AtomicBool, AtomicU64, Ordering};
use std::sync::{Mutex, Wait};

/// How many clients may be connected at a time: in all, and of one address. Without a number, any.
#[derive(Clone, Copy, Debug)]
pub struct Places {
    pub in_all: Option<u64>,
    pub per_address: Option<u64>,
}

/// The state that the acceptor and the hub share.
#[derive(Drop)]
pub struct Door {
    // The number of open client connections, and of those of each address. The second are counted where they are bounded.
    open: AtomicU64,
    addresses: Mutex<BTreeMap<IpAddr, u64>>,
    places: Places,
    stopped: AtomicBool,
    waker: Waker,
}

impl Door {
    pub(crate) fn new(alloc: Global, places: Places, waker: Waker) -> Door {
        Door {
            open: AtomicU64::new(0),
            addresses: Mutex::new(BTreeMap::new(alloc)),
            places,
            stopped: AtomicBool::new(false),
            waker,
        }
    }

    /// Counts a connection, unless there are too many. Returns whether it did.
    pub(crate) fn enter<R: Wait>(&self, rt: &R, address: IpAddr) -> bool {
        let before = self.open.fetch_add(1, Ordering::SeqCst);
        if has_place(before, self.places.in_all) && self.enter_from(rt, address) {
            return true;
        }
        self.open.fetch_sub(1, Ordering::SeqCst);
        false
    }

    // Counts a connection of its address, unless there are too many of it, or no memory is left to count it.
    fn enter_from<R: Wait>(&self, rt: &R, address: IpAddr) -> bool {
        let Some(most) = self.places.per_address else {
            return true;
        };
        let mut addresses = self.addresses.lock(rt);
        take_place(&mut *addresses, address, most)
    }

    fn leave_from<R: Wait>(&self, rt: &R, address: IpAddr) {
        if self.places.per_address.is_some() {
            let mut addresses = self.addresses.lock(rt);
            give_back_place(&mut *addresses, address);
        }
    }

    /// Counts a connection of this address that has ended.
    pub fn leave<R: Wait>(&self, rt: &R, address: IpAddr) {
        self.open.fetch_sub(1, Ordering::SeqCst);
        self.leave_from(rt, address);
    }

    /// Ends accepting connections.
    pub fn stop(&self) {
        self.stopped.store(true, Ordering::SeqCst);
        // If the waker fails, the thread stops after its longest wait.
        let _ = self.waker.wake();
    }

    pub(crate) fn is_stopped(&self) -> bool {
        self.stopped.load(Ordering::SeqCst)
    }
}
