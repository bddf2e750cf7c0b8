//! What the threads of the ports and the hub tell each other beside messages and outputs.
//!
//! Each port has a slot, which another port gets when it is closed, and each slot has a mark: the port may have
//! something for the hub. So a turn looks at one word for each 64 slots and at the ports that are marked, and not at
//! each port. A sender sets the mark of the slot first and then that of the group; the hub clears them in the other
//! order, and then takes messages. So a message sent before a mark was cleared is taken, and one that is sent later
//! marks again.
//!
//! Each slot counts the bytes that its thread has written, too. The hub counts those that it puts, and so it knows what
//! is under way.

ghost use Rattle.std.specs.List.Sorted.{IsStrictlyIncreasing};
ghost use Rattle.std.specs.Prelude.{◌≡◌, ◌≤◌, ◌+◌, ◌-◌, ◌^◌, min, [], Some, None, IfOk, OnErr};
ghost use Rattle.port_hints.specs.Lists.{KeepsEach, AddsPorts, HasMarked};
ghost use Rattle.port_hints.specs.Slots.{port_at, GivesSlot, GivesNoSlot, put_without};

use crate::waker::Waker;
use slab::Slab;
use std::alloc::Global;
use std::marker::Model;
use std::sync::Arc;
use std::sync::atomic::{AtomicBool, AtomicU64, Ordering};
use values::NoMemory;

const GROUP: usize = 64;

#[derive(Drop)]
struct Slot {
    mark: AtomicBool,
    // What the port's thread sends next may be costly.
    is_heavy: AtomicBool,
    // Its last messages were costly.
    is_costly: AtomicBool,
    // How many bytes the port's thread has written.
    written: AtomicU64,
}

// Some slots, and one mark for the group: some of theirs may be set.
#[derive(Drop)]
struct Group {
    any: AtomicBool,
    slots: Vec<Slot>,
}

impl Group {
    fn new(alloc: Global) -> Result<Group, NoMemory> {
        let mut slots = Vec::with_capacity(alloc, GROUP)?;
        for _ in 0..GROUP {
            slots.push(Slot {
                mark: AtomicBool::new(false),
                is_heavy: AtomicBool::new(false),
                is_costly: AtomicBool::new(false),
                written: AtomicU64::new(0),
            })?;
        }
        Ok(Group {
            any: AtomicBool::new(false),
            slots,
        })
    }

    fn raise(&self, place: usize) {
        if let Some(slot) = self.slots.get(place) {
            if !slot.mark.swap(true, Ordering::SeqCst) {
                self.any.store(true, Ordering::SeqCst);
            }
        }
    }

    // Clears the group's mark and returns whether a slot may be marked.
    fn take_any(&self) -> bool {
        self.any.load(Ordering::SeqCst) && self.any.swap(false, Ordering::SeqCst)
    }

    // Clears the slot's mark and returns whether it was set.
    fn take(&self, place: usize) -> bool {
        match self.slots.get(place) {
            None => false,
            Some(slot) => {
                slot.mark.load(Ordering::SeqCst) && slot.mark.swap(false, Ordering::SeqCst)
            }
        }
    }

    // Whether what the slot's thread sends next may be costly.
    fn heavy(&self, place: usize) -> Option<&AtomicBool> {
        let slot = self.slots.get(place)?;
        Some(&slot.is_heavy)
    }

    // Whether the last messages of the slot's port were costly.
    fn costly(&self, place: usize) -> Option<&AtomicBool> {
        let slot = self.slots.get(place)?;
        Some(&slot.is_costly)
    }

    // The count of the bytes that the slot's thread has written.
    fn written(&self, place: usize) -> Option<&AtomicU64> {
        let slot = self.slots.get(place)?;
        Some(&slot.written)
    }
}

// What the hub and all threads share.
#[derive(Drop)]
struct Shared {
    waker: Arc<Waker, Global>,
    // How many bytes were written to clients.
    written: AtomicU64,
    // The hub waits for bytes to be written.
    is_awaited: AtomicBool,
}

/// A port's slot, and the waker of the hub's thread.
#[derive(Drop)]
pub struct Mark {
    group: Arc<Group, Global>,
    place: usize,
    is_client: bool,
    shared: Arc<Shared, Global>,
}

impl Mark {
    /// Marks the port, and wakes the hub's thread.
    pub fn raise(&self) {
        self.group.raise(self.place);
        self.shared.waker.wake();
    }

    /// Wakes the hub's thread.
    pub fn wake(&self) {
        self.shared.waker.wake();
    }

    /// Tells whether what the port sends from now on may be costly.
    pub fn set_heavy(&self, is_heavy: bool) {
        if let Some(heavy) = self.group.heavy(self.place) {
            heavy.store(is_heavy, Ordering::SeqCst);
        }
    }

    /// How many bytes the port's thread has written.
    pub fn written(&self) -> u64 {
        match self.group.written(self.place) {
            None => 0,
            Some(written) => written.load(Ordering::SeqCst),
        }
    }

    /// Counts bytes that were written, and wakes the hub's thread if it waits for that.
    pub fn wrote(&self, bytes: u64) {
        if let Some(written) = self.group.written(self.place) {
            written.fetch_add(bytes, Ordering::SeqCst);
        }
        if self.is_client {
            self.shared.written.fetch_add(bytes, Ordering::SeqCst);
        }
        if self.shared.is_awaited.load(Ordering::SeqCst)
            && self.shared.is_awaited.swap(false, Ordering::SeqCst)
        {
            self.shared.waker.wake();
        }
    }
}

/// The slots, with the port of each, and their marks.
#[derive(Drop)]
pub struct Marks {
    alloc: Global,
    shared: Arc<Shared, Global>,
    groups: Vec<Arc<Group, Global>>,
    // The port that has each slot.
    ports: Slab<usize>,
    // How many bytes were put to clients.
    put: u64,
}

impl Model for Marks {
    ghost use Rattle.port_hints.specs.Slots.{Given, given_code};

    ghost Value = { Given };

    ghost coded = { given_code };

    ghost view = { λ m. record { slots = m.ports.slots; put = m.put } };
}

impl Marks {
    /// No slot is given out yet. Fails only if an allocation is refused.
    pub fn new(alloc: Global) -> Result<Marks, NoMemory>
        ensures { IfOk result (λ m. m ≡ record { slots = []; put = 0 }) }
    {
        let shared = Shared {
            waker: Arc::new(alloc, Waker::new())?,
            written: AtomicU64::new(0),
            is_awaited: AtomicBool::new(false),
        };
        Ok(Marks {
            alloc,
            shared: Arc::new(alloc, shared)?,
            groups: Vec::new(alloc),
            ports: Slab::new(alloc),
            put: 0,
        })
    }

    /// Gives the port a slot, and returns the slot with its mark.
    pub fn add(&mut self, number: usize) -> Result<(usize, Mark), NoMemory>
        ensures free { IfOk result (λ given. port_at self.old.slots given.0 ≡ None) }
        ensures given { IfOk result (λ given. GivesSlot given.0 (Some number) self.old.slots self.new.slots) }
        ensures put { self.new.put ≡ self.old.put }
        ensures err { OnErr result (GivesNoSlot self.old.slots self.new.slots) }
    {
        let slot = self.ports.vacant_key();
        let index = slot / GROUP;
        if self.groups.get(index).is_none() {
            self.groups
                .push(Arc::new(self.alloc, Group::new(self.alloc)?)?)?;
        }
        let Some(group) = self.groups.get(index) else {
            return Err(NoMemory);
        };
        let mark = Mark {
            group: Arc::try_clone(group)?,
            place: slot % GROUP,
            is_client: number != 0,
            shared: Arc::try_clone(&self.shared)?,
        };
        mark.set_heavy(false);
        self.ports.insert(number)?;
        self.set_costly(slot, false);
        Ok((slot, mark))
    }

    /// Frees the slot of a port to which so many bytes were put.
    pub fn remove(&mut self, slot: usize, put: u64)
        ensures freed { GivesSlot slot None self.old.slots self.new.slots }
        ensures put { self.new.put ≡ put_without (port_at self.old.slots slot) put self.old.put }
    {
        let Some(number) = self.ports.try_remove(slot) else {
            return;
        };
        if number != 0 {
            self.put = self.put.saturating_sub(put);
        }
        let Some(group) = self.groups.get(slot / GROUP) else {
            return;
        };
        let Some(written) = group.written(slot % GROUP) else {
            return;
        };
        let written = written.swap(0, Ordering::SeqCst);
        if number != 0 {
            self.shared.written.fetch_sub(written, Ordering::SeqCst);
        }
    }

    /// Marks a port again.
    pub fn raise(&self, slot: usize) {
        if let Some(group) = self.groups.get(slot / GROUP) {
            group.raise(slot % GROUP);
        }
    }

    // Appends the marked ports, and clears their marks. After a refused allocation the ports that weren't appended stay
    // marked.
    fn take(&self, numbers: &mut Vec<usize>) -> Result<(), NoMemory>
        ensures { HasMarked self.now.slots numbers.old.items numbers.new.items }
    {
        for (index, group) in self.groups.iter().enumerate() {
            if group.take_any() {
                if self.take_group(index, group, numbers).is_err() {
                    group.any.store(true, Ordering::SeqCst);
                    return Err(NoMemory);
                }
            }
        }
        Ok(())
    }

    fn take_group(
        &self,
        index: usize,
        group: &Group,
        numbers: &mut Vec<usize>,
    ) -> Result<(), NoMemory>
        ensures { HasMarked self.now.slots numbers.old.items numbers.new.items }
    {
        let first = index.saturating_mul(GROUP);
        for place in 0..GROUP {
            if group.take(place) {
                if let Some(number) = self.ports.get(first.saturating_add(place)) {
                    if numbers.push(*number).is_err() {
                        group.raise(place);
                        return Err(NoMemory);
                    }
                }
            }
        }
        Ok(())
    }

    /// Adds the marked ports to a list of ports, sorts it, each number once, and clears their marks. After a refused
    /// allocation the ports that weren't added stay marked.
    pub fn add_to(&self, numbers: &mut Vec<usize>) -> Result<(), NoMemory>
        ensures kept { KeepsEach numbers.old.items numbers.new.items }
        ensures added { AddsPorts self.now.slots numbers.old.items numbers.new.items }
        ensures sorted { IsStrictlyIncreasing numbers.new.items }
    {
        let taken = self.take(numbers);
        numbers.sort_unstable();
        numbers.dedup();
        taken
    }

    /// Whether the port's last messages were costly, or its thread has told that the next ones may be.
    pub fn is_costly(&self, slot: usize) -> bool {
        let Some(group) = self.groups.get(slot / GROUP) else {
            return true;
        };
        let (Some(costly), Some(heavy)) = (group.costly(slot % GROUP), group.heavy(slot % GROUP))
        else {
            return true;
        };
        costly.load(Ordering::SeqCst) || heavy.load(Ordering::SeqCst)
    }

    pub fn set_costly(&self, slot: usize, is_costly: bool) {
        let Some(group) = self.groups.get(slot / GROUP) else {
            return;
        };
        if let Some(costly) = group.costly(slot % GROUP) {
            costly.store(is_costly, Ordering::SeqCst);
        }
    }

    /// Counts bytes that were put to clients.
    pub fn add_put(&mut self, bytes: usize)
        ensures { self.new ≡ record self.old { put = min (self.old.put + bytes) (2 ^ 64 - 1) } }
    {
        self.put = self.put.saturating_add(bytes as u64);
    }

    /// How many bytes are under way to all clients.
    pub fn under_way(&self) -> u64
        ensures { result ≤ self.now.put }
    {
        self.put
            .saturating_sub(self.shared.written.load(Ordering::SeqCst))
    }

    /// How many bytes are under way to a port, to which so many were put.
    pub fn under_way_to(&self, slot: usize, put: u64) -> u64
        ensures { result ≤ put }
    {
        let Some(group) = self.groups.get(slot / GROUP) else {
            return 0;
        };
        match group.written(slot % GROUP) {
            None => 0,
            Some(written) => put.saturating_sub(written.load(Ordering::SeqCst)),
        }
    }

    /// Has the next thread that writes wake the hub's.
    pub fn await_writes(&self) {
        self.shared.is_awaited.store(true, Ordering::SeqCst);
    }

    pub fn waker(&self) -> &Arc<Waker, Global> {
        &self.shared.waker
    }
}
