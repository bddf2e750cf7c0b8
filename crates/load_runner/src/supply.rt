//! What an engine is fed: the messages of a leader and of clients, and the steps in which they come. All of them are
//! made before the first one is fed.

ghost use Rattle.std.specs.Prelude.{◌≤◌};
ghost use Rattle.txn_codec.specs.Spelling.{body_format};

use crate::messages::{TIMEOUT, write_connect, write_inform};
use anyhow::{Context, Result};
use observer_core::Event;
use settings::Dialect;
use std::alloc::Global;
use std::mem;
use txn_codec::{Body, Txn, TxnHeader};
use values::Bytes;

/// The session of transactions that no client here has asked for.
pub const SESSION: i64 = 7;

/// The connection of a primed engine.
pub const CONNECTION: u64 = 1;

/// The first connection that is opened.
pub const FIRST: u64 = 2;

// The session of connection 0, if there were one: an engine of server 1 counts sessions as connections are opened.
const SESSIONS: i64 = 0x100_0000_0000_0000;

/// The zxid before the first transaction of epoch 1.
pub const EPOCH: i64 = 0x1_0000_0000;

/// Where bytes of a supply stand.
#[derive(Clone, Copy)]
pub struct Place {
    start: usize,
    end: usize,
}

/// Who sends bytes.
#[derive(Clone, Copy)]
pub enum Sender {
    Leader,
    /// The client of this connection.
    Client(u64),
}

/// What happens at once.
#[derive(Clone, Copy)]
pub enum Step {
    LeaderUp,
    LeaderEnd,
    ClientUp(u64),
    /// The bytes at this place come.
    Bytes(Sender, Place),
    Checkpoint,
}

/// The session of a connection, if connections are opened one after the other from [`FIRST`] on.
pub fn session_of(connection: u64) -> Result<i64> {
    let number = i64::try_from(connection).context("no session is left")?;
    SESSIONS.checked_add(number).context("no session is left")
}

/// The connection with this place among those that are opened.
pub fn opened(place: u32) -> u64 {
    u64::from(place) + FIRST
}

/// Messages, and the steps in which they come.
#[derive(Drop)]
pub struct Supply {
    /// The messages, one after the other.
    pub bytes: Vec<u8>,
    /// The steps that bring the engine to where the measured part begins, once that is decided.
    pub before: Vec<Step>,
    /// The number of transactions in these.
    pub transactions_before: u64,
    /// The steps of the measured part.
    pub steps: Vec<Step>,
    /// The number of all transactions.
    pub transactions: u64,
    // The zxid of the last transaction.
    zxid: i64,
}

impl Supply {
    pub fn new(alloc: Global) -> Supply {
        Supply {
            bytes: Vec::new(alloc),
            before: Vec::new(alloc),
            transactions_before: 0,
            steps: Vec::new(alloc),
            transactions: 0,
            zxid: EPOCH,
        }
    }

    /// The measured part begins after all that was added.
    pub fn measure_from_here(&mut self, alloc: Global) {
        self.before = mem::replace(&mut self.steps, Vec::new(alloc));
        self.transactions_before = self.transactions;
    }

    /// Where the bytes stand that were written from here on.
    pub fn since(&self, start: usize) -> Place {
        Place {
            start,
            end: self.bytes.len(),
        }
    }

    /// Adds a step.
    pub fn add(&mut self, step: Step) -> Result<()> {
        Ok(self.steps.push(step)?)
    }

    /// The bytes that were written from here on come in one piece.
    pub fn send(&mut self, sender: Sender, start: usize) -> Result<()> {
        let place = self.since(start);
        self.add(Step::Bytes(sender, place))
    }

    /// The bytes at a place come in pieces of this length.
    pub fn send_in_pieces(&mut self, sender: Sender, place: Place, piece: usize) -> Result<()>
        requires { 1 ≤ piece }
    {
        for start in (place.start..place.end).step_by(piece) {
            let end = place.end.min(start.saturating_add(piece));
            self.add(Step::Bytes(sender, Place { start, end }))?;
        }
        Ok(())
    }

    /// Writes the packet of the next transaction, which is of this session and this request of its client.
    pub fn write_txn(&mut self, alloc: Global, session: i64, cxid: i32, body: Body) -> Result<()>
        requires { body_format.Writable body }
    {
        let zxid = self.zxid.checked_add(1).context("no zxid is left")?;
        let header = TxnHeader {
            client_id: session,
            cxid,
            zxid,
            time: 1000,
            rules: Dialect::Zk34,
        };
        self.zxid = zxid;
        self.transactions = self
            .transactions
            .checked_add(1)
            .context("no count is left")?;
        write_inform(alloc, &Txn { header, body }, &mut self.bytes)
    }

    /// The leader sends a transaction that no client here has asked for.
    pub fn tell(&mut self, alloc: Global, body: Body) -> Result<()>
        requires { body_format.Writable body }
    {
        let start = self.bytes.len();
        self.write_txn(alloc, SESSION, 1, body)?;
        self.send(Sender::Leader, start)
    }

    // A client connects, and the leader creates its session, which answers it.
    fn open(&mut self, alloc: Global, connection: u64, connect: Place) -> Result<()> {
        self.add(Step::ClientUp(connection))?;
        self.add(Step::Bytes(Sender::Client(connection), connect))?;
        let session = session_of(connection)?;
        let start = self.bytes.len();
        self.write_txn(alloc, session, 1, Body::CreateSession(TIMEOUT))?;
        self.send(Sender::Leader, start)
    }

    /// Clients connect, one after the other, and each gets a session. They are the first ones that do.
    pub fn open_all(&mut self, alloc: Global, connections: u32) -> Result<()> {
        let start = self.bytes.len();
        write_connect(alloc, &mut self.bytes)?;
        let connect = self.since(start);
        for place in 0..connections {
            self.open(alloc, opened(place), connect)?;
        }
        Ok(())
    }

    /// What happens at a step.
    pub fn event(&self, step: Step) -> Result<Event<'_>> {
        Ok(match step {
            Step::LeaderUp => Event::LeaderUp,
            Step::LeaderEnd => Event::LeaderEnd,
            Step::ClientUp(connection) => Event::ClientUp(connection, None),
            Step::Bytes(sender, place) => {
                let bytes = self.bytes.as_slice().get(place.start..place.end);
                let bytes = Bytes::new(bytes.context("a place beyond the bytes")?);
                match sender {
                    Sender::Leader => Event::LeaderBytes(bytes),
                    Sender::Client(connection) => Event::ClientBytes(connection, bytes),
                }
            }
            Step::Checkpoint => Event::Checkpoint,
        })
    }
}
