//! The messages that bring a learner up to date, and those that come while clients are served.

ghost use Rattle.std.specs.Prelude.{◌≡◌, int_lt, Ok};
ghost use Rattle.jute.specs.Reads.{ReadsOwnedWhole};
ghost use Rattle.learner_sync.specs.Learn.{LearnsItem, zxid_floor, with_applied_zxid, carried_txn, learn_inform, learn_activation, apply_txn, learn_revalidated, learn_proposal, learn_commit, new_leader, up_to_date, message_in_replay, message_in_serving};

use crate::act::{Act, ActList};
use crate::answers::{act_list, empty_act_list};
use crate::learner::Learner;
use crate::message::Message;
use crate::phase::Phase;
use jute::Reader;
use std::alloc::Global;
use txn_codec::{Txn, TxnHeader, decode_txn_in};
use values::{Fault, ReadError};

impl Learner {
    // Whether a transaction with this header is in order.
    fn may_apply(&self, header: &TxnHeader) -> bool
        ensures { result ≡ int_lt (zxid_floor self.now.phase self.now.last_zxid) header.now.zxid }
    {
        let floor = match self.phase {
            Phase::ReplayOnImage(applied) => applied,
            Phase::Down
            | Phase::Hello
            | Phase::Sync
            | Phase::Image(_)
            | Phase::Replay
            | Phase::Serving => self.last_zxid,
        };
        floor < header.zxid
    }

    // Moves the last zxid and the phase to a transaction that was put into the log.
    fn note_applied(&mut self, header: TxnHeader)
        ensures { self.new ≡ with_applied_zxid self.old header.zxid }
    {
        if let Phase::ReplayOnImage(_) = self.phase {
            self.phase = Phase::ReplayOnImage(header.zxid);
        }
        self.last_zxid = self.last_zxid.max(header.zxid);
    }

    fn carried_txn(&self, alloc: Global, bytes: &[u8]) -> Result<Txn, ReadError>
        ensures { ReadsOwnedWhole (carried_txn self.now bytes.now) result }
    {
        decode_txn_in(self.dialect, alloc, bytes)
    }

    // Puts a transaction that was committed into the log.
    fn append(&mut self, txn: Txn) -> Result<ActList, ReadError>
        ensures { LearnsItem result (apply_txn self.old txn) self.old self.new }
    {
        if !self.may_apply(&txn.header) {
            return Err(ReadError::Fault(Fault::OutOfOrder));
        }
        self.log.reserve(1)?;
        let header = txn.header;
        self.log.push_reserved(txn);
        self.note_applied(header);
        Ok(ActList::apply())
    }

    // Applies a transaction that is proposed and committed in one packet.
    fn inform(&mut self, alloc: Global, bytes: &[u8]) -> Result<ActList, ReadError>
        ensures { LearnsItem result (learn_inform self.old bytes.now) self.old self.new }
    {
        match self.carried_txn(alloc, bytes) {
            Ok(txn) => self.append(txn),
            Err(error) => Err(error),
        }
    }

    // Applies a change of the configuration, which comes after the id of a server.
    fn activate(&mut self, alloc: Global, bytes: &[u8]) -> Result<ActList, ReadError>
        ensures { LearnsItem result (learn_activation self.old bytes.now) self.old self.new }
    {
        let mut reader = Reader::new(bytes);
        reader.read_long()?;
        self.inform(alloc, reader.rest())
    }

    // Keeps a transaction until its commit.
    fn propose(&mut self, alloc: Global, bytes: &[u8]) -> Result<ActList, ReadError>
        ensures { LearnsItem result (learn_proposal self.old bytes.now) self.old self.new }
    {
        let txn = self.carried_txn(alloc, bytes)?;
        self.proposals.push_back(txn)?;
        Ok(empty_act_list(alloc))
    }

    // Applies the oldest proposal, which has to have this zxid.
    fn commit(&mut self, zxid: i64) -> Result<ActList, ReadError>
        ensures { LearnsItem result (learn_commit self.old zxid) self.old self.new }
    {
        let Some(oldest) = self.proposals.front() else {
            return Err(ReadError::Fault(Fault::CommitMismatch));
        };
        if oldest.header.zxid != zxid {
            return Err(ReadError::Fault(Fault::CommitMismatch));
        }
        if !self.may_apply(&oldest.header) {
            return Err(ReadError::Fault(Fault::OutOfOrder));
        }
        self.log.reserve(1)?;
        let Some(oldest) = self.proposals.pop_front() else {
            unreachable!()
        };
        let header = oldest.header;
        self.log.push_reserved(oldest);
        self.note_applied(header);
        Ok(ActList::apply())
    }

    // Reads the leader's answer for a session that a client brought.
    fn revalidated(&self, alloc: Global, bytes: &[u8]) -> Result<ActList, ReadError>
        ensures { LearnsItem result (learn_revalidated self.now bytes.now) self.now self.now }
    {
        let mut reader = Reader::new(bytes);
        let session = reader.read_long()?;
        let is_valid = reader.read_bool()?;
        Ok(act_list(alloc, Act::Revalidated { session, is_valid })?)
    }

    // Takes the leader's epoch as the current one.
    fn new_leader(&mut self, alloc: Global) -> Result<ActList, ReadError>
        ensures { LearnsItem result (Ok (new_leader self.old)) self.old self.new }
    {
        let acts = vec![in alloc; Act::Epochs, Act::Send(self.acknowledgement())]?;
        self.current_epoch = self.accepted_epoch;
        Ok(ActList::from_vec(acts))
    }

    // The learner is up to date: clients are served, and open proposals are forgotten.
    fn up_to_date(&mut self, alloc: Global) -> Result<ActList, ReadError>
        ensures { LearnsItem result (Ok (up_to_date self.old)) self.old self.new }
    {
        let acts = vec![in alloc;
            Act::Epochs,
            Act::Send(self.acknowledgement()),
            Act::ServeFrom,
        ]?;
        self.phase = Phase::Serving;
        self.current_epoch = self.accepted_epoch;
        self.proposals.clear();
        Ok(ActList::from_vec(acts))
    }

    /// Takes a message while the learner isn't up to date.
    pub(crate) fn replay(
        &mut self,
        alloc: Global,
        message: Message<'_>,
    ) -> Result<ActList, ReadError>
        ensures { LearnsItem result (message_in_replay self.old message.entry) self.old self.new }
    {
        match message {
            Message::Proposal(bytes) => self.propose(alloc, bytes.as_slice()),
            Message::Commit(zxid) => self.commit(zxid),
            Message::Inform(bytes) => self.inform(alloc, bytes.as_slice()),
            Message::InformAndActivate(bytes) => self.activate(alloc, bytes.as_slice()),
            Message::NewLeader => self.new_leader(alloc),
            Message::UpToDate => self.up_to_date(alloc),
            Message::Ping(_ping) => Ok(empty_act_list(alloc)),
            Message::LeaderInfo { .. }
            | Message::Diff
            | Message::Trunc(_)
            | Message::Snap(_)
            | Message::Sync
            | Message::Revalidated(_)
            | Message::Other => Ok(empty_act_list(alloc)),
        }
    }

    /// Takes a message while clients are served.
    pub(crate) fn serve(
        &mut self,
        alloc: Global,
        message: Message<'_>,
    ) -> Result<ActList, ReadError>
        ensures { LearnsItem result (message_in_serving self.old message.entry) self.old self.new }
    {
        match message {
            Message::Ping(packet) => Ok(act_list(
                alloc,
                Act::AnswerPing(packet.into_owned(alloc)?),
            )?),
            Message::Sync => Ok(act_list(alloc, Act::SettleSync)?),
            Message::Inform(bytes) => self.inform(alloc, bytes.as_slice()),
            Message::InformAndActivate(bytes) => self.activate(alloc, bytes.as_slice()),
            Message::Revalidated(bytes) => self.revalidated(alloc, bytes.as_slice()),
            Message::LeaderInfo { .. }
            | Message::Diff
            | Message::Trunc(_)
            | Message::Snap(_)
            | Message::Proposal(_)
            | Message::Commit(_)
            | Message::NewLeader
            | Message::UpToDate
            | Message::Other => Ok(empty_act_list(alloc)),
        }
    }
}
