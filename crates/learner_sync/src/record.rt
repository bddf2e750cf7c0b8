//! The record by which a learner introduces itself.

ghost use Rattle.learner_sync.specs.Records.{learner_info};

use jute::{ReadRecord, Reader, WriteRecord, put_int, put_long};
use std::alloc::Global;
use values::{NoMemory, ReadError};

/// The LearnerInfo record of zookeeper.jute: the id and the protocol version of a learner.
#[derive(Clone, Copy, Debug, PartialEq, Eq)]
pub struct LearnerInfo {
    pub server_id: i64,
    /// The version of the protocol that the learner speaks.
    pub protocol_version: i32,
}

impl<'a> ReadRecord<'a> for LearnerInfo {
    ghost read_of = { learner_info.read };

    #[tactic(auto, unfolding(crate::specs::Records::learner_info))]
    fn read(_alloc: Global, reader: &mut Reader<'a>) -> Result<LearnerInfo, ReadError> {
        let mut ahead = reader.ahead();
        let server_id = ahead.read_long()?;
        let protocol_version = ahead.read_int()?;
        *reader = ahead;
        Ok(LearnerInfo {
            server_id,
            protocol_version,
        })
    }
}

impl WriteRecord for LearnerInfo {
    ghost format = { learner_info };

    #[tactic(auto, unfolding(crate::specs::Records::learner_info, jute::specs::Format::number_bytes))]
    fn written_len(&self) -> usize {
        12
    }

    #[tactic(auto, unfolding(crate::specs::Records::learner_info))]
    fn write(&self, out: &mut Vec<u8>) -> Result<(), NoMemory> {
        put_long(out, self.server_id)?;
        put_int(out, self.protocol_version)
    }
}
