//! The responses to a client's requests, after the header of the frame.

ghost use Rattle.std.specs.Prelude.{◌≡◌};
ghost use Rattle.client_records.specs.Responses.{exists_response, get_data_response, get_children_response, get_children2_response, get_acl_response, path_response, create2_response, error_response, all_children_number_response, who_am_i_response, client_info, sasl_response};

use crate::fields::{Name, buffer_len, put_buffer, put_list, put_text, read_list, text_len};
use jute::{Acl, ReadRecord, Reader, Stat, WriteRecord, items_len, put_bytes};
use std::alloc::Global;
use std::marker::Model;
use values::{Bytes, Listed, NoMemory, ReadError, Str};

/// The ExistsResponse of zookeeper.jute.
#[derive(Drop, PartialEq)]
pub struct ExistsResponse {
    pub stat: Stat,
}

impl<'a> ReadRecord<'a> for ExistsResponse {
    ghost read_of = { exists_response.read };

    #[tactic(auto, unfolding(crate::specs::Responses::exists_response))]
    fn read(alloc: Global, reader: &mut Reader<'a>) -> Result<ExistsResponse, ReadError> {
        let stat = Stat::read(alloc, reader)?;
        Ok(ExistsResponse { stat })
    }
}

impl WriteRecord for ExistsResponse {
    ghost format = { exists_response };

    #[tactic(auto, unfolding(crate::specs::Responses::exists_response))]
    fn written_len(&self) -> usize {
        self.stat.written_len()
    }

    #[tactic(auto, unfolding(crate::specs::Responses::exists_response))]
    fn write(&self, out: &mut Vec<u8>) -> Result<(), NoMemory> {
        self.stat.write(out)
    }
}

/// The GetDataResponse of zookeeper.jute.
#[derive(Drop, PartialEq)]
pub struct GetDataResponse<'a> {
    /// The node's data; `None` is null.
    pub bytes: Option<Bytes<'a>>,
    pub stat: Stat,
}

impl<'a> ReadRecord<'a> for GetDataResponse<'a> {
    ghost read_of = { get_data_response.read };

    #[tactic(auto, unfolding(crate::specs::Responses::get_data_response))]
    fn read(alloc: Global, reader: &mut Reader<'a>) -> Result<GetDataResponse<'a>, ReadError> {
        let mut ahead = reader.ahead();
        let bytes = ahead.read_buffer()?.map(Bytes::new);
        let stat = Stat::read(alloc, &mut ahead)?;
        *reader = ahead;
        Ok(GetDataResponse { bytes, stat })
    }
}

impl<'a> WriteRecord for GetDataResponse<'a> {
    ghost format = { get_data_response };

    #[tactic(auto, unfolding(crate::specs::Responses::get_data_response))]
    fn written_len(&self) -> usize {
        buffer_len(&self.bytes) + self.stat.written_len()
    }

    #[tactic(auto, unfolding(crate::specs::Responses::get_data_response))]
    fn write(&self, out: &mut Vec<u8>) -> Result<(), NoMemory> {
        put_buffer(out, &self.bytes)?;
        self.stat.write(out)
    }
}

/// The GetChildrenResponse of zookeeper.jute. `put_names` writes one from the names of a set.
#[derive(Drop, PartialEq)]
pub struct GetChildrenResponse<'a> {
    /// The children's names. Null is read as no names.
    pub children: Listed<Name<'a>>,
}

impl<'a> ReadRecord<'a> for GetChildrenResponse<'a> {
    ghost read_of = { get_children_response.read };

    #[tactic(auto, unfolding(crate::specs::Responses::get_children_response))]
    fn read(alloc: Global, reader: &mut Reader<'a>) -> Result<GetChildrenResponse<'a>, ReadError> {
        let children = read_list(alloc, reader)?;
        Ok(GetChildrenResponse { children })
    }
}

impl<'a> WriteRecord for GetChildrenResponse<'a> {
    ghost format = { get_children_response };

    #[tactic(auto, unfolding(crate::specs::Responses::get_children_response, jute::specs::Format::number_bytes))]
    fn written_len(&self) -> usize {
        4 + items_len(self.children.as_slice())
    }

    #[tactic(auto, unfolding(crate::specs::Responses::get_children_response))]
    fn write(&self, out: &mut Vec<u8>) -> Result<(), NoMemory> {
        put_list(out, self.children.as_slice())
    }
}

/// The GetChildren2Response of zookeeper.jute. `put_names` and then the Stat write one from the names of a set.
#[derive(Drop, PartialEq)]
pub struct GetChildren2Response<'a> {
    /// The children's names. Null is read as no names.
    pub children: Listed<Name<'a>>,
    pub stat: Stat,
}

impl<'a> ReadRecord<'a> for GetChildren2Response<'a> {
    ghost read_of = { get_children2_response.read };

    #[tactic(auto, unfolding(crate::specs::Responses::get_children2_response, jute::specs::Format::judged_at))]
    fn read(alloc: Global, reader: &mut Reader<'a>) -> Result<GetChildren2Response<'a>, ReadError> {
        let mut ahead = reader.ahead();
        let children = read_list(alloc, &mut ahead)?;
        let stat = Stat::read(alloc, &mut ahead)?;
        *reader = ahead;
        Ok(GetChildren2Response { children, stat })
    }
}

impl<'a> WriteRecord for GetChildren2Response<'a> {
    ghost format = { get_children2_response };

    #[tactic(auto, unfolding(crate::specs::Responses::get_children2_response, jute::specs::Format::number_bytes))]
    fn written_len(&self) -> usize {
        4 + items_len(self.children.as_slice()) + self.stat.written_len()
    }

    #[tactic(auto, unfolding(crate::specs::Responses::get_children2_response))]
    fn write(&self, out: &mut Vec<u8>) -> Result<(), NoMemory> {
        put_list(out, self.children.as_slice())?;
        self.stat.write(out)
    }
}

/// A borrowed list of ACLs.
#[derive(Drop)]
pub struct Acls<'a> {
    items: &'a [Acl],
}

impl<'a> Model for Acls<'a> {
    ghost use Rattle.std.specs.Prelude.{List};
    ghost use Rattle.jute.specs.declared.owned.Acl.{Acl};

    ghost Value = { List Acl };

    ghost view = { λ a. a.items.now };
}

impl<'a> Acls<'a> {
    pub fn new(items: &'a [Acl]) -> Acls<'a>
        ensures { result ≡ items.now }
    {
        Acls { items }
    }

    pub fn as_slice(&self) -> &'a [Acl]
        ensures { result.now ≡ self.now }
    {
        self.items
    }
}

/// The GetACLResponse of zookeeper.jute. It is only written.
#[derive(Drop)]
pub struct GetAclResponse<'a> {
    /// The node's access control list.
    pub acl: Acls<'a>,
    pub stat: Stat,
}

impl<'a> WriteRecord for GetAclResponse<'a> {
    ghost format = { get_acl_response };

    #[tactic(auto, unfolding(crate::specs::Responses::get_acl_response, jute::specs::Format::number_bytes))]
    fn written_len(&self) -> usize {
        4 + items_len(self.acl.as_slice()) + self.stat.written_len()
    }

    #[tactic(auto, unfolding(crate::specs::Responses::get_acl_response))]
    fn write(&self, out: &mut Vec<u8>) -> Result<(), NoMemory> {
        put_list(out, self.acl.as_slice())?;
        self.stat.write(out)
    }
}

/// The CreateResponse and the SyncResponse of zookeeper.jute, which have the same field. It is only written.
#[derive(Drop)]
pub struct PathResponse<'a> {
    /// The path of the node; `None` is null.
    pub path: Option<Str<'a>>,
}

impl<'a> WriteRecord for PathResponse<'a> {
    ghost format = { path_response };

    #[tactic(auto, unfolding(crate::specs::Responses::path_response))]
    fn written_len(&self) -> usize {
        text_len(&self.path)
    }

    #[tactic(auto, unfolding(crate::specs::Responses::path_response))]
    fn write(&self, out: &mut Vec<u8>) -> Result<(), NoMemory> {
        put_text(out, &self.path)
    }
}

/// The Create2Response of zookeeper.jute, which answers a create of later clients. It is only written.
#[derive(Drop)]
pub struct Create2Response<'a> {
    /// The path of the new node; `None` is null.
    pub path: Option<Str<'a>>,
    pub stat: Stat,
}

impl<'a> WriteRecord for Create2Response<'a> {
    ghost format = { create2_response };

    #[tactic(auto, unfolding(crate::specs::Responses::create2_response))]
    fn written_len(&self) -> usize {
        text_len(&self.path) + self.stat.written_len()
    }

    #[tactic(auto, unfolding(crate::specs::Responses::create2_response))]
    fn write(&self, out: &mut Vec<u8>) -> Result<(), NoMemory> {
        put_text(out, &self.path)?;
        self.stat.write(out)
    }
}

/// The ErrorResponse of zookeeper.jute, which answers an addWatch of later clients. It is only written.
#[derive(Drop)]
pub struct ErrorResponse {
    /// The error of the header, again.
    pub err: i32,
}

impl WriteRecord for ErrorResponse {
    ghost format = { error_response };

    #[tactic(auto, unfolding(crate::specs::Responses::error_response, jute::specs::Format::number_bytes))]
    fn written_len(&self) -> usize {
        4
    }

    #[tactic(auto, unfolding(crate::specs::Responses::error_response))]
    fn write(&self, out: &mut Vec<u8>) -> Result<(), NoMemory> {
        self.err.write(out)
    }
}

/// The GetAllChildrenNumberResponse of zookeeper.jute. It is only written.
#[derive(Drop)]
pub struct GetAllChildrenNumberResponse {
    /// How many nodes are below the node, at any depth.
    pub total_number: i32,
}

impl WriteRecord for GetAllChildrenNumberResponse {
    ghost format = { all_children_number_response };

    #[tactic(auto, unfolding(crate::specs::Responses::all_children_number_response, jute::specs::Format::number_bytes))]
    fn written_len(&self) -> usize {
        4
    }

    #[tactic(auto, unfolding(crate::specs::Responses::all_children_number_response))]
    fn write(&self, out: &mut Vec<u8>) -> Result<(), NoMemory> {
        self.total_number.write(out)
    }
}

/// The ClientInfo of zookeeper.jute: an id of a connection, as it is shown to its client. It is only written.
#[derive(Drop)]
pub struct ClientInfo<'a> {
    /// The scheme, such as `digest`.
    pub auth_scheme: Bytes<'a>,
    /// Whom the id names in the scheme, in `digest` the user.
    pub user: Bytes<'a>,
}

impl<'a> WriteRecord for ClientInfo<'a> {
    ghost format = { client_info };

    #[tactic(auto, unfolding(crate::specs::Responses::client_info, jute::specs::Format::number_bytes))]
    fn written_len(&self) -> usize {
        8 + self.auth_scheme.as_slice().len() + self.user.as_slice().len()
    }

    #[tactic(auto, unfolding(crate::specs::Responses::client_info), using(values::proofs::Gaining::puts_behind, values::proofs::Gaining::gains_behind, values::proofs::Gaining::gains_first))]
    fn write(&self, out: &mut Vec<u8>) -> Result<(), NoMemory> {
        put_bytes(out, self.auth_scheme.as_slice())?;
        put_bytes(out, self.user.as_slice())
    }
}

/// The WhoAmIResponse of zookeeper.jute. It is only written.
#[derive(Drop)]
pub struct WhoAmIResponse<'a> {
    /// The ids of the connection.
    pub client_info: Listed<ClientInfo<'a>>,
}

impl<'a> WriteRecord for WhoAmIResponse<'a> {
    ghost format = { who_am_i_response };

    #[tactic(auto, unfolding(crate::specs::Responses::who_am_i_response, jute::specs::Format::number_bytes))]
    fn written_len(&self) -> usize {
        4 + items_len(self.client_info.as_slice())
    }

    #[tactic(auto, unfolding(crate::specs::Responses::who_am_i_response))]
    fn write(&self, out: &mut Vec<u8>) -> Result<(), NoMemory> {
        put_list(out, self.client_info.as_slice())
    }
}

/// The SetSASLResponse of zookeeper.jute. It is only written.
#[derive(Drop)]
pub struct SaslResponse<'a> {
    /// The token of the mechanism; `None` is null.
    pub token: Option<Bytes<'a>>,
}

impl<'a> WriteRecord for SaslResponse<'a> {
    ghost format = { sasl_response };

    #[tactic(auto, unfolding(crate::specs::Responses::sasl_response))]
    fn written_len(&self) -> usize {
        buffer_len(&self.token)
    }

    #[tactic(auto, unfolding(crate::specs::Responses::sasl_response))]
    fn write(&self, out: &mut Vec<u8>) -> Result<(), NoMemory> {
        put_buffer(out, &self.token)
    }
}
