//! Reads that wait for their answers.

ghost use Rattle.std.specs.Prelude.{◌≡◌, IfOk};

use client_records::ReadKind;
use read_processor::Request;
use settings::Dialect;
use std::alloc::Global;
use std::marker::Model;
use values::{NoMemory, Str, Text};

/// A read that a connection asked for and that isn't answered yet. It has its own copy of the path.
#[derive(Drop)]
pub struct AskedRead {
    number: u64,
    xid: i32,
    kind: ReadKind,
    path: Option<Text>,
    watch: bool,
    rules: Dialect,
}

impl Model for AskedRead {
    ghost use Rattle.client_service.specs.Runs.{AskedRead as TheRead};

    ghost Value = { TheRead };

    ghost view = { λ a. record {
      number = a.number;
      xid = a.xid;
      request = record { kind = a.kind; path = a.path; watch = a.watch; rules = a.rules };
    } };
}

fn own_path(alloc: Global, path: &Option<Str<'_>>) -> Result<Option<Text>, NoMemory>
    ensures { IfOk result (λ owned. owned ≡ path.now) }
{
    match path {
        None => return Ok(None),
        Some(path) => Ok(Some(Text::new(alloc, path.as_str())?)),
    }
}

impl AskedRead {
    /// The read that a connection asks for. Fails only if an allocation is refused.
    pub fn of(
        alloc: Global,
        number: u64,
        xid: i32,
        request: &Request<'_>,
    ) -> Result<AskedRead, NoMemory>
        ensures { IfOk result
            (λ read. read ≡ record { number = number; xid = xid; request = request.now }) }
    {
        let path = own_path(alloc, &request.path)?;
        Ok(AskedRead {
            number,
            xid,
            kind: request.kind,
            path,
            watch: request.watch,
            rules: request.rules,
        })
    }

    /// The connection that asked.
    pub fn number(&self) -> u64
        ensures { result ≡ self.now.number }
    {
        self.number
    }

    /// The xid of the reply.
    pub fn xid(&self) -> i32
        ensures { result ≡ self.now.xid }
    {
        self.xid
    }

    /// The request, with the path borrowed.
    pub fn lend(&self) -> Request<'_>
        ensures { result ≡ self.now.request }
    {
        Request {
            kind: self.kind,
            path: self.path.as_ref().map(|path| Str::new(path.as_str())),
            watch: self.watch,
            rules: self.rules,
        }
    }
}
