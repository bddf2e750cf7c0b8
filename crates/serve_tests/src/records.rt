//! A record is a script.

use intake::Message;
use serve::{Record, put_message};
use settings::ServerId;
use std::alloc::Global;
use std::test::Fail;
use values::{Blob, Text};

// The lines of these messages.
fn lines(alloc: Global, messages: &[(usize, Message)]) -> Result<Vec<u8>, Fail> {
    let mut lines = Vec::new(alloc);
    for (port, message) in messages {
        put_message(&mut lines, *port, message)?;
    }
    Ok(lines)
}

fn bytes(alloc: Global, text: &[u8]) -> Result<Message, Fail> {
    Ok(Message::Bytes(Blob::new(alloc, text)?))
}

#[test]
fn each_message_has_its_line(rt: HostRuntime) -> Result<(), Fail> {
    let alloc = rt.alloc();
    let messages = vec![in alloc;
        (0, Message::Up(None)),
        (0, bytes(alloc, &[0, 171])?),
        (12, Message::Up(None)),
        (13, Message::Up(Some(Text::new(alloc, "0:0:0:0:0:0:0:1")?))),
        (12, bytes(alloc, &[255])?),
        (12, Message::End),
        (3, Message::Checkpoint),
        (3, Message::Expire(-2)),
        (0, Message::End),
    ]?;
    let text = lines(alloc, messages.as_slice())?;
    let wanted =
        "leader up\nleader 00ab\nclient 12 up\nclient 13 up 0:0:0:0:0:0:0:1\nclient 12 ff\nclient 12 end\ncheckpoint\n\
    expire fffffffffffffffe\nleader end\n";
    assert!(rt; text.as_slice() == wanted.as_bytes());
    Ok(())
}
