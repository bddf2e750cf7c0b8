//! Lines of a script.

ghost use Rattle.std.specs.Prelude.{◌≡◌, true, IfOk};
ghost use Rattle.std.specs.Char.{is_ascii_graphic};
ghost use Rattle.std.specs.List.{list_all};
ghost use Rattle.std.specs.Str.{is_utf8};
ghost use Rattle.replay_script.specs.Line.{keyword_of, coming_of, leader_event, client_event, is_address_text, client_up, coming_of_client, client_of, expire_of, server_setting, counter_setting, epochs_setting, timeouts_setting, secret_setting, dialect_setting, super_setting, line_of_keyword, line_with_text, line_of_words, line_of};

use crate::event::{Coming, Keyword, Line, ScriptEvent, Setting};
use crate::hex::read_hex;
use crate::ints::{int_of, ints_of};
use byteorder::{BigEndian, ByteOrder};
use settings::{Dialect, Epochs, FirstCounter, Secret, ServerId, TimeoutBounds};
use std::alloc::Global;
use texts::{cut_at, number_up_to};
use values::{Bytes, NoMemory, Text};

// The longest address of a client, in bytes.
const ADDRESS_LIMIT: usize = 64;

fn keyword_of(word: &[u8]) -> Option<Keyword>
    ensures { result ≡ keyword_of word.now }
{
    if word == b"server".as_slice() {
        Some(Keyword::Server)
    } else if word == b"counter".as_slice() {
        Some(Keyword::Counter)
    } else if word == b"epochs".as_slice() {
        Some(Keyword::Epochs)
    } else if word == b"timeouts".as_slice() {
        Some(Keyword::Timeouts)
    } else if word == b"secret".as_slice() {
        Some(Keyword::Secret)
    } else if word == b"dialect".as_slice() {
        Some(Keyword::Dialect)
    } else if word == b"super".as_slice() {
        Some(Keyword::Super)
    } else if word == b"primed".as_slice() {
        Some(Keyword::Primed)
    } else if word == b"leader".as_slice() {
        Some(Keyword::Leader)
    } else if word == b"client".as_slice() {
        Some(Keyword::Client)
    } else if word == b"expire".as_slice() {
        Some(Keyword::Expire)
    } else if word == b"checkpoint".as_slice() {
        Some(Keyword::Checkpoint)
    } else {
        None
    }
}

fn coming_of(alloc: Global, text: &[u8]) -> Result<Option<Coming>, NoMemory>
    ensures { IfOk result (λ coming. coming ≡ coming_of text.now) }
{
    if text == b"up".as_slice() {
        return Ok(Some(Coming::Up));
    }
    if text == b"end".as_slice() {
        return Ok(Some(Coming::End));
    }
    Ok(read_hex(alloc, text)?.map(Coming::Bytes))
}

fn leader_event(coming: Coming) -> ScriptEvent
    ensures { result ≡ leader_event coming }
{
    match coming {
        Coming::Up => ScriptEvent::LeaderUp,
        Coming::Bytes(bytes) => ScriptEvent::LeaderBytes(bytes),
        Coming::End => ScriptEvent::LeaderEnd,
    }
}

fn client_event(client: u64, coming: Coming) -> ScriptEvent
    ensures { result ≡ client_event client coming }
{
    match coming {
        Coming::Up => ScriptEvent::ClientUp(client, None),
        Coming::Bytes(bytes) => ScriptEvent::ClientBytes(client, bytes),
        Coming::End => ScriptEvent::ClientEnd(client),
    }
}

fn are_graphic(text: &[u8]) -> bool
    ensures { result ≡ list_all is_ascii_graphic text.now }
{
    text.iter().all(|b| b.is_ascii_graphic())
}

fn is_address_text(text: &[u8]) -> bool
    ensures { result ≡ is_address_text text.now }
{
    !text.is_empty() && text.len() <= ADDRESS_LIMIT && are_graphic(text)
}

// The text of these bytes, which are an address.
fn address_text(alloc: Global, bytes: &[u8]) -> Result<Text, NoMemory>
    requires { is_address_text bytes.now ≡ true }
    ensures { IfOk result (λ text. text ≡ bytes.now) }
{
    match str::from_utf8(bytes) {
        Err(_) => unreachable!(),
        Ok(text) => Text::new(alloc, text),
    }
}

fn client_up(
    alloc: Global,
    client: u64,
    address: Option<Bytes<'_>>,
) -> Result<Option<ScriptEvent>, NoMemory>
    ensures { IfOk result (λ event. event ≡ client_up client address.entry) }
{
    let Some(address) = address else {
        return Ok(Some(ScriptEvent::ClientUp(client, None)));
    };
    if !is_address_text(address.as_slice()) {
        return Ok(None);
    }
    let text = address_text(alloc, address.as_slice())?;
    Ok(Some(ScriptEvent::ClientUp(client, Some(text))))
}

fn coming_of_client(
    alloc: Global,
    client: u64,
    text: &[u8],
) -> Result<Option<ScriptEvent>, NoMemory>
    ensures { IfOk result (λ event. event ≡ coming_of_client client text.now) }
{
    let words = cut_at(b' ', text);
    if words.front.as_slice() == b"up".as_slice() {
        return client_up(alloc, client, words.behind);
    }
    match coming_of(alloc, text)? {
        None => Ok(None),
        Some(coming) => Ok(Some(client_event(client, coming))),
    }
}

fn client_of(alloc: Global, text: &[u8]) -> Result<Option<ScriptEvent>, NoMemory>
    ensures { IfOk result (λ event. event ≡ client_of text.now) }
{
    let words = cut_at(b' ', text);
    let Some(client) = number_up_to(u64::from(u32::MAX), words.front.as_slice()) else {
        return Ok(None);
    };
    let Some(behind) = words.behind else {
        return Ok(None);
    };
    coming_of_client(alloc, client, behind.as_slice())
}

fn expire_of(alloc: Global, text: &[u8]) -> Result<Option<ScriptEvent>, NoMemory>
    ensures { IfOk result (λ event. event ≡ expire_of text.now) }
{
    match read_hex(alloc, text)? {
        None => Ok(None),
        Some(bytes) => {
            let bytes = bytes.as_slice();
            if bytes.len() != 8 {
                return Ok(None);
            }
            Ok(Some(ScriptEvent::Expire(BigEndian::read_i64(bytes))))
        }
    }
}

fn server_of(text: &[u8]) -> Option<Setting>
    ensures { result ≡ server_setting text.now }
{
    let id = ServerId::new(int_of(text)?)?;
    Some(Setting::Server(id))
}

fn counter_of(text: &[u8]) -> Option<Setting>
    ensures { result ≡ counter_setting text.now }
{
    let first = FirstCounter::new(number_up_to(u64::MAX, text)?)?;
    Some(Setting::Counter(first))
}

fn epochs_of(text: &[u8]) -> Option<Setting>
    ensures { result ≡ epochs_setting text.now }
{
    let (accepted, current) = ints_of(text)?;
    let epochs = Epochs::new(accepted, current)?;
    Some(Setting::Epochs(epochs))
}

fn timeouts_of(text: &[u8]) -> Option<Setting>
    ensures { result ≡ timeouts_setting text.now }
{
    let (least, greatest) = ints_of(text)?;
    let timeouts = TimeoutBounds::new(least, greatest)?;
    Some(Setting::Timeouts(timeouts))
}

fn secret_of(alloc: Global, text: &[u8]) -> Result<Option<Setting>, NoMemory>
    ensures { IfOk result (λ setting. setting ≡ secret_setting text.now) }
{
    match read_hex(alloc, text)? {
        None => Ok(None),
        Some(bytes) => Ok(Secret::new(bytes).map(Setting::Secret)),
    }
}

fn dialect_of(text: &[u8]) -> Option<Setting>
    ensures { result ≡ dialect_setting text.now }
{
    if text == b"3.4".as_slice() {
        return Some(Setting::Dialect(Dialect::Zk34));
    }
    if text == b"3.8".as_slice() {
        return Some(Setting::Dialect(Dialect::Zk38));
    }
    None
}

fn super_of(alloc: Global, text: &[u8]) -> Result<Option<Setting>, NoMemory>
    ensures { IfOk result (λ setting. setting ≡ super_setting text.now) }
{
    if text.is_empty() {
        return Ok(None);
    }
    match str::from_utf8(text) {
        Err(_) => return Ok(None),
        Ok(digest) => Ok(Some(Setting::Super(Text::new(alloc, digest)?))),
    }
}

fn alone(word: Keyword) -> Option<Line>
    ensures { result ≡ line_of_keyword word }
{
    match word {
        Keyword::Primed => Some(Line::Header(Setting::Primed)),
        Keyword::Checkpoint => Some(Line::Happening(ScriptEvent::Checkpoint)),
        Keyword::Server
        | Keyword::Counter
        | Keyword::Epochs
        | Keyword::Timeouts
        | Keyword::Secret
        | Keyword::Dialect
        | Keyword::Super
        | Keyword::Leader
        | Keyword::Client
        | Keyword::Expire => None,
    }
}

fn followed(alloc: Global, word: Keyword, text: &[u8]) -> Result<Option<Line>, NoMemory>
    ensures { IfOk result (λ line. line ≡ line_with_text word text.now) }
{
    match word {
        Keyword::Server => Ok(server_of(text).map(Line::Header)),
        Keyword::Counter => Ok(counter_of(text).map(Line::Header)),
        Keyword::Epochs => Ok(epochs_of(text).map(Line::Header)),
        Keyword::Timeouts => Ok(timeouts_of(text).map(Line::Header)),
        Keyword::Secret => Ok(secret_of(alloc, text)?.map(Line::Header)),
        Keyword::Dialect => Ok(dialect_of(text).map(Line::Header)),
        Keyword::Super => Ok(super_of(alloc, text)?.map(Line::Header)),
        Keyword::Leader => match coming_of(alloc, text)? {
            None => Ok(None),
            Some(coming) => Ok(Some(Line::Happening(leader_event(coming)))),
        },
        Keyword::Client => Ok(client_of(alloc, text)?.map(Line::Happening)),
        Keyword::Expire => Ok(expire_of(alloc, text)?.map(Line::Happening)),
        Keyword::Primed | Keyword::Checkpoint => Ok(None),
    }
}

fn is_text(bytes: &[u8]) -> bool
    ensures { result ≡ is_utf8 bytes.now }
{
    match str::from_utf8(bytes) {
        Ok(_) => return true,
        Err(_) => return false,
    }
}

/// The meaning of a line, or None if it isn't valid. Fails only if an allocation is refused.
pub(crate) fn line_of(alloc: Global, text: &[u8]) -> Result<Option<Line>, NoMemory>
    ensures { IfOk result (λ line. line ≡ line_of text.now) }
{
    if text.is_empty() {
        return Ok(Some(Line::Blank));
    }
    if text[0] == b'#' {
        return Ok(is_text(text).then_some(Line::Blank));
    }
    let words = cut_at(b' ', text);
    let Some(word) = keyword_of(words.front.as_slice()) else {
        return Ok(None);
    };
    match words.behind {
        None => Ok(alone(word)),
        Some(behind) => followed(alloc, word, behind.as_slice()),
    }
}
