// Tags of whole messages, by every mode.
use crate::parse::{array, bytes, fields};
use anyhow::anyhow;
use message::state::Message;
use message::tag_message;
use modes::kinds::{AnyMode, ModeKind};
use std::alloc::Global;
use streams::state::StreamCount;

// What a line gives: key, IV, header and body.
#[derive(Drop)]
struct Given {
    key: [u8; 32],
    iv: [u8; 16],
    header: Vec<u8>,
    body: Vec<u8>,
}

// The words are key, IV, header and body.
fn read_given(heap: Global, words: [&str; 4]) -> anyhow::Result<Given> {
    let [key, iv, header, body] = words;
    Ok(Given {
        key: array::<32>(heap, key)?,
        iv: array::<16>(heap, iv)?,
        header: bytes(heap, header)?,
        body: bytes(heap, body)?,
    })
}

// The mode of a line's words. Streams are read where the mode is none of the first three, which is SMAC-1×n.
fn kind_of(mode: &str, streams: &str) -> anyhow::Result<ModeKind> {
    match mode {
        "1" => Ok(ModeKind::Smac1),
        "2" => Ok(ModeKind::Smac34),
        "3" => Ok(ModeKind::Smac12),
        _ => match StreamCount::try_from(streams.parse::<u8>()?) {
            Ok(count) => Ok(ModeKind::Smac1xN(count)),
            Err(_) => Err(anyhow!("a call was refused")),
        },
    }
}

// Whether the mode's largest tag is the expected one.
fn agrees(kind: ModeKind, given: &Given, expected: &[u8]) -> anyhow::Result<bool> {
    let mut room = [0; 32];
    let out = &mut room[..kind.largest()];
    let message = Message {
        header: given.header.as_slice(),
        body: given.body.as_slice(),
    };
    match tag_message::<AnyMode>(kind, &given.key, &given.iv, &message, out) {
        Ok(()) => Ok(&out[..] == expected),
        Err(_) => Err(anyhow!("a call was refused")),
    }
}

// A line of published registers (mode, key, IV, header, body, nine registers) or of a tag (mode, streams, key, IV, header, body, tag).
pub fn tag_agrees(heap: Global, line: &str) -> anyhow::Result<bool> {
    match *fields(heap, line)?.as_slice() {
        [mode, key, iv, header, body, _, _, _, _, _, _, _, a2, a3] => {
            let given = read_given(heap, [key, iv, header, body])?;
            let mut expected = bytes(heap, a2)?;
            expected.extend_from_slice(bytes(heap, a3)?.as_slice())?;
            let kind = kind_of(mode, "")?;
            expected.truncate(kind.largest());
            agrees(kind, &given, expected.as_slice())
        }
        [mode, streams, key, iv, header, body, tag] => {
            let given = read_given(heap, [key, iv, header, body])?;
            let expected = bytes(heap, tag)?;
            agrees(kind_of(mode, streams)?, &given, expected.as_slice())
        }
        _ => Err(anyhow!("a line with another number of words")),
    }
}
