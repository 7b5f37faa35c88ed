// Whole runs in each of the four modes, with pieces that are refused on the way: how each piece was answered, the tag, and the way back.
#![tactic(auto)]

use counts::state::Ceiling;
use keys::state::{KeySlot, Serial};
use mode::Mode;
use modes::kinds::{AnyMode, ModeKind};
use refusals::Refusal;
use replay::replay;
use replay::state::{Pieces, Replayed, Start};

const SERIAL: Serial = Serial {
    office: 7,
    number: 42,
};

// The framed message of what is accepted, with the two zero blocks that three streams are due.
const MESSAGE: [[u8; 16]; 6] = [
    *b"payroll file, in",
    *b" pieces\0\0\0\0\0\0\0\0\0",
    *b"a body\0\0\0\0\0\0\0\0\0\0",
    *b"\xb8\0\0\0\0\0\0\0\x30\0\0\0\0\0\0\0",
    [0; 16],
    [0; 16],
];

fn run(rt: &HostRuntime, kind: ModeKind, key: &KeySlot) -> anyhow::Result<Replayed<AnyMode>> {
    let header: [&[u8]; 3] = [
        b"payroll file",
        b" of a length past the ceiling",
        b", in pieces",
    ];
    let body: [&[u8]; 3] = [b"a b", b"ody", b"more than the ceiling would allow"];
    let start = Start::<AnyMode> {
        setup: kind,
        key,
        ceiling: Ceiling::new(30)?,
        serial: SERIAL,
    };
    let pieces = Pieces {
        header: &header,
        body: &body,
    };
    Ok(replay(rt.alloc(), &start, &pieces)?)
}

fn show_answers(
    rt: &HostRuntime,
    part: &str,
    answers: &[Result<(), Refusal>],
) -> anyhow::Result<()> {
    print!(rt; " {part}:")?;
    for answer in answers {
        match answer {
            Ok(()) => print!(rt; " taken")?,
            Err(refusal) => print!(rt; " refused with {}", refusal.number())?,
        }
    }
    Ok(())
}

// The answers, the tag, and whether walking back over the framed message leads to what was loaded.
fn show(rt: &HostRuntime, name: &str, blocks: &[[u8; 16]]) -> anyhow::Result<()> {
    let kind = name.parse::<ModeKind>()?;
    let key = KeySlot::new();
    let done = run(rt, kind, &key)?;
    print!(rt; "{kind}")?;
    show_answers(rt, "header", done.header.as_slice())?;
    show_answers(rt, "body", done.body.as_slice())?;
    let mut room = [0; 32];
    let tag = &mut room[..kind.largest()];
    done.run.tag(tag)?;
    print!(rt; " tag ")?;
    for byte in tag.iter() {
        print!(rt; "{byte:02x}")?;
    }
    let Replayed { run, .. } = done;
    let start = run.walk_back(blocks);
    let loaded = AnyMode::load(kind, key.bytes(), &SERIAL.iv());
    let back = start.finish() == loaded.finish();
    println!(rt; " back at the start: {back}")?;
    Ok(())
}

fn main(rt: HostRuntime) -> anyhow::Result<()> {
    for name in ["smac-1", "smac-3/4", "smac-1/2"] {
        show(&rt, name, &MESSAGE[..4])?;
    }
    show(&rt, "smac-1x3", &MESSAGE)
}
