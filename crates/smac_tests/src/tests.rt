// Each published vector by the layer of modes: the registers after load, after the framed message, and after finish.
use crate::tables::{SMAC_1, SMAC_12, SMAC_34, Vector};
use hex::{FromHex, FromHexError};
use message::absorb_message;
use message::state::Message;
use mode::Mode;
use registers::RegisterWords;
use sigma::{Half, ThreeQuarters, Whole};
use singles::state::Paced;
use singles::variant::Variant;
use std::alloc::Global;
use std::process::Abort;
use std::test::Fail;
use streams::state::StreamCount;

// Registers A1, A2 and A3 from their text.
fn registers_of(text: [&str; 3]) -> Result<[[u8; 16]; 3], FromHexError> {
    text.try_map(|register| <[u8; 16]>::from_hex(register))
}

// Finish mixes the registers that the framed message led to.
fn finished<V: Variant>([a1, a2, a3]: [[u8; 16]; 3]) -> [[u8; 16]; 3] {
    RegisterWords::<V>::from_bytes(&a1, &a2, &a3)
        .mixed()
        .to_bytes()
}

// The registers after load, after the framed message and after finish, of each vector.
fn check_registers<V: Variant>(
    rt: &impl Abort,
    heap: Global,
    vectors: &[Vector],
) -> Result<(), Fail> {
    for vector in vectors {
        let key = <[u8; 32]>::from_hex(vector.key)?;
        let iv = <[u8; 16]>::from_hex(vector.iv)?;
        let header = hex::decode(heap, vector.header)?;
        let body = hex::decode(heap, vector.body)?;
        let led_to = registers_of(vector.led)?;
        let message = Message {
            header: header.as_slice(),
            body: body.as_slice(),
        };
        let start = Paced::<V>::load((), &key, &iv);
        let end = absorb_message::<Paced<V>>((), &key, &iv, &message)?;
        assert!(rt; start.registers() == registers_of(vector.loaded)?);
        assert!(rt; end.registers() == led_to);
        assert!(rt; finished::<V>(led_to) == registers_of(vector.finished)?);
    }
    Ok(())
}

// One line for each mode, so that the report names them.
#[test]
fn smac_1(rt: HostRuntime) -> Result<(), Fail> {
    check_registers::<Whole>(&rt, rt.alloc(), &SMAC_1)
}

#[test]
fn smac_34(rt: HostRuntime) -> Result<(), Fail> {
    check_registers::<ThreeQuarters>(&rt, rt.alloc(), &SMAC_34)
}

#[test]
fn smac_12(rt: HostRuntime) -> Result<(), Fail> {
    check_registers::<Half>(&rt, rt.alloc(), &SMAC_12)
}

#[test]
fn stream_counts(rt: HostRuntime) {
    assert!(rt; StreamCount::try_from(0).is_err());
    assert!(rt; StreamCount::try_from(16).is_ok());
    assert!(rt; StreamCount::try_from(17).is_err());
}
