// Sections against vectors, damaged sections, and sizes.
use crate::tables::VECTORS;
use keys::state::{DrawnSerial, KeySlot, Serial, SerialBook};
use refusals::Refusal;
use section::{open, seal};
use std::alloc::Global;
use std::process::Abort;
use std::test::Fail;

fn slot(key: &[u8]) -> Result<KeySlot, Refusal> {
    let mut slot = KeySlot::new();
    slot.set(key)?;
    Ok(slot)
}

fn drawn(serial: Serial) -> Result<DrawnSerial, Refusal> {
    SerialBook::new(serial.office, serial.number, serial.number).draw()
}

// A serial of office 7.
fn of_seven(number: u64) -> Serial {
    Serial { office: 7, number }
}

#[test]
fn vectors(rt: HostRuntime) -> Result<(), Fail> {
    let heap = rt.alloc();
    for v in &VECTORS {
        let key = slot(v.key)?;
        let mut sealed = vec![in heap; 0u8; v.section.len()]?;
        seal(&key, drawn(v.serial)?, v.header, v.body, &mut sealed)?;
        assert!(rt; sealed.as_slice() == v.section);
        let mut opened = vec![in heap; 0u8; v.body.len()]?;
        open(&key, v.serial, v.header, v.section, &mut opened)?;
        assert!(rt; opened.as_slice() == v.body);
    }
    Ok(())
}

// A changed bit anywhere in a section is refused, and leaves zeros.
#[test]
fn every_bit(rt: HostRuntime) -> Result<(), Fail> {
    let key = slot(b"sixteen or more.")?;
    let header = b"office 7, May";
    let mut sealed = [0; 27];
    seal(
        &key,
        drawn(of_seven(1))?,
        header,
        b"net 1234.56",
        &mut sealed,
    )?;
    // The place is what is damaged, in a copy, so no iterator over the bytes serves.
    for place in 0..sealed.len() {
        // Written out: at `1 << bit` the proof of the cast stayed open.
        for bit in [1, 2, 4, 8, 16, 32, 64, 128] {
            let mut damaged = sealed;
            damaged[place] ^= bit;
            let mut out = [1; 11];
            let answer = open(&key, of_seven(1), header, &damaged, &mut out);
            assert!(rt; answer == Err(Refusal::TagMismatch));
            assert!(rt; out == [0; 11]);
        }
    }
    Ok(())
}

// A body of this many bytes is sealed and opened again.
fn there_and_back(rt: &impl Abort, heap: Global, len: u32) -> Result<(), Fail> {
    let key = slot(b"sixteen or more.")?;
    let len = len as usize;
    let body = vec![in heap; 0x5a; len]?;
    let mut sealed = vec![in heap; 0; len + 16]?;
    seal(&key, drawn(of_seven(2))?, b"header", &body, &mut sealed)?;
    let mut opened = vec![in heap; 0; len]?;
    open(&key, of_seven(2), b"header", &sealed, &mut opened)?;
    assert!(rt; opened.as_slice() == body.as_slice());
    Ok(())
}

#[test]
fn sizes(rt: HostRuntime) -> Result<(), Fail> {
    let heap = rt.alloc();
    for len in [0, 1, 15, 16, 17, 1_048_576] {
        there_and_back(&rt, heap, len)?;
    }
    Ok(())
}

// One byte more than a body, a header or a section may have.
#[test]
fn too_large(rt: HostRuntime) -> Result<(), Fail> {
    let heap = rt.alloc();
    let key = slot(b"sixteen or more.")?;
    let long = vec![in heap; 0; 1_048_577]?;
    let mut sealed = vec![in heap; 7; 1_048_593]?;
    let answer = seal(&key, drawn(of_seven(3))?, b"", &long, &mut sealed);
    assert!(rt; answer == Err(Refusal::TooLarge));
    let mut small = [7; 16];
    let answer = seal(&key, drawn(of_seven(4))?, &long, b"", &mut small);
    assert!(rt; answer == Err(Refusal::TooLarge));
    assert!(rt; small == [7; 16]);
    let mut out = vec![in heap; 7; 1_048_577]?;
    let answer = open(&key, of_seven(3), b"", &sealed, &mut out);
    assert!(rt; answer == Err(Refusal::TooLarge));
    assert!(rt; out.as_slice()[0] == 7);
    Ok(())
}
