// The static library for C: what it exports are capi's functions, with their promises.
#![tactic(auto)]

ghost use Rattle.capi.specs.Calls.{CTagged, AnswersNumber};

// Tags a message in memory. The serial counts as drawn from a book of that one serial.
#[unsafe(no_mangle)]
pub extern "C" fn zukeroha_tag(
    mode: u8,
    streams: u8,
    key: &[u8],
    office: u32,
    serial: u64,
    header: &[u8],
    body: &[u8],
    out: &mut [u8],
) -> u8
    ensures { AnswersNumber (λ answer. CTagged mode streams key.now office serial header.now body.now out.old answer out.new) result }
{
    capi::zukeroha_tag(mode, streams, key, office, serial, header, body, out)
}
