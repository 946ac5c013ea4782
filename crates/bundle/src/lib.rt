// Reading and writing a bundle: the 32 bytes in which nodes send each other a signed payload (R3.1).
//
// Every function is defined for all bytes, lengths and numbers (R1.4). Reading and writing refuse by the
// first reason that applies (R5.2); `load_payload`, `encode` and `encode_like` check nothing but lengths.
#![tactic(auto)]

ghost use Rattle.std.specs.Prelude.{◌≡◌, true};
ghost use Rattle.octets.specs.Octets.{advance};
ghost use Rattle.payload.specs.Payload.{bytes};
ghost use Rattle.refusal.specs.Refusal.{verdict_of};
ghost use Rattle.refusal.specs.Outcome.{unless, after, plain};
ghost use Rattle.config.specs.Config.{good};
ghost use Rattle.bundle.specs.Bundle.{encoded, header_reasons, read as read_of, reading_of, payload_part, payload_place, payload_loaded, write as write_of, write_out};
ghost use Rattle.bundle.specs.Inner.{encoded_like};

use config::Config;
use payload::Payload;
use refusal::Refusal;

// A bundle's bytes.
pub const SIZE: usize = 32;

// Where in a bundle its payload starts.
pub const PAYLOAD_AT: usize = 16;

// What a bundle says beside its payload: its slot, and who signed. The slot's three fields stand side by side:
// a struct of eight bytes that is passed on is copied as one number, which costs a call ten instructions.
#[derive(Clone, Copy)]
pub struct Header {
    pub day: u32,
    pub sender: u8,
    pub seq: u8,
    pub signers: u64,
}

// R10.1: the fields of a bundle, or why it is refused.
pub fn read(config: Config, bundle: &[u8]) -> Result<Header, Refusal>
    ensures { reading_of result ≡ read_of config bundle.now }
{
    if !config.good() {
        return Err(Refusal::BadConfig);
    }
    if bundle.len() != SIZE {
        return Err(Refusal::BundleLength);
    }
    let first = octets::word(&bundle[0..8]);
    if first % 0x1_0000 != 0 {
        return Err(Refusal::ReservedBytes);
    }
    if first / 0x1_0000_0000 != config.day as u64 {
        return Err(Refusal::OtherDay);
    }
    let header = Header {
        day: config.day,
        sender: bundle[4],
        seq: bundle[5],
        signers: octets::word(&bundle[8..16]),
    };
    check(config, header)?;
    Ok(header)
}

// R10.1: the payload as a part of the bundle that the caller gave; the empty part at its start where `read`
// refuses.
pub fn payload(config: Config, bundle: &[u8]) -> &[u8]
    ensures result_value { result.now ≡ payload_part config bundle.now }
    ensures ref_ptr_value { result.ref_ptr ≡ advance (payload_place config bundle.now) bundle.entry.ref_ptr }
{
    match read(config, bundle) {
        Ok(_) => &bundle[PAYLOAD_AT..SIZE],
        Err(_) => &bundle[0..0],
    }
}

// The payload of a bundle as a value; whether `read` accepts the bundle is not asked. For a slice of another
// length it is the payload of zeros.
pub fn load_payload(bundle: &[u8]) -> Payload
    ensures { bytes result ≡ payload_loaded bundle.now }
{
    if bundle.len() != SIZE {
        return Payload { high: 0, low: 0 };
    }
    payload::load(&bundle[PAYLOAD_AT..SIZE])
}

// R10.2: writes a bundle of the configuration's day over `out`. A refusal leaves `out` as it is (R5.1).
pub fn write(
    config: Config,
    sender: u8,
    seq: u8,
    signers: u64,
    payload: &[u8],
    out: &mut [u8],
) -> Result<(), Refusal>
    ensures result_value { verdict_of result ≡ plain (write_of config sender seq signers payload.now out.old) }
    ensures out_after { out.new ≡ write_out config sender seq signers payload.now out.old }
{
    if !config.good() {
        return Err(Refusal::BadConfig);
    }
    let header = Header {
        day: config.day,
        sender,
        seq,
        signers,
    };
    check(config, header)?;
    if payload.len() != payload::SIZE {
        return Err(Refusal::PayloadLength);
    }
    if out.len() != SIZE {
        return Err(Refusal::OutLength);
    }
    encode(header, payload::load(payload), out);
    Ok(())
}

// The 32 bytes of a bundle, with no field checked. A slice of another length stays as it is.
pub fn encode(header: Header, payload: Payload, out: &mut [u8])
    ensures { out.new ≡ encoded header (bytes payload) out.old }
{
    let first = (header.day as u64) * 0x1_0000_0000
        + (header.sender as u64) * 0x100_0000
        + (header.seq as u64) * 0x1_0000;
    octets::fill(out, first, header.signers, payload.high, payload.low);
}

// The 32 bytes of a bundle in the slot of another one, whose first eight bytes are copied. Neither bundle is checked.
// If a slice has another length, `out` stays as it is.
pub fn encode_like(bundle: &[u8], signers: u64, payload: Payload, out: &mut [u8])
    ensures { out.new ≡ encoded_like bundle.now signers (bytes payload) out.old }
{
    if bundle.len() != SIZE {
        return;
    }
    let slot = octets::word(&bundle[0..8]);
    octets::fill(out, slot, signers, payload.high, payload.low);
}

// The refusals that reading and writing share.
fn check(config: Config, header: Header) -> Result<(), Refusal>
    requires { good config ≡ true }
    ensures { verdict_of result ≡ unless (header_reasons config header) tt }
{
    if config.n <= header.sender {
        return Err(Refusal::SenderRange);
    }
    if config::SLOTS <= header.seq {
        return Err(Refusal::SeqRange);
    }
    if config.mask() < header.signers {
        return Err(Refusal::SignerRange);
    }
    if !signers::member(header.signers, header.sender) {
        return Err(Refusal::SenderUnsigned);
    }
    Ok(())
}
