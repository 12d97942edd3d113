//! A decoder as a source.
use crate::checks::same;
use ciborium::Decoder;
use ciborium::de::{Deserialize, Deserializer, Error};
use ciborium::value::Kind;

#[test]
fn a_decoder_is_a_source(rt: HostRuntime) {
    let bytes: &[u8] = &[0x18, 0x64, 0xf5];
    let mut source = Deserializer::new(rt.alloc(), Decoder::from(bytes), 0);
    let got = u8::deserialize(rt.alloc(), &mut source);
    same(&rt, &got, &Ok(100), "a number");
    let got = u8::deserialize(rt.alloc(), &mut source);
    let wrong_type = Error::semantic(None, Kind::WrongType);
    same(&rt, &got, &Err(wrong_type), "a boolean");
    same(&rt, &source.into_decoder().offset(), &3, "its place");
}
