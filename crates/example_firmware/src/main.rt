//! `example_firmware KEYS IMAGE..`: says of each file whether it is a COSE_Mac0 whose tag is good
//! under one of the keys. An image passes through 4 KiB of memory, however long it is.
#![tactic(auto)]

use anyhow::Context;
use cose_gate::{Blocks, Decoder, HmacJudge, InputFault, StreamFault, stream_check};
use coset::{CborSerializable, CoseKeySet};
use std::alloc::Global;
use std::fs::File;
use std::io::BufReader;
use std::{env, fs};

fn main(rt: HostRuntime) -> anyhow::Result<()> {
    let mut words = env::args(&rt)?.skip(1);
    let keys = words
        .next()
        .context("usage: example_firmware KEYS IMAGE..")?;
    let keys = CoseKeySet::from_slice(rt.alloc(), &fs::read(&rt, keys.as_str())?)?;
    for name in words {
        let image = BufReader::new(rt.alloc(), fs::open(&rt, name.as_str())?)?;
        match is_genuine(rt.alloc(), &keys, image) {
            Ok(true) => println!(rt; "{name}: genuine")?,
            Ok(false) => println!(rt; "{name}: not genuine")?,
            Err(fault) => println!(rt; "{name}: {fault:?}")?,
        }
    }
    Ok(())
}

/// Whether the image carries a good tag under one of the keys.
fn is_genuine(
    alloc: Global,
    keys: &CoseKeySet,
    image: BufReader<File>,
) -> Result<bool, StreamFault<InputFault>> {
    let mut decoder = Decoder::from(Blocks::new(image));
    let mut buffer = [0; 4096];
    stream_check(
        alloc,
        &mut decoder,
        &mut buffer,
        b"",
        &mut HmacJudge::new(keys),
    )
}
