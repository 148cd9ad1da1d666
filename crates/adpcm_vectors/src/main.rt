// Decodes the blocks of spu-adpcm.spu, one after the other, and writes the 28 samples of each on a line. The expected output is an
// outside decoder's.
#![tactic(auto)]

use adpcm::History;
use std::fs::File;
use std::io;
use std::io::{ErrorKind, Read};

const BLOCKS: u32 = 288;

fn print_block(rt: &impl Print, samples: [i16; 28]) -> io::Result<()> {
    for (i, x) in samples.iter().enumerate() {
        print!(rt; "{x}{}", if i == 27 { '\n' } else { ' ' })?;
    }
    Ok(())
}

// Fills the bytes from a file. Where the file ends early, the bytes that are left stay as they were. Each program has its own: a crate for these
// lines would be no plainer.
fn read_full(file: &mut impl Read, bytes: &mut [u8]) -> io::Result<()> {
    match file.read_exact(bytes) {
        Err(e) if e.kind() == ErrorKind::UnexpectedEof => Ok(()),
        done => done,
    }
}

fn decode_all(rt: &impl Print, file: &mut impl Read) -> io::Result<()> {
    let mut h = History::default();
    for _ in 0..BLOCKS {
        let mut bytes = [0u8; 16];
        read_full(file, &mut bytes)?;
        let samples = adpcm::decode(bytes, h.old, h.older);
        print_block(rt, samples)?;
        h = History {
            old: samples[27],
            older: samples[26],
        };
    }
    Ok(())
}

fn main(rt: HostRuntime) -> io::Result<()> {
    let path = "spu-adpcm.spu";
    match File::open(&rt, path) {
        Ok(mut file) => decode_all(&rt, &mut file),
        Err(e) => eprintln!(rt; "{path}: {e}"),
    }
}
