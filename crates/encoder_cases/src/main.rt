// Checks the sound of outside.bin, whose originals are an outside decoder's samples, then the sounds of cases.bin, which reference/encoder_edges.py
// makes and answers. Writes a line for each: yes, 23, or no with the block and what it breaks.
#![tactic(auto)]

use encoder_check::{Fault, NotWhole};
use std::io::{ErrorKind, Read};
use std::rt::Files;
use std::{fs, io};

const CASES: u32 = 100;

const CASE_BYTES: usize = 438;

// ---- output

fn print_fault(rt: &impl Print, f: Fault) -> io::Result<()> {
    print!(rt; "no {}", f.block)?;
    if f.unpaired {
        rt.write_all(b" unpaired")?;
    }
    if let Some(sample) = f.sample {
        print!(rt; " sample {sample}")?;
    }
    if f.end_flag {
        rt.write_all(b" end_flag")?;
    }
    if f.filter {
        rt.write_all(b" filter")?;
    }
    rt.write_all(b"\n")
}

fn print_verdict(
    rt: &impl Print,
    originals: &[i16],
    encoded: &[u8],
    largest: u16,
) -> io::Result<()> {
    match encoder_check::check(originals, encoded, largest) {
        Ok(None) => rt.write_all(b"yes\n"),
        Ok(Some(fault)) => print_fault(rt, fault),
        Err(NotWhole) => rt.write_all(b"23\n"),
    }
}

// ---- input

fn read_samples(bytes: &[u8], samples: &mut [i16]) {
    for (sample, half) in samples.iter_mut().zip(bytes.as_chunks().0) {
        *sample = i16::from_le_bytes(*half);
    }
}

// ---- the sound of an outside decoder: as it is, with a sample changed by one, and the first 100 blocks of that

fn check_sound(
    rt: &impl Print,
    originals: &mut [i16; 8064],
    encoded: &[u8; 4608],
) -> io::Result<()> {
    print_verdict(rt, originals, encoded, 0)?;
    originals[4000] ^= 1;
    print_verdict(rt, originals, encoded, 0)?;
    print_verdict(rt, originals, encoded, 1)?;
    print_verdict(rt, &originals[..2800], &encoded[..1600], 0)
}

// Fills the bytes from a file. Where the file ends early, the bytes that are left stay as they were. Each program has its own: a crate for these
// lines would be no plainer.
fn read_full(file: &mut impl Read, bytes: &mut [u8]) -> io::Result<()> {
    match file.read_exact(bytes) {
        Err(e) if e.kind() == ErrorKind::UnexpectedEof => Ok(()),
        done => done,
    }
}

fn check_outside(rt: &impl Print, file: &mut impl Read) -> io::Result<()> {
    let mut bytes = [0u8; 16128];
    read_full(file, &mut bytes)?;
    let mut encoded = [0u8; 4608];
    read_full(file, &mut encoded)?;
    let mut originals = [0i16; 8064];
    read_samples(&bytes, &mut originals);
    check_sound(rt, &mut originals, &encoded)
}

// ---- the edges

// A case is E, the numbers of originals and of encoded bytes, room for 168 originals, and room for 96 bytes.
fn answer_case(rt: &impl Print, case: &[u8; CASE_BYTES], originals: &[i16; 168]) -> io::Result<()> {
    let largest = little_endian::half_at(case, 0);
    let samples = little_endian::half_at(case, 2) as usize % 169;
    let bytes = little_endian::half_at(case, 4) as usize % 97;
    print_verdict(rt, &originals[..samples], &case[342..342 + bytes], largest)
}

fn answer_cases(rt: &impl Print, file: &mut impl Read) -> io::Result<()> {
    for _ in 0..CASES {
        let mut case = [0u8; CASE_BYTES];
        read_full(file, &mut case)?;
        let mut originals = [0i16; 168];
        read_samples(&case[6..342], &mut originals);
        answer_case(rt, &case, &originals)?;
    }
    Ok(())
}

// ---- the files

// Says on standard error why a file does not open. Two programs have it: a crate for these lines would be no plainer.
fn open<R: Files + Eprint>(rt: &R, path: &str) -> io::Result<Option<R::File>> {
    match fs::open(rt, path) {
        Ok(file) => Ok(Some(file)),
        Err(e) => {
            eprintln!(rt; "{path}: {e}")?;
            Ok(None)
        }
    }
}

fn main(rt: HostRuntime) -> io::Result<()> {
    let outside = open(&rt, "outside.bin")?;
    let cases = open(&rt, "cases.bin")?;
    if let (Some(mut outside), Some(mut cases)) = (outside, cases) {
        check_outside(&rt, &mut outside)?;
        answer_cases(&rt, &mut cases)?;
    }
    Ok(())
}
