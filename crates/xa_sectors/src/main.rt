// Decodes the twelve sectors of xa.xa and writes a line that says stereo or mono, then the samples, a sound group a line. Here the expected
// output is an outside decoder's. Then answers the cases of edges.xa, which reference/xa_edges.py makes and answers.
#![tactic(auto)]

use std::io::{ErrorKind, Read};
use std::rt::Files;
use std::{fs, io};
use xa::{Histories, Refusal};

// 's' for a stereo sector.
const SECTORS: &[u8; 12] = b"smsmsmsmsmms";

const CASES: u32 = 22;

const CASE_BYTES: usize = 2310;

// What the output of a case holds before the call.
const KEPT: i16 = -0x5A5B;

// ---- output

fn print_samples(rt: &impl Print, samples: &[i16]) -> io::Result<()> {
    for (i, x) in samples.iter().enumerate() {
        print!(rt; "{x}{}", if i % 224 == 223 { '\n' } else { ' ' })?;
    }
    Ok(())
}

fn print_histories(rt: &impl Print, h: Histories) -> io::Result<()> {
    let Histories { left, right, mono } = h;
    print!(rt;
        "{} {} {} {} ",
        left.old, left.older, right.old, right.older
    )?;
    println!(rt; "{} {}", mono.old, mono.older)
}

// ---- the sectors of an outside decoder

// Fills the bytes from a file. Where the file ends early, the bytes that are left stay as they were. Each program has its own: a crate for these
// lines would be no plainer.
fn read_full(file: &mut impl Read, bytes: &mut [u8]) -> io::Result<()> {
    match file.read_exact(bytes) {
        Err(e) if e.kind() == ErrorKind::UnexpectedEof => Ok(()),
        done => done,
    }
}

fn decode_sectors(rt: &impl Print, file: &mut impl Read) -> io::Result<()> {
    let mut histories = xa::fresh();
    for kind in SECTORS {
        let mut sector = [0u8; 2304];
        read_full(file, &mut sector)?;
        let stereo = *kind == b's';
        println!(rt; "{}", if stereo { "stereo" } else { "mono" })?;
        let mut out = [0i16; 4032];
        let decoded = xa::decode(&sector, stereo, false, histories, &mut out);
        print_samples(rt, &out)?;
        if let Ok(after) = decoded {
            histories = after;
        }
    }
    Ok(())
}

// ---- the edges

fn print_refused(
    rt: &impl Print,
    refusal: Refusal,
    histories: Histories,
    out: &[i16],
) -> io::Result<()> {
    print!(rt; "{} ", refusal.number())?;
    print_histories(rt, histories)?;
    println!(rt;
        "{}",
        if out.iter().all(|x| *x == KEPT) {
            "kept"
        } else {
            "changed"
        }
    )
}

fn answer_call(
    rt: &impl Print,
    sector: &[u8],
    stereo: bool,
    eight_bit: bool,
    histories: Histories,
    out: &mut [i16],
) -> io::Result<Histories> {
    match xa::decode(sector, stereo, eight_bit, histories, out) {
        Ok(after) => {
            print!(rt; "0 ")?;
            print_histories(rt, after)?;
            print_samples(rt, out)?;
            Ok(after)
        }
        Err(refusal) => {
            print_refused(rt, refusal, histories, out)?;
            Ok(histories)
        }
    }
}

// A case is its flags (bit 0 stereo, bit 1 8-bit), the lengths of sector and output, and room for a sector of 2,305 bytes.
fn answer_case(
    rt: &impl Print,
    case: &[u8; CASE_BYTES],
    out: &mut [i16; 4033],
    histories: Histories,
) -> io::Result<Histories> {
    let stereo = case[0] % 2 == 1;
    let eight_bit = case[0] / 2 % 2 == 1;
    let bytes = little_endian::half_at(case, 1) as usize % 2306;
    let samples = little_endian::half_at(case, 3) as usize % 4034;
    answer_call(
        rt,
        &case[5..5 + bytes],
        stereo,
        eight_bit,
        histories,
        &mut out[..samples],
    )
}

fn answer_cases(rt: &impl Print, file: &mut impl Read) -> io::Result<()> {
    let mut histories = xa::fresh();
    for _ in 0..CASES {
        let mut case = [0u8; CASE_BYTES];
        read_full(file, &mut case)?;
        let mut out = [KEPT; 4033];
        histories = answer_case(rt, &case, &mut out, histories)?;
    }
    Ok(())
}

// ---- the files

// Says on standard error why a file does not open. Two programs have it: a crate for these lines would be no plainer.
fn open<R: Files + Eprint>(rt: &R, path: &str) -> io::Result<Option<R::File>> {
    match fs::open(rt, path) {
        Ok(file) => Ok(Some(file)),
        Err(e) => {
            eprintln!(rt; "{path}: {e}")?;
            Ok(None)
        }
    }
}

fn main(rt: HostRuntime) -> io::Result<()> {
    let sectors = open(&rt, "xa.xa")?;
    let edges = open(&rt, "edges.xa")?;
    if let (Some(mut sectors), Some(mut edges)) = (sectors, edges) {
        decode_sectors(&rt, &mut sectors)?;
        answer_cases(&rt, &mut edges)?;
    }
    Ok(())
}
