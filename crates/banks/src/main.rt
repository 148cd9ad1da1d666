// Reads two banks and writes what each call says of them, a line a call, with every byte of the sounds found. The expected output is that of the
// reference, reference/banks.py, which makes both files.
#![tactic(auto)]

ghost use Rattle.std.specs.Prelude.{◌≤◌};
ghost use Rattle.std.specs.Io.{ReadsAtMost};

use bank::{Damage, Entry};
use std::io::Read;
use std::rt::Files;
use std::{array, fs, io};

const ROOM: usize = 512;

// How many entries the title's bank has.
const ENTRIES: usize = 6;

// ---- one bank

fn print_damage(rt: &impl Print, bank: &[u8]) -> io::Result<()> {
    match bank::check(bank) {
        Ok(()) => println!(rt; "0 0"),
        Err(Damage::InHeader) => println!(rt; "1 0"),
        Err(Damage::AtEntry(entry)) => println!(rt; "2 {entry}"),
    }
}

// Up to the first number without an entry.
fn print_entries(rt: &impl Print, bank: &[u8]) -> io::Result<()> {
    for n in 0..1025u32 {
        match bank::read_entry(bank, n) {
            Ok(e) => println!(rt; "entry {n} 0 {} {} {}", e.kind, e.offset, e.count)?,
            Err(refusal) => return println!(rt; "entry {n} {} 0 0 0", refusal.number()),
        }
    }
    Ok(())
}

fn print_bank(rt: &impl Print, name: &str, bank: &[u8]) -> io::Result<()> {
    print!(rt; "{name} {} ", bank.len())?;
    print_damage(rt, bank)?;
    print_entries(rt, bank)
}

// ---- two banks

fn print_found(rt: &impl Print, title: &[u8], house: &[u8], n: u32) -> io::Result<()> {
    match bank::find(title, house, n) {
        Ok(found) => println!(rt;
            "find {n} 0 {} {} {} {}",
            found.house as u8, found.entry, found.offset, found.length
        ),
        Err(refusal) => println!(rt; "find {n} {} 0 0 0 0", refusal.number()),
    }
}

fn print_sound(rt: &impl Print, title: &[u8], house: &[u8], n: u32) -> io::Result<()> {
    print_found(rt, title, house, n)?;
    let sound = bank::lookup(title, house, n);
    print!(rt; "lookup {n} {}", sound.len())?;
    for byte in sound {
        print!(rt; " {byte:02x}")?;
    }
    println!(rt)
}

fn print_sounds(rt: &impl Print, title: &[u8], house: &[u8]) -> io::Result<()> {
    for n in (0..13).chain([0x10000, 0x80000000, 0xFFFFFFFF]) {
        print_sound(rt, title, house, n)?;
    }
    Ok(())
}

// ---- a bank written again

// What a buffer holds before it is written into.
fn filled() -> [u8; ROOM] {
    array::from_fn(|i| (i % 251) as u8)
}

// How many bytes from an index on are not as they were.
fn changed(out: &[u8; ROOM], from: usize) -> usize {
    out.iter()
        .zip(&filled())
        .skip(from)
        .filter(|(now, then)| now != then)
        .count()
}

// The bank of these entries and data, written into the first `room` bytes of a buffer: the number, the length, whether the buffer then begins with
// `bank`, and how many bytes past the length changed.
fn print_written(
    rt: &impl Print,
    entries: &[Entry; ENTRIES],
    data: &[u8],
    room: usize,
    bank: &[u8],
) -> io::Result<()>
    requires { room ≤ 512 }
{
    let kinds = entries.map(|e| e.kind);
    let offsets = entries.map(|e| e.offset);
    let counts = entries.map(|e| e.count);
    let mut out = filled();
    let written = bank_write::write(&kinds, &offsets, &counts, data, &mut out[..room]);
    let (number, length) = match written {
        Ok(length) => (0, length),
        Err(refusal) => (refusal.number(), 0),
    };
    let begins = out.starts_with(bank) as u8;
    println!(rt;
        "write {number} {length} {begins} {}",
        changed(&out, length)
    )
}

// A bank from its own entries and data: in room enough, in a byte too little, and with entry 3 an alias of itself.
fn print_writes(rt: &impl Print, bank: &[u8]) -> io::Result<()> {
    let none = Entry {
        kind: 0,
        offset: 0,
        count: 0,
    };
    let mut entries: [Entry; ENTRIES] = array::from_fn(|n| bank::read_entry(
        bank, n as u32,
    ).unwrap_or(none));
    let end = bank::header_end(ENTRIES as u16);
    if bank.len() <= end || ROOM < bank.len() {
        return Ok(());
    }
    let data = &bank[end..];
    print_written(rt, &entries, data, ROOM, bank)?;
    print_written(rt, &entries, data, bank.len() - 1, bank)?;
    entries[3].offset = 3;
    print_written(rt, &entries, data, ROOM, bank)
}

// ---- the program

// Fills a buffer from its start, up to its end or the file's, and answers how many bytes that took. `read_exact` does not say that where the file ends early.
fn read_full(file: &mut impl Read, buffer: &mut [u8]) -> io::Result<usize>
    ensures { ReadsAtMost result buffer.new }
{
    let mut done = 0;
    while done < buffer.len() {
        let n = file.read(&mut buffer[done..])?;
        if n == 0 {
            break;
        }
        done += n;
    }
    Ok(done)
}

// Puts a file at the start of a buffer, and answers its length. Where the file does not open, says why on standard error and answers 0.
fn read_file<R: Files + Eprint>(rt: &R, path: &str, buffer: &mut [u8]) -> io::Result<usize>
    ensures { ReadsAtMost result buffer.new }
{
    match fs::open(rt, path) {
        Ok(mut file) => read_full(&mut file, buffer),
        Err(e) => {
            eprintln!(rt; "{path}: {e}")?;
            Ok(0)
        }
    }
}

fn print_good(rt: &impl Print, title: &[u8], house: &[u8]) -> io::Result<()> {
    print_bank(rt, "title", title)?;
    print_bank(rt, "house", house)?;
    print_sounds(rt, title, house)?;
    print_writes(rt, title)
}

// Entry 9 of the house's bank is made to lead to itself.
fn print_damaged(rt: &impl Print, title: &[u8], house: &mut [u8]) -> io::Result<()> {
    let Some(offset) = house.get_mut(94) else {
        return Ok(());
    };
    *offset = 9;
    print_bank(rt, "damaged", house)?;
    print_sound(rt, title, house, 0)?;
    print_sound(rt, title, house, 6)
}

fn print_all<R: Files + Print + Eprint>(
    rt: &R,
    title: &mut [u8],
    house: &mut [u8],
) -> io::Result<()> {
    let t = read_file(rt, "title.bank", title)?;
    let h = read_file(rt, "house.bank", house)?;
    print_good(rt, &title[..t], &house[..h])?;
    print_damaged(rt, &title[..t], &mut house[..h])
}

fn main(rt: HostRuntime) -> io::Result<()> {
    let mut title = [0u8; ROOM];
    let mut house = [0u8; ROOM];
    print_all(&rt, &mut title, &mut house)
}
