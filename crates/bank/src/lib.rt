// Sound banks: where one is damaged, its entries, and a lookup in two of them.
#![tactic(auto)]

ghost use Rattle.std.specs.Prelude.{◌≡◌, true, ◌+◌, ◌*◌, ◌≤◌, ◌<◌, length};
ghost use Rattle.bank.specs.Bank.{count_of, place_of, header_end, entry_at, is_header, is_sound as is_sound_of, is_alias as is_alias_of, is_entry as is_entry_of, damage_of, is_good, sound_of, found_in, found_of, lookup_of, fields_of, number_of};
ghost use Rattle.bank.specs.declared.Refusal.TheVariants.{Damaged};

use little_endian::{half_at, word_at};

pub const MOST_ENTRIES: usize = 1024;

// The kind stays the file's number, since `read_entry` gives an entry that is good or not.
#[derive(Clone, Copy)]
pub struct Entry {
    pub kind: u16,
    pub offset: u32,
    pub count: u32,
}

// Where a bank is damaged first.
#[derive(Clone, Copy, Debug, PartialEq, Eq)]
pub enum Damage {
    InHeader,
    AtEntry(u32),
}

// Why nothing is read or found: a bank is damaged, or no bank has such an entry.
#[derive(Clone, Copy, Debug, PartialEq, Eq)]
pub enum Refusal {
    Damaged,
    NoEntry,
}

impl Refusal {
    // The number that hosts know it by.
    pub fn number(self) -> u8
        ensures { result ≡ number_of self }
    {
        match self {
            Refusal::Damaged => 9,
            Refusal::NoEntry => 10,
        }
    }
}

impl From<Damage> for Refusal {
    ghost from_gives = { λ _ r. r ≡ Damaged };

    fn from(_damage: Damage) -> Refusal {
        Refusal::Damaged
    }
}

// What a lookup finds: in which bank, the sound's own entry, and where its bytes are.
#[derive(Clone, Copy)]
pub struct Found {
    pub house: bool,
    pub entry: u32,
    pub offset: usize,
    pub length: usize,
}

// ---- the header and its entries

pub fn header_end(count: u16) -> usize
    ensures { result ≡ header_end count }
{
    2 + count as usize * 10
}

fn has_header(bank: &[u8]) -> bool
    ensures { result ≡ is_header bank.now }
{
    if bank.len() < 2 {
        return false;
    }
    let count = half_at(bank, 0);
    (count as usize <= MOST_ENTRIES) & (header_end(count) <= bank.len())
}

fn entry_count(bank: &[u8]) -> u16
    requires { is_header bank.now ≡ true }
    ensures { result ≡ count_of bank.now }
{
    half_at(bank, 0)
}

fn entry_at(bank: &[u8], n: usize) -> Entry
    requires { place_of n + 10 ≤ length bank.now }
    ensures { result ≡ entry_at bank.now n }
{
    let at = 2 + n * 10;
    Entry {
        kind: half_at(bank, at),
        offset: word_at(bank, at + 2),
        count: word_at(bank, at + 6),
    }
}

fn is_sound(end: usize, size: usize, e: Entry) -> bool
    ensures { result ≡ is_sound_of end size e }
{
    let offset = e.offset as usize;
    let count = e.count as usize;
    (e.kind == 0)
        & ((end <= offset) & ((offset + count * 16 <= size) & ((offset % 16 == 0) & (1 <= count))))
}

fn is_alias(n: usize, e: Entry) -> bool
    ensures { result ≡ is_alias_of n e }
{
    (e.kind == 1) & (((e.offset as usize) < n) & (e.count == 0))
}

// Whether entry n is good in a file of `size` bytes whose header ends at `end`.
pub fn is_entry(end: usize, size: usize, n: usize, e: Entry) -> bool
    ensures { result ≡ is_entry_of end size n e }
{
    is_sound(end, size, e) | is_alias(n, e)
}

// ---- damage

// Where a bank is damaged: nowhere, in its header, or at which entry first.
pub fn check(bank: &[u8]) -> Result<(), Damage>
    ensures { result ≡ damage_of bank.now }
{
    if !has_header(bank) {
        return Err(Damage::InHeader);
    }
    let count = entry_count(bank);
    let end = header_end(count);
    for n in 0..count as usize {
        if !is_entry(end, bank.len(), n, entry_at(bank, n)) {
            return Err(Damage::AtEntry(n as u32));
        }
    }
    Ok(())
}

// Entry n as it stands in the file, good or not.
pub fn read_entry(bank: &[u8], n: u32) -> Result<Entry, Refusal>
    ensures { result ≡ fields_of bank.now n }
{
    if !has_header(bank) {
        return Err(Refusal::Damaged);
    }
    if entry_count(bank) as u32 <= n {
        return Err(Refusal::NoEntry);
    }
    Ok(entry_at(bank, n as usize))
}

// ---- lookup

// The sound that entry n is, or leads to by its aliases.
fn sound_of(bank: &[u8], n: u32) -> u32
    requires { (is_good bank.now ≡ true) × (n < count_of bank.now) }
    ensures { result ≡ sound_of (entry_at bank.now) n }
{
    let e = entry_at(bank, n as usize);
    if e.kind != 1 {
        return n;
    }
    sound_of(bank, e.offset)
}

fn find_in(house: bool, bank: &[u8], n: u32) -> Found
    requires { (is_good bank.now ≡ true) × (n < count_of bank.now) }
    ensures { result ≡ found_in house bank.now n }
{
    let entry = sound_of(bank, n);
    let e = entry_at(bank, entry as usize);
    Found {
        house,
        entry,
        offset: e.offset as usize,
        length: e.count as usize * 16,
    }
}

// Where sound n is. Both banks are judged whole before it is looked up.
pub fn find(title: &[u8], house: &[u8], n: u32) -> Result<Found, Refusal>
    ensures { result ≡ found_of title.now house.now n }
{
    check(title)?;
    check(house)?;
    if n < entry_count(title) as u32 {
        return Ok(find_in(false, title, n));
    }
    if n < entry_count(house) as u32 {
        return Ok(find_in(true, house, n));
    }
    Err(Refusal::NoEntry)
}

// The bytes of that sound, a part of one of the two banks; none, at the title's start, if `find` refuses.
pub fn lookup<'a>(title: &'a [u8], house: &'a [u8], n: u32) -> &'a [u8]
    ensures { result.now ≡ lookup_of title.now house.now n }
{
    let Ok(found) = find(title, house, n) else {
        return &title[..0];
    };
    let at = found.offset;
    let end = at + found.length;
    if found.house {
        return &house[at..end];
    }
    &title[at..end]
}
