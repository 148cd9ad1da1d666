// A sound bank, written from lists of its entries' fields and its data.
#![tactic(auto)]

ghost use Rattle.std.specs.Prelude.{◌≡◌, ◌+◌, ◌≤◌, ◌<◌, length, true, false, MatchOption};
ghost use Rattle.little_endian.specs.Bytes.{Put};
ghost use Rattle.bank.specs.Bank.{place_of, damage_below, is_nowhere};
ghost use Rattle.bank_write.specs.Write.{lists, entry_in, entries_in, entry_bytes, entries_bytes, header_bytes, is_entry_in, are_sized, written_of, number_of};
ghost use Rattle.bank_write.specs.Handed.{handed};

mod lists;

use bank::Entry;
use lists::Lists;
use little_endian::{put_half, put_word};

// Why nothing is written: the entries and the data do not make a good bank, or the buffer is shorter than the bank.
#[derive(Clone, Copy, Debug, PartialEq, Eq)]
pub enum Refusal {
    Damaged,
    ShortBuffer,
}

impl Refusal {
    // The number that hosts know it by.
    pub fn number(self) -> u8
        ensures { result ≡ number_of self }
    {
        match self {
            Refusal::Damaged => 9,
            Refusal::ShortBuffer => 24,
        }
    }
}

impl<'a> Lists<'a> {
    // None if they are of different lengths, or longer than a bank's.
    fn new(kinds: &'a [u16], offsets: &'a [u32], counts: &'a [u32]) -> Option<Lists<'a>>
        ensures { let ls = lists kinds.now offsets.now counts.now in MatchOption result (are_sized ls ≡ false) (λ l. (handed l ≡ ls) × (are_sized ls ≡ true)) }
    {
        let count = kinds.len();
        let sized = (offsets.len() == count)
            & ((counts.len() == count) & (count <= bank::MOST_ENTRIES));
        if !sized {
            return None;
        }
        Some(Lists {
            kinds,
            offsets,
            counts,
        })
    }

    fn count(&self) -> u16
        ensures { result ≡ entries_in (handed self.now) }
    {
        self.kinds.len() as u16
    }

    fn entry(&self, n: usize) -> Entry
        requires { n < entries_in (handed self.now) }
        ensures { result ≡ entry_in (handed self.now) n }
    {
        Entry {
            kind: self.kinds[n],
            offset: self.offsets[n],
            count: self.counts[n],
        }
    }

    // Whether each entry is good in a file of `size` bytes.
    fn are_good(&self, size: usize) -> bool
        ensures { result ≡ is_nowhere (damage_below (is_entry_in (handed self.now) size) (entries_in (handed self.now))) }
    {
        let count = self.count();
        let end = bank::header_end(count);
        for n in 0..count as usize {
            if !bank::is_entry(end, size, n, self.entry(n)) {
                return false;
            }
        }
        true
    }

    fn put_entries(&self, out: &mut [u8])
        requires { place_of (entries_in (handed self.now)) ≤ length out.old }
        ensures { Put (entries_bytes (handed self.now)) out.old 2 out.new }
    {
        for n in 0..self.count() as usize {
            put_entry(out, 2 + n * 10, self.entry(n));
        }
    }

    fn put_header(&self, out: &mut [u8])
        requires { place_of (entries_in (handed self.now)) ≤ length out.old }
        ensures { Put (header_bytes (handed self.now)) out.old 0 out.new }
    {
        put_half(out, 0, self.count());
        self.put_entries(out);
    }
}

fn put_entry(out: &mut [u8], at: usize, e: Entry)
    requires { at + 10 ≤ length out.old }
    ensures { Put (entry_bytes e) out.old at out.new }
{
    put_half(out, at, e.kind);
    put_word(out, at + 2, e.offset);
    put_word(out, at + 6, e.count);
}

// Not by `copy_from_slice`, which calls `memmove`: C's archive needs `memcpy` and `memset` alone.
fn put_data(out: &mut [u8], at: usize, data: &[u8])
    requires { at + length «data».now ≤ length out.old }
    ensures { Put «data».now out.old at out.new }
{
    for (n, byte) in data.iter().enumerate() {
        out[at + n] = *byte;
    }
}

// Writes the count, the entries and the data, and answers their length. A refusal leaves the buffer as it was.
pub fn write(
    kinds: &[u16],
    offsets: &[u32],
    counts: &[u32],
    data: &[u8],
    out: &mut [u8],
) -> Result<usize, Refusal>
    ensures { record { answer = result; out = out.new } ≡ written_of (lists kinds.now offsets.now counts.now) «data».now out.old }
{
    let Some(lists) = Lists::new(kinds, offsets, counts) else {
        return Err(Refusal::Damaged);
    };
    let end = bank::header_end(lists.count());
    let length = end + data.len();
    if !lists.are_good(length) {
        return Err(Refusal::Damaged);
    }
    if out.len() < length {
        return Err(Refusal::ShortBuffer);
    }
    lists.put_header(out);
    put_data(out, end, data);
    Ok(length)
}
