// Calls for hosts on sound banks: each answer as a record of C, with a number that is 0 unless the call is refused.
#![tactic(auto)]

ghost use Rattle.std.specs.Prelude.{◌≡◌};
ghost use Rattle.bank.specs.Bank.{damage_of, fields_of, found_of};
ghost use Rattle.bank_write.specs.Write.{lists, written_of};
ghost use Rattle.tenonwhisk_bank.specs.Calls.{checked_of, listed_of, no_fields as no_fields_of, found_record, nothing as nothing_of, written_record};

use bank::{Damage, Entry};

// The place is 0 for nowhere, 1 for the header, 2 for the entry.
#[repr(C)]
#[derive(Clone, Copy)]
pub struct Checked {
    pub number: u8,
    pub place: u8,
    pub entry: u32,
}

impl From<Result<(), Damage>> for Checked {
    ghost from_gives = { λ answer c. c ≡ checked_of answer };

    fn from(answer: Result<(), Damage>) -> Checked {
        match answer {
            Ok(()) => Checked {
                number: 0,
                place: 0,
                entry: 0,
            },
            Err(Damage::InHeader) => Checked {
                number: 9,
                place: 1,
                entry: 0,
            },
            Err(Damage::AtEntry(entry)) => Checked {
                number: 9,
                place: 2,
                entry,
            },
        }
    }
}

#[repr(C)]
#[derive(Clone, Copy)]
pub struct Listed {
    pub number: u8,
    pub kind: u16,
    pub offset: u32,
    pub count: u32,
}

fn no_fields(number: u8) -> Listed
    ensures { result ≡ no_fields_of number }
{
    Listed {
        number,
        kind: 0,
        offset: 0,
        count: 0,
    }
}

impl From<Result<Entry, bank::Refusal>> for Listed {
    ghost from_gives = { λ answer l. l ≡ listed_of answer };

    fn from(answer: Result<Entry, bank::Refusal>) -> Listed {
        match answer {
            Ok(entry) => Listed {
                number: 0,
                kind: entry.kind,
                offset: entry.offset,
                count: entry.count,
            },
            Err(refusal) => no_fields(refusal.number()),
        }
    }
}

#[repr(C)]
#[derive(Clone, Copy)]
pub struct Found {
    pub number: u8,
    pub house: bool,
    pub entry: u32,
    pub offset: usize,
    pub length: usize,
}

fn nothing(number: u8) -> Found
    ensures { result ≡ nothing_of number }
{
    Found {
        number,
        house: false,
        entry: 0,
        offset: 0,
        length: 0,
    }
}

impl From<Result<bank::Found, bank::Refusal>> for Found {
    ghost from_gives = { λ answer f. f ≡ found_record answer };

    fn from(answer: Result<bank::Found, bank::Refusal>) -> Found {
        match answer {
            Ok(found) => Found {
                number: 0,
                house: found.house,
                entry: found.entry,
                offset: found.offset,
                length: found.length,
            },
            Err(refusal) => nothing(refusal.number()),
        }
    }
}

#[repr(C)]
#[derive(Clone, Copy)]
pub struct Written {
    pub number: u8,
    pub length: usize,
}

impl From<Result<usize, bank_write::Refusal>> for Written {
    ghost from_gives = { λ answer w. w ≡ written_record answer };

    fn from(answer: Result<usize, bank_write::Refusal>) -> Written {
        match answer {
            Ok(length) => Written { number: 0, length },
            Err(refusal) => Written {
                number: refusal.number(),
                length: 0,
            },
        }
    }
}

#[unsafe(no_mangle)]
pub extern "C" fn tenonwhisk_bank_check(bank: &[u8]) -> Checked
    ensures { result ≡ checked_of (damage_of bank.now) }
{
    Checked::from(bank::check(bank))
}

#[unsafe(no_mangle)]
pub extern "C" fn tenonwhisk_bank_entry(bank: &[u8], n: u32) -> Listed
    ensures { result ≡ listed_of (fields_of bank.now n) }
{
    Listed::from(bank::read_entry(bank, n))
}

#[unsafe(no_mangle)]
pub extern "C" fn tenonwhisk_bank_find(title: &[u8], house: &[u8], n: u32) -> Found
    ensures { result ≡ found_record (found_of title.now house.now n) }
{
    Found::from(bank::find(title, house, n))
}

#[unsafe(no_mangle)]
pub extern "C" fn tenonwhisk_bank_write(
    kinds: &[u16],
    offsets: &[u32],
    counts: &[u32],
    data: &[u8],
    out: &mut [u8],
) -> Written
    ensures { let w = written_of (lists kinds.now offsets.now counts.now) «data».now out.old in (result ≡ written_record w.answer) × (out.new ≡ w.out) }
{
    Written::from(bank_write::write(kinds, offsets, counts, data, out))
}
