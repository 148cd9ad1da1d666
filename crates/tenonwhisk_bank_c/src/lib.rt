// The calls of tenonwhisk_bank for C, on sound banks.
#![tactic(auto)]

ghost use Rattle.std.specs.Prelude.{◌≡◌};
ghost use Rattle.bank.specs.Bank.{damage_of, fields_of, found_of};
ghost use Rattle.bank_write.specs.Write.{lists, written_of};
ghost use Rattle.tenonwhisk_bank.specs.Calls.{checked_of, listed_of, found_record, written_record};

use tenonwhisk_bank::{Checked, Found, Listed, Written};

#[unsafe(no_mangle)]
pub extern "C" fn tenonwhisk_bank_check(bank: &[u8]) -> Checked
    ensures { result ≡ checked_of (damage_of bank.now) }
{
    tenonwhisk_bank::tenonwhisk_bank_check(bank)
}

#[unsafe(no_mangle)]
pub extern "C" fn tenonwhisk_bank_entry(bank: &[u8], n: u32) -> Listed
    ensures { result ≡ listed_of (fields_of bank.now n) }
{
    tenonwhisk_bank::tenonwhisk_bank_entry(bank, n)
}

#[unsafe(no_mangle)]
pub extern "C" fn tenonwhisk_bank_find(title: &[u8], house: &[u8], n: u32) -> Found
    ensures { result ≡ found_record (found_of title.now house.now n) }
{
    tenonwhisk_bank::tenonwhisk_bank_find(title, house, n)
}

#[unsafe(no_mangle)]
pub extern "C" fn tenonwhisk_bank_write(
    kinds: &[u16],
    offsets: &[u32],
    counts: &[u32],
    data: &[u8],
    out: &mut [u8],
) -> Written
    ensures { let w = written_of (lists kinds.now offsets.now counts.now) «data».now out.old in (result ≡ written_record w.answer) × (out.new ≡ w.out) }
{
    tenonwhisk_bank::tenonwhisk_bank_write(kinds, offsets, counts, data, out)
}
