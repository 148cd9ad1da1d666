ghost use Rattle.std.specs.Prelude.{◌≡◌, ◌≤◌, length};
ghost use Rattle.bank.specs.Bank.{most_entries};

// The entries of a bank, a list of each field as C hands them over.
#[derive(Clone, Copy)]
pub struct Lists<'a> {
    pub kinds: &'a [u16],
    pub offsets: &'a [u32],
    pub counts: &'a [u32],
    ghost most: { length kinds.now ≤ most_entries },
    ghost as_many_offsets: { length offsets.now ≡ length kinds.now },
    ghost as_many_counts: { length counts.now ≡ length kinds.now },
}
