// The slots of the names that are known, by their codes.
ghost use Rattle.std.specs.Prelude.{◌≡◌};
ghost use Rattle.grammar.specs.Meaning.{keep_slot, is_list};
ghost use Rattle.notes.specs.Noting.{signal_slot, item_slot, slot_in};
ghost use Rattle.grammar.specs.Meaning.{em_items, mpb_items, phsm_items};

use super::slots;

// The codes of the names, as the scanner makes them: the letters' places in the alphabet (a is 1, z is 26), in base 32.
// Stays: codes, as the `Token` of the scanner has them.
const EM: u64 = 5 * 32 + 13;

const MPB: u64 = (13 * 32 + 16) * 32 + 2;

const PHSM: u64 = ((16 * 32 + 8) * 32 + 19) * 32 + 13;

const PRI: u64 = (16 * 32 + 18) * 32 + 9;

const PC: u64 = 16 * 32 + 3;

const BPC: u64 = (2 * 32 + 16) * 32 + 3;

const PCX: u64 = (16 * 32 + 3) * 32 + 24;

const REPX: u64 = ((18 * 32 + 5) * 32 + 16) * 32 + 24;

const PCN: u64 = (16 * 32 + 3) * 32 + 14;

const REPN: u64 = ((18 * 32 + 5) * 32 + 16) * 32 + 14;

const CI: u64 = 3 * 32 + 9;

const PD: u64 = 16 * 32 + 4;

// The slot of the signal that has this name.
pub(crate) fn signal_slot(code: u64) -> usize
    ensures { result ≡ signal_slot code }
{
    match code {
        EM => slots::EM,
        MPB => slots::MPB,
        PHSM => slots::PHSM,
        _ => slots::UNKNOWN,
    }
}

// The slot of the item of em that has this code.
fn em_item(code: u64) -> usize
    ensures { result ≡ slot_in em_items code }
{
    match code {
        PRI => slots::EM_PRI,
        PC => slots::EM_PC,
        _ => slots::UNKNOWN,
    }
}

// The slot of the item of mpb that has this code.
fn mpb_item(code: u64) -> usize
    ensures { result ≡ slot_in mpb_items code }
{
    match code {
        BPC => slots::MPB_BPC,
        PRI => slots::MPB_PRI,
        _ => slots::UNKNOWN,
    }
}

// The slot of the item of phsm that has this code.
fn phsm_item(code: u64) -> usize
    ensures { result ≡ slot_in phsm_items code }
{
    match code {
        PRI => slots::PRI,
        PCX => slots::PCX,
        REPX => slots::REPX,
        PCN => slots::PCN,
        REPN => slots::REPN,
        CI => slots::CI,
        PD => slots::PD,
        _ => slots::UNKNOWN,
    }
}

// The slot of an item in the signal that has this slot.
pub(crate) fn item_slot(signal: usize, code: u64) -> usize
    ensures { result ≡ item_slot signal code }
{
    match signal {
        slots::EM => em_item(code),
        slots::MPB => mpb_item(code),
        slots::PHSM => phsm_item(code),
        _ => slots::UNKNOWN,
    }
}

// The slot of KA in the signal that has this slot.
pub(crate) fn keep_slot(signal: usize) -> usize
    ensures { result ≡ keep_slot signal }
{
    signal.saturating_add(1).min(slots::UNKNOWN)
}

pub(crate) fn is_list(slot: usize) -> bool
    ensures { result ≡ is_list slot }
{
    slot >= slots::PRI
}
