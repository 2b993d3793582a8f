// The slots of the names that are known, each a place in the values that are kept.
// Stays: a slot is an index into those values, the seven lists are asked by a range of slots (PRI..UNKNOWN), and the
// slot of KA is the one after its signal's. An enum would need a cast for each of these.
pub const EM: usize = 0;

pub const EM_KEEP: usize = 1;

pub const EM_PRI: usize = 2;

pub const EM_PC: usize = 3;

pub const MPB: usize = 4;

pub const MPB_KEEP: usize = 5;

pub const MPB_BPC: usize = 6;

pub const MPB_PRI: usize = 7;

pub const PHSM: usize = 8;

pub const PHSM_KEEP: usize = 9;

// The seven phase lists stand one after the other, and are the last of the known names.
pub const PRI: usize = 10;

pub const PCX: usize = 11;

pub const REPX: usize = 12;

pub const PCN: usize = 13;

pub const REPN: usize = 14;

pub const CI: usize = 15;

pub const PD: usize = 16;

// Any other name.
// Stays: a slot like the others, and no None: what follows a name that is not known is stored here and read by nobody,
// so that only `touch`, which notes the fault, asks whether a name is known.
pub const UNKNOWN: usize = 17;

// How many slots there are, that of any other name too.
pub const COUNT: usize = UNKNOWN + 1;
