// The numbers of the layout, each once. specs/Addresses.antt has them for the definitions, with what each is.
pub const MEMORY_WORDS: usize = 16384;

pub const SECTOR_WORDS: u16 = 512;

// Keeps A while a subscript is tested (A12).
pub const SAVED_WORD: u16 = 2;

pub const FIRST_GLOBAL: u16 = 0o200;

pub const GLOBAL_WORDS: u16 = 0o600;

pub const FIRST_CODE: u16 = 0o1000;

pub const FIRST_ARRAY: u16 = 16383;

pub const CLOSED_SECTORS: usize = 30;

pub const ARRAY_TAG: u16 = 0o40000;
