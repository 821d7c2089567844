//! Ranges of addresses, the two pools, and what placing answers.

/// The addresses from one up to another, without the second. It has none where the second isn't above the first.
#[derive(Clone, Copy, PartialEq, Eq, Debug, Default, Drop)]
pub struct Range {
    pub from: u16,
    pub to: u16,
}

/// A part of memory in which objects are placed.
#[derive(Clone, Copy, PartialEq, Eq, Debug, Drop)]
pub enum Pool {
    /// 6000 to DFFF, for code.
    Code,
    /// 2000 to 5FFF, for regions.
    Data,
}

/// What the row of a domain says of it: an application's or a module's.
#[derive(Clone, Copy, PartialEq, Eq, Debug, Default, Drop)]
pub struct DomainRow {
    /// 0 where the row is free.
    pub state: u16,
    /// The addresses of its code.
    pub code: Range,
    /// The addresses of its region.
    pub region: Range,
}

/// The number and the places of a domain.
#[derive(Clone, Copy, PartialEq, Eq, Debug, Drop)]
pub struct Regions {
    /// 0 to 7 for an application, 8 to 11 for a module.
    pub dom: u8,
    /// The address of its code.
    pub code_lo: u16,
    /// The address behind its code.
    pub code_hi: u16,
    /// The address of its region.
    pub lo: u16,
    /// The address behind its region.
    pub hi: u16,
}

/// Why an object isn't placed. Lengths are bytes.
#[derive(Clone, Copy, PartialEq, Eq, Debug, Drop)]
pub enum NoRoom {
    /// Every row of its kind is in use.
    Slots,
    /// No gap of the code pool is as long as the code; the longest has `gap` bytes, 0 where there is none.
    Code { need: u32, gap: u32 },
    /// No gap of the data pool is as long as the region; the longest has `gap` bytes, 0 where there is none.
    Region { need: u32, gap: u32 },
    /// A placed module has exported the function of this number.
    Taken { number: u8 },
}
