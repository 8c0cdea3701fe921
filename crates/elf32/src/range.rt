ghost use Rattle.std.specs.Prelude.{◌≡◌, ℕ};
ghost use Rattle.elf32.specs.Ranges.{meets};
ghost use Rattle.elf32.specs.Pages.{page_range};

/// The addresses from `start` to before `end`.
#[derive(Clone, Copy)]
pub struct AddressRange {
    pub start: u64,
    pub end: u64,
}

impl AddressRange {
    /// Where the segments of programs may lie.
    pub const PROGRAMS: AddressRange = AddressRange {
        start: 0x1000,
        end: 0x4000_0000,
    };

    /// Whether some address is in both of two ranges that are not empty.
    pub fn meets(self, other: AddressRange) -> bool
        ensures { result ≡ meets self other }
    {
        self.start < other.end && other.start < self.end
    }
}
