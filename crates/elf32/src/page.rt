ghost use Rattle.std.specs.Prelude.{◌≡◌, ◌+◌, ◌*◌, ◌^◌, ◌<◌, ◌≤◌};
ghost use Rattle.elf32.specs.Pages.{page_range, touches, is_touched, page_rights, rights_at};

use crate::program::Segment;
use crate::range::AddressRange;

/// How many bytes a page has.
pub const PAGE_SIZE: u64 = 4096;

/// The addresses in the page of this number.
pub(crate) fn page_range(page: u64) -> AddressRange
    requires { page < 2 ^ 20 }
    ensures { result ≡ page_range page }
{
    let start = page * PAGE_SIZE;
    AddressRange {
        start,
        end: start + PAGE_SIZE,
    }
}

/// Whether some of the segments have an address in the page.
pub fn is_touched(segments: &[Segment], page: u64) -> bool
    requires { page < 2 ^ 20 }
    ensures { result ≡ is_touched segments.now page }
{
    let addresses = page_range(page);
    segments
        .iter()
        .any(|segment| segment.memory().meets(addresses))
}

/// The rights of the page: those of each segment that has an address in it.
pub fn page_rights(segments: &[Segment], page: u64) -> u8
    requires { page < 2 ^ 20 }
    ensures { result ≡ page_rights segments.now page }
{
    segments
        .iter()
        .fold(0, |rights, segment| rights | rights_at(segment, page))
}

/// The rights that this segment gives the page.
fn rights_at(segment: &Segment, page: u64) -> u8
    requires { page < 2 ^ 20 }
    ensures { result ≡ rights_at segment.now page }
{
    if segment.memory().meets(page_range(page)) {
        segment.rights
    } else {
        0
    }
}
