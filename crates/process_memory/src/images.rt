ghost use Rattle.std.specs.Prelude.{◌≡◌, ◌<◌, ◌≤◌, ◌^◌, length, map as each, All, Some, IsSome, IfOk};
ghost use Rattle.std.specs.FinMap as map;
ghost use Rattle.image_process.specs.UserParts.{page_entry};

use guest_mem::Space;
use guest_start::insert_page;
use image_process::PageImage;
use std::alloc::{AllocError, Global};
use views::duplicate::Duplicate;
use views::list_of::ListOf;

/// Copies of the pages of a space, in rising order of their numbers.
pub fn page_images(alloc: Global, space: &Space) -> Result<ListOf<PageImage>, AllocError>
    ensures entries { IfOk result (λ pages. each page_entry pages ≡ map.entries space.now) }
    ensures numbers { IfOk result (All (λ page. page.number < 2 ^ 20)) }
    ensures few { IfOk result (λ pages. length pages ≤ 2048) }
{
    let mut pages = Vec::with_capacity(alloc, space.len())?;
    let mut last = None;
    while let Some(number) = space.next_page(last) {
        pages.push(page_image(alloc, space, number)?)?;
        last = Some(number);
    }
    Ok(ListOf::from_vec(pages))
}

fn page_image(alloc: Global, space: &Space, number: u32) -> Result<PageImage, AllocError>
    requires { IsSome (map.get space.now number) }
    ensures number { IfOk result (λ page. page.number ≡ number) }
    ensures frame { IfOk result (λ page. map.get space.now number ≡ Some page.frame) }
{
    match space.page(number) {
        Some(frame) => Ok(PageImage {
            number,
            frame: frame.duplicate(alloc)?,
        }),
        None => unreachable!(),
    }
}

/// A space of these pages, which it takes as they are. Of two pages of one number the earlier one counts.
pub fn space_of(alloc: Global, pages: ListOf<PageImage>) -> Result<Space, AllocError>
    requires numbers { All (λ page. page.number < 2 ^ 20) pages }
    requires few { length pages ≤ 2048 }
    ensures { IfOk result (λ space. space ≡ map.from_entries (each page_entry pages)) }
{
    let mut left = pages.into_vec();
    let mut space = Space::new(alloc);
    while let Some(page) = left.pop() {
        insert_page(&mut space, page.number, page.frame)?;
    }
    Ok(space)
}
