ghost use Rattle.std.specs.Prelude.{◌≡◌, ◌==◌, ◌&&◌, ◌+◌, nat_lt, if◌then◌else◌, ◌≤◌, ◌<◌, ◌^◌, ◌++◌, [], length, OnOk};
ghost use Rattle.std.specs.List.{list_all};
ghost use Rattle.image_format.specs.Fields.{is_bytes};
ghost use Rattle.image_format.specs.Format.{counted, n32, raw, unsigned};
ghost use Rattle.image_format.specs.Reading.{Gives, read};
ghost use Rattle.image_format.specs.Texts.{EachFrom};
ghost use Rattle.image_process.specs.ProcessImages.{page_format};
ghost use Rattle.image_process.specs.ProcessFits.{IsPage};
ghost use Rattle.image_process.specs.ProcessTexts.{page_text, list_text};
ghost use Rattle.image_process.specs.ProcessTests.{is_page_count, is_page_number, is_free_of_break, is_page_rights, is_page_content, return_content, has_heap, has_return_page};

use image_format::fields::{Fault, bytes_at, put_bytes, put_u8, put_u32, u8_at, u32_at};
use plain_process::Frame;
use std::alloc::{AllocError, Global};
use sys_abi::Page;
use sys_abi::page::PAGE_SIZE;
use views::list_of::ListOf;

/// A page of a process, by its number.
#[derive(Drop)]
pub struct PageImage {
    pub number: u32,
    pub frame: Frame,
}

const PAGE_BYTES: u32 = 4096;

/// The break never passes this address.
pub(crate) const BREAK_LIMIT: u32 = 0x4000_0000;

/// No page has this number.
const NUMBER_LIMIT: u32 = 1 << 20;

/// How many pages a process has at most.
const PAGE_LIMIT: u32 = 2048;

/// The page to which a signal handler returns, with its rights and its code: li a7, 139; ecall.
const RETURN_PAGE: u32 = 0x80000;

const RETURN_RIGHTS: u8 = 5;

const RETURN_CODE: [u8; 8] = [0x93, 0x08, 0xB0, 0x08, 0x73, 0x00, 0x00, 0x00];

fn is_free_of_break(start: u32, end: u32, page: u32) -> bool
    ensures { result ≡ is_free_of_break start end page }
{
    let address = 4096 * (page as u64);
    !(start as u64 <= address && address < BREAK_LIMIT as u64) || address < end as u64
}

#[tactic(auto, unfolding(crate::specs::ProcessTests::is_page_number))]
fn is_page_number(start: u32, end: u32, front: &[PageImage], page: u32) -> bool
    ensures { result ≡ is_page_number start end front.now page }
{
    let above = match front.last() {
        Some(last) => last.number < page,
        None => true,
    };
    above && page < NUMBER_LIMIT && is_free_of_break(start, end, page)
}

fn is_page_rights(page: u32, rights: u8) -> bool
    ensures { result ≡ is_page_rights page rights }
{
    if page == RETURN_PAGE {
        rights == RETURN_RIGHTS
    } else {
        rights <= 7
    }
}

fn is_zero(bytes: &[u8]) -> bool
    ensures { result ≡ list_all (λ byte. byte == 0) bytes.now }
{
    bytes.iter().all(|byte| *byte == 0)
}

fn is_return_content(bytes: &[u8]) -> bool
    requires { length bytes.now ≡ PAGE_SIZE }
    ensures { result ≡ is_bytes return_content bytes.now }
{
    let (code, rest) = bytes.split_at(RETURN_CODE.len());
    code == RETURN_CODE.as_slice() && is_zero(rest)
}

#[tactic(auto, unfolding(crate::specs::ProcessTests::is_page_content))]
fn is_page_content(page: u32, bytes: &[u8]) -> bool
    requires { length bytes.now ≡ PAGE_SIZE }
    ensures { result ≡ is_page_content page bytes.now }
{
    page != RETURN_PAGE || is_return_content(bytes)
}

/// The number that is looked for next.
fn next_after(limit: u64, next: u64, page: &PageImage) -> u64
    ensures { result ≡ (if nat_lt next limit && (page.now.number == next) then next + 1 else next) }
{
    if next < limit && page.number as u64 == next {
        next + 1
    } else {
        next
    }
}

/// Whether each page is there that holds a byte from the break's start to below the break. The pages are in
/// rising order.
#[tactic(auto, using(crate::proofs::HeapWalk::walk_more, crate::proofs::HeapWalk::walk_all, crate::proofs::HeapWalk::heap_found))]
pub(crate) fn has_heap(start: u32, end: u32, pages: &[PageImage]) -> bool
    requires order { start ≤ end }
    requires pages { EachFrom (IsPage start end) [] pages.now }
    ensures { result ≡ has_heap start end pages.now }
{
    let first = start / PAGE_BYTES;
    let limit = first as u64 + ((end - start) as u64 + 4095) / 4096;
    let mut next = first as u64;
    for page in pages {
        next = next_after(limit, next, page);
    }
    next == limit
}

pub(crate) fn has_return_page(pages: &[PageImage]) -> bool
    ensures { result ≡ has_return_page pages.now }
{
    pages.iter().any(|page| page.number == RETURN_PAGE)
}

/// The number of a page that follows these.
#[tactic(auto, unfolding(image_format::specs::Reading::read, image_format::specs::Reading::read_if))]
fn number_at<'a>(
    start: u32,
    end: u32,
    front: &[PageImage],
    text: &'a [u8],
) -> Result<(u32, &'a [u8]), Fault>
    ensures { Gives (λ x. (x.0, x.1.now)) result
        (read (unsigned n32 (is_page_number start end front.now)) text.now) }
{
    let (number, rest) = u32_at(text)?;
    if !is_page_number(start, end, front, number) {
        return Err(Fault::Left(text.len()));
    }
    Ok((number, rest))
}

/// The bytes of the page with this number.
#[tactic(auto, unfolding(image_format::specs::Reading::read, image_format::specs::Reading::read_if))]
fn content_at(alloc: Global, number: u32, text: &[u8]) -> Result<(Page, &[u8]), Fault>
    ensures { Gives (λ x. (x.0, x.1.now)) result (read (raw 4096 (is_page_content number)) text.now) }
{
    let (bytes, rest) = bytes_at(text, PAGE_SIZE)?;
    if !is_page_content(number, bytes) {
        return Err(Fault::Left(text.len()));
    }
    Ok((Page::of_slice(alloc, bytes)?, rest))
}

#[tactic(auto, unfolding(crate::specs::ProcessImages::page_format, image_format::specs::Reading::read, image_format::specs::Reading::read_next, image_format::specs::Reading::read_if))]
fn page_at<'a>(
    alloc: Global,
    start: u32,
    end: u32,
    front: &[PageImage],
    text: &'a [u8],
) -> Result<(PageImage, &'a [u8]), Fault>
    ensures { Gives (λ x. (x.0, x.1.now)) result (read (page_format start end front.now) text.now) }
{
    let (number, rest) = number_at(start, end, front, text)?;
    let (rights, content) = u8_at(rest)?;
    if !is_page_rights(number, rights) {
        return Err(Fault::Left(rest.len()));
    }
    let (page, rest) = content_at(alloc, number, content)?;
    let frame = Frame { rights, page };
    Ok((PageImage { number, frame }, rest))
}

#[tactic(auto, unfolding(image_format::specs::Format::counted, image_format::specs::Reading::read, image_format::specs::Reading::read_next, image_format::specs::Reading::read_if), using(image_format::proofs::Loop::goes_on, image_format::proofs::Loop::one_item, image_format::proofs::Loop::is_done))]
pub(crate) fn pages_at(
    alloc: Global,
    start: u32,
    end: u32,
    text: &[u8],
) -> Result<(ListOf<PageImage>, &[u8]), Fault>
    ensures { Gives (λ x. (x.0, x.1.now)) result
        (read (counted is_page_count (page_format start end)) text.now) }
{
    let (count, mut rest) = u32_at(text)?;
    let is_allowed = count <= PAGE_LIMIT;
    if !is_allowed {
        return Err(Fault::Left(text.len()));
    }
    let mut pages = ListOf::new(alloc);
    for _item in 0..count {
        let (page, more) = page_at(alloc, start, end, pages.as_slice(), rest)?;
        pages.push(page)?;
        rest = more;
    }
    Ok((pages, rest))
}

#[tactic(auto, unfolding(crate::specs::ProcessTexts::page_text))]
fn put_page(bytes: &mut Vec<u8>, page: &PageImage) -> Result<(), AllocError>
    ensures { OnOk result (bytes.new.items ≡ bytes.old.items ++ page_text page.now) }
{
    put_u32(bytes, page.number)?;
    put_u8(bytes, page.frame.rights)?;
    put_bytes(bytes, page.frame.page.as_slice())
}

#[tactic(auto, unfolding(crate::specs::ProcessTexts::list_text), using(image_format::proofs::Writing::puts_none, image_format::proofs::Writing::puts_more, image_format::proofs::Writing::puts_all))]
pub(crate) fn put_pages(bytes: &mut Vec<u8>, pages: &[PageImage]) -> Result<(), AllocError>
    requires { length pages.now < 2 ^ 32 }
    ensures { OnOk result (bytes.new.items ≡ bytes.old.items ++ list_text page_text pages.now) }
{
    put_u32(bytes, pages.len() as u32)?;
    for page in pages {
        put_page(bytes, page)?;
    }
    Ok(())
}
