// Images of a process with one thread, 40001, whose break starts and ends at 0x11000.
use crate::damages::{Damaging, assert_damaged};
use crate::process_texts::Part::{Pages, ReturnPage, Words, Zeros};
use crate::process_texts::{DEFAULT_ACTIONS, Image, Part};
use crate::reading::{Sight, assert_both_ways, assert_images_damaged};
use crate::shared_images::LIVE_AFTER_ZOMBIE;
use image_codec::{file_laws, image_laws, set_laws};
use std::test::Fail;

const FIRST_PAGE: Part = Pages(0x10, 0x11, 5);

/// No waiter, and one thread at 0x10078 with registers that are 0.
const ONE_THREAD: &[Part] = &[
    DEFAULT_ACTIONS,
    Words(&[0, 1, 40001]),
    Zeros(31 * 4),
    Words(&[0x10078, 0, 0, 0]),
];

/// A program at its start, with one page of its own, the stack and the page that a handler returns to.
static START: Image = &[
    &[
        Words(&[40001, 0x11000, 0x11000, 66]),
        FIRST_PAGE,
        Pages(0x7FFC0, 0x80000, 6),
        ReturnPage,
    ],
    ONE_THREAD,
];

static START_SHOWS: [Sight; 6] = [
    Sight::Pid(40001),
    Sight::BreakStart(0x11000),
    Sight::Pages(66),
    Sight::Actions(31),
    Sight::Registers(0, 0x10078, 0),
    Sight::Page(65, 0x80000),
];

#[test]
fn start_of_a_program_both_ways(rt: HostRuntime) -> Result<(), Fail> {
    file_laws();
    image_laws();
    set_laws();
    assert_both_ways(&rt, START, 271_214, LIVE_AFTER_ZOMBIE, &START_SHOWS)
}

/// The process with its first page and the one that a handler returns to.
static TWO_PAGES: Image = &[
    &[Words(&[40001, 0x11000, 0x11000, 2]), FIRST_PAGE, ReturnPage],
    ONE_THREAD,
];

static CHANGES: [Damaging; 20] = [
    Damaging::Change(3, 0, 0),
    Damaging::Change(8, 0, 8),
    Damaging::Change(12, 1, 12),
    Damaging::Change(15, 0x40, 12),
    Damaging::Change(17, 0x00, 16),
    Damaging::Change(19, 0x40, 16),
    Damaging::Change(21, 0x10, 20),
    Damaging::Change(26, 0x10, 24),
    Damaging::Change(28, 8, 28),
    Damaging::Change(4127, 0, 4125),
    Damaging::Change(4129, 4, 4129),
    Damaging::Change(4130, 0, 4130),
    Damaging::Change(8225, 1, 4130),
    Damaging::Change(8598, 1, 8602),
    Damaging::Change(8602, 0, 8602),
    Damaging::Change(8602, 2, 8602),
    Damaging::Change(8606, 0, 8606),
    Damaging::Change(8746, 65, 8746),
    Damaging::Change(8746, 1, 8750),
    // A page of the heap lacks.
    Damaging::Change(17, 0x20, 8750),
];

#[test]
fn a_changed_byte_of_a_process_image_is_damage(rt: HostRuntime) -> Result<(), Fail> {
    assert_damaged(&rt, TWO_PAGES, 8750, LIVE_AFTER_ZOMBIE, &CHANGES)
}

static CUTS: [Damaging; 10] = [
    Damaging::Cut(0),
    Damaging::Cut(7),
    Damaging::Cut(11),
    Damaging::Cut(23),
    Damaging::Cut(27),
    Damaging::Cut(28),
    Damaging::Cut(4124),
    Damaging::Cut(8597),
    Damaging::Cut(8609),
    Damaging::Cut(8749),
];

#[test]
fn a_process_image_that_is_cut_is_damaged_at_its_end(rt: HostRuntime) -> Result<(), Fail> {
    assert_damaged(&rt, TWO_PAGES, 8750, LIVE_AFTER_ZOMBIE, &CUTS)
}

static OTHER_FILES: [Damaging; 3] = [
    Damaging::AsFile(0),
    Damaging::AsFile(1),
    Damaging::AsFile(3),
];

#[test]
fn a_process_image_under_another_file_is_damaged_at_its_number(
    rt: HostRuntime,
) -> Result<(), Fail> {
    assert_damaged(&rt, TWO_PAGES, 8750, LIVE_AFTER_ZOMBIE, &OTHER_FILES)
}

/// The same number twice; a page that lies at the break; no page for a handler's return; a byte too many.
static OUT_OF_PLACE: [(Image, u64); 4] = [
    (
        &[
            &[
                Words(&[40001, 0x11000, 0x11000, 3]),
                FIRST_PAGE,
                FIRST_PAGE,
                ReturnPage,
            ],
            ONE_THREAD,
        ],
        4125,
    ),
    (
        &[
            &[
                Words(&[40001, 0x11000, 0x11000, 3]),
                FIRST_PAGE,
                Pages(0x11, 0x12, 6),
                ReturnPage,
            ],
            ONE_THREAD,
        ],
        4125,
    ),
    (
        &[
            &[Words(&[40001, 0x11000, 0x11000, 1]), FIRST_PAGE],
            ONE_THREAD,
        ],
        4649,
    ),
    (
        &[
            &[Words(&[40001, 0x11000, 0x11000, 2]), FIRST_PAGE, ReturnPage],
            ONE_THREAD,
            &[Zeros(1)],
        ],
        8750,
    ),
];

#[test]
fn pages_out_of_place(rt: HostRuntime) -> Result<(), Fail> {
    assert_images_damaged(&rt, LIVE_AFTER_ZOMBIE, &OUT_OF_PLACE)
}
