ghost use Rattle.std.specs.Prelude.{◌≡◌, map as each, IfOk};
ghost use Rattle.std.specs.FinMap as map;
ghost use Rattle.image_process.specs.UserParts.{thread_entry};
ghost use Rattle.guest_threads.specs.Rows.{entry_of, threads_of, IsRising};

use crate::contexts::Contexts;
use crate::rows::{Row, put_row};
use image_process::ThreadImage;
use plain_process::ThreadPart;
use std::alloc::{AllocError, Global};
use views::list_of::ListOf;

/// Copies of threads, in rising order of their numbers.
pub fn thread_images(alloc: Global, rows: &[Row]) -> Result<ListOf<ThreadImage>, AllocError>
    requires { IsRising rows.now }
    ensures { IfOk result (λ images. each thread_entry images ≡ map.entries (threads_of rows.now)) }
{
    let mut images = Vec::with_capacity(alloc, rows.len())?;
    for row in rows {
        images.push(thread_image(alloc, row)?)?;
    }
    Ok(ListOf::from_vec(images))
}

fn thread_image(alloc: Global, row: &Row) -> Result<ThreadImage, AllocError>
    ensures { IfOk result (λ image. thread_entry image ≡ entry_of row.now) }
{
    let part = ThreadPart {
        regs: row.regs,
        mask: row.mask,
        clear_tid: row.clear_tid,
        contexts: row.contexts.to_list(alloc)?,
    };
    Ok(ThreadImage {
        tid: row.number,
        part,
    })
}

/// The rows of these threads. Of two threads of one number the earlier one counts.
pub fn rows_of(alloc: Global, images: ListOf<ThreadImage>) -> Result<Vec<Row>, AllocError>
    ensures threads { IfOk result (λ rows. threads_of rows.items ≡ map.from_entries (each thread_entry images)) }
    ensures rising { IfOk result (λ rows. IsRising rows.items) }
{
    let mut left = images.into_vec();
    let mut rows = Vec::new(alloc);
    while let Some(image) = left.pop() {
        put_row(&mut rows, row_of_image(image)?)?;
    }
    Ok(rows)
}

fn row_of_image(image: ThreadImage) -> Result<Row, AllocError>
    ensures { IfOk result (λ row. entry_of row ≡ thread_entry image) }
{
    let ThreadPart {
        regs,
        mask,
        clear_tid,
        contexts,
    } = image.part;
    Ok(Row {
        number: image.tid,
        regs,
        mask,
        clear_tid,
        contexts: Contexts::of_list(contexts)?,
    })
}
