// What a process does on the signals 1 to 31, in its image.
ghost use Rattle.std.specs.Prelude.{◌≡◌, ◌++◌, [], All, OnOk};
ghost use Rattle.std.specs.List.{flat_map};
ghost use Rattle.image_format.specs.Format.{each};
ghost use Rattle.image_process.specs.ProcessImages.{action_format};
ghost use Rattle.image_process.specs.ProcessFits.{ActionWords};
ghost use Rattle.image_process.specs.ProcessTexts.{action_text};
ghost use Rattle.image_format.specs.Reading.{Gives, read};

use crate::thread_image::word_at;
use image_format::fields::{Fault, put_u32};
use plain_process::SignalAction;
use std::alloc::{AllocError, Global};
use views::list_of::ListOf;

pub const SIGNAL_COUNT: u32 = 31;

#[tactic(auto, unfolding(crate::specs::ProcessImages::action_format, image_format::specs::Reading::read, image_format::specs::Reading::read_next))]
fn action_at(text: &[u8]) -> Result<(SignalAction, &[u8]), Fault>
    ensures { Gives (λ x. (x.0, x.1.now)) result (read action_format text.now) }
{
    let (handler, rest) = word_at(text)?;
    let (flags, rest) = word_at(rest)?;
    let (mask, rest) = word_at(rest)?;
    let action = SignalAction {
        handler,
        flags,
        mask,
    };
    Ok((action, rest))
}

/// The next so many rows.
#[tactic(auto, unfolding(image_format::specs::Reading::read_next), using(image_format::proofs::Loop::goes_on, image_format::proofs::Loop::one_item, image_format::proofs::Loop::is_done))]
pub fn actions_at(
    alloc: Global,
    count: u32,
    text: &[u8],
) -> Result<(ListOf<SignalAction>, &[u8]), Fault>
    ensures { Gives (λ x. (x.0, x.1.now)) result (read (each (λ _. action_format) count []) text.now) }
{
    let mut actions = ListOf::new(alloc);
    let mut rest = text;
    for _item in 0..count {
        let (action, more) = action_at(rest)?;
        actions.push(action)?;
        rest = more;
    }
    Ok((actions, rest))
}

#[tactic(auto, unfolding(crate::specs::ProcessTexts::action_text))]
fn put_action(bytes: &mut Vec<u8>, action: &SignalAction) -> Result<(), AllocError>
    ensures value { OnOk result (bytes.new.items ≡ bytes.old.items ++ action_text action.now) }
    ensures words { OnOk result (ActionWords action.now) }
{
    put_u32(bytes, action.handler)?;
    put_u32(bytes, action.flags)?;
    put_u32(bytes, action.mask)
}

#[tactic(auto, using(image_format::proofs::Writing::puts_none, image_format::proofs::Writing::puts_more, image_format::proofs::Writing::puts_all))]
pub fn put_actions(bytes: &mut Vec<u8>, actions: &[SignalAction]) -> Result<(), AllocError>
    ensures value { OnOk result (bytes.new.items ≡ bytes.old.items ++ flat_map action_text actions.now) }
    ensures words { OnOk result (All ActionWords actions.now) }
{
    for action in actions {
        put_action(bytes, action)?;
    }
    Ok(())
}
