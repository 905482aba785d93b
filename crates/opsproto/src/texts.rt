//! The same messages, with texts that are known to be UTF-8. All are lent from the bytes of the message.

ghost use Rattle.std.specs.Prelude.{◌≡◌};
ghost use Rattle.opsproto.specs.Refusals.{Gives};
ghost use Rattle.opsproto.specs.Texts.{text_checked, each_checked, optional_checked, with_front, input_checked, cache_checked, mount_checked, meta_checked, exec_checked};

use super::exec::{CacheOpt, ExecOp, Meta, Mount};
use super::input::Input;
use super::lent::{LentText, RawText};
use super::refusal::OpRefusal;
use names::Items;
use std::alloc::Global;
use std::str;

fn text_checked<'a>(raw: RawText<'a>, number: u32) -> Result<LentText<'a>, OpRefusal>
    ensures { result ≡ text_checked number raw.entry }
{
    match str::from_utf8(raw.as_slice()) {
        Ok(text) => Ok(LentText::new(text)),
        Err(_) => Err(OpRefusal::NotUtf8(number)),
    }
}

/// Checks texts, and adds them at the end.
#[tactic(auto, using(crate::proofs::TextLemmas::goes_on, crate::proofs::TextLemmas::stops, crate::proofs::TextLemmas::is_done))]
fn check_texts<'a>(
    checked: &mut Vec<LentText<'a>>,
    texts: Vec<RawText<'a>>,
    number: u32,
) -> Result<(), OpRefusal>
    ensures { Gives (λ _. checked.new.items) result (with_front checked.old.items (each_checked (text_checked number) texts.entry.items)) }
{
    for text in texts {
        checked.push(text_checked(text, number)?)?;
    }
    Ok(())
}

#[tactic(auto, using(crate::proofs::TextLemmas::no_front))]
fn texts_checked<'a>(
    alloc: Global,
    texts: Items<RawText<'a>>,
    number: u32,
) -> Result<Items<LentText<'a>>, OpRefusal>
    ensures { Gives (λ v. v) result (each_checked (text_checked number) texts.entry) }
{
    let texts = texts.into_vec();
    let mut checked = Vec::with_capacity(alloc, texts.len())?;
    check_texts(&mut checked, texts, number)?;
    Ok(Items::new(checked))
}

#[tactic(auto, unfolding(crate::specs::Texts::input_checked))]
fn input_checked<'a>(input: Input<RawText<'a>>) -> Result<Input<LentText<'a>>, OpRefusal>
    ensures { result ≡ input_checked input.entry }
{
    Ok(Input {
        digest: text_checked(input.digest, 1)?,
        index: input.index,
    })
}

#[tactic(auto, unfolding(crate::specs::Texts::cache_checked))]
fn cache_checked<'a>(cache: CacheOpt<RawText<'a>>) -> Result<CacheOpt<LentText<'a>>, OpRefusal>
    ensures { result ≡ cache_checked cache.entry }
{
    Ok(CacheOpt {
        id: text_checked(cache.id, 1)?,
        sharing: cache.sharing,
    })
}

fn found_cache_checked<'a>(
    found: Option<CacheOpt<RawText<'a>>>,
) -> Result<Option<CacheOpt<LentText<'a>>>, OpRefusal>
    ensures { result ≡ optional_checked cache_checked found.entry }
{
    match found {
        Some(cache) => Ok(Some(cache_checked(cache)?)),
        None => Ok(None),
    }
}

#[tactic(auto, unfolding(crate::specs::Texts::mount_checked))]
fn mount_checked<'a>(mount: Mount<RawText<'a>>) -> Result<Mount<LentText<'a>>, OpRefusal>
    ensures { result ≡ mount_checked mount.entry }
{
    Ok(Mount {
        input: mount.input,
        selector: text_checked(mount.selector, 2)?,
        dest: text_checked(mount.dest, 3)?,
        output: mount.output,
        readonly: mount.readonly,
        mount_type: mount.mount_type,
        cache: found_cache_checked(mount.cache)?,
    })
}

#[tactic(auto, unfolding(crate::specs::Texts::meta_checked))]
fn meta_checked<'a>(alloc: Global, meta: Meta<RawText<'a>>) -> Result<Meta<LentText<'a>>, OpRefusal>
    ensures { Gives (λ v. v) result (meta_checked meta.entry) }
{
    Ok(Meta {
        args: texts_checked(alloc, meta.args, 1)?,
        env: texts_checked(alloc, meta.env, 2)?,
        cwd: text_checked(meta.cwd, 3)?,
        user: text_checked(meta.user, 4)?,
    })
}

fn found_meta_checked<'a>(
    alloc: Global,
    found: Option<Meta<RawText<'a>>>,
) -> Result<Option<Meta<LentText<'a>>>, OpRefusal>
    ensures { Gives (λ v. v) result (optional_checked meta_checked found.entry) }
{
    match found {
        Some(meta) => Ok(Some(meta_checked(alloc, meta)?)),
        None => Ok(None),
    }
}

/// Checks mounts, and adds them at the end.
#[tactic(auto, using(crate::proofs::TextLemmas::goes_on, crate::proofs::TextLemmas::stops, crate::proofs::TextLemmas::is_done))]
fn check_mounts<'a>(
    checked: &mut Vec<Mount<LentText<'a>>>,
    mounts: Vec<Mount<RawText<'a>>>,
) -> Result<(), OpRefusal>
    ensures { Gives (λ _. checked.new.items) result (with_front checked.old.items (each_checked mount_checked mounts.entry.items)) }
{
    for mount in mounts {
        checked.push(mount_checked(mount)?)?;
    }
    Ok(())
}

#[tactic(auto, using(crate::proofs::TextLemmas::no_front))]
pub(crate) fn mounts_checked<'a>(
    alloc: Global,
    mounts: Items<Mount<RawText<'a>>>,
) -> Result<Items<Mount<LentText<'a>>>, OpRefusal>
    ensures { Gives (λ v. v) result (each_checked mount_checked mounts.entry) }
{
    let mounts = mounts.into_vec();
    let mut checked = Vec::with_capacity(alloc, mounts.len())?;
    check_mounts(&mut checked, mounts)?;
    Ok(Items::new(checked))
}

/// Checks inputs, and adds them at the end.
#[tactic(auto, using(crate::proofs::TextLemmas::goes_on, crate::proofs::TextLemmas::stops, crate::proofs::TextLemmas::is_done))]
fn check_inputs<'a>(
    checked: &mut Vec<Input<LentText<'a>>>,
    inputs: Vec<Input<RawText<'a>>>,
) -> Result<(), OpRefusal>
    ensures { Gives (λ _. checked.new.items) result (with_front checked.old.items (each_checked input_checked inputs.entry.items)) }
{
    for input in inputs {
        checked.push(input_checked(input)?)?;
    }
    Ok(())
}

#[tactic(auto, using(crate::proofs::TextLemmas::no_front))]
pub(crate) fn inputs_checked<'a>(
    alloc: Global,
    inputs: Items<Input<RawText<'a>>>,
) -> Result<Items<Input<LentText<'a>>>, OpRefusal>
    ensures { Gives (λ v. v) result (each_checked input_checked inputs.entry) }
{
    let inputs = inputs.into_vec();
    let mut checked = Vec::with_capacity(alloc, inputs.len())?;
    check_inputs(&mut checked, inputs)?;
    Ok(Items::new(checked))
}

#[tactic(auto, unfolding(crate::specs::Texts::exec_checked))]
pub(crate) fn exec_checked<'a>(
    alloc: Global,
    exec: ExecOp<RawText<'a>>,
) -> Result<ExecOp<LentText<'a>>, OpRefusal>
    ensures { Gives (λ v. v) result (exec_checked exec.entry) }
{
    Ok(ExecOp {
        meta: found_meta_checked(alloc, exec.meta)?,
        mounts: mounts_checked(alloc, exec.mounts)?,
        network: exec.network,
        security: exec.security,
    })
}
