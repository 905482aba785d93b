//! The outputs that inputs name.
ghost use Rattle.std.specs.Prelude.{◌≡◌, IfOk, IfSome, IfNone, option_copied, slice_get};
ghost use Rattle.std.specs.List.{AllZip};
ghost use Rattle.names.specs.declared.digest.Digest.{Digest as SpecDigest};
ghost use Rattle.keytable.specs.Failing.{AreThere, HasOutput};
ghost use Rattle.keytable.specs.Tables.{IsTable};

use super::entry::Progress;
use super::table::Table;
use farm_base::{Digest, Key};
use std::alloc::{AllocError, Global};

/// The output of an index.
pub fn output_at(outputs: &[Digest], index: u64) -> Option<&Digest>
    ensures { option_copied result ≡ slice_get outputs.now index }
{
    outputs.get(index as usize)
}

/// The output that an input names, if it is there.
pub fn output_of(table: &Table, input: &(Key, u64)) -> Option<Digest>
    requires { IsTable table.now }
    ensures there { IfSome result (HasOutput table.now.entries.items input.now) }
    ensures missing { IfNone result ((digest : SpecDigest) → HasOutput table.now.entries.items input.now digest → ⊥) }
{
    let number = table.number(&input.0)?;
    match &table.entries[number].progress {
        Progress::Done(outputs) => output_at(outputs.as_slice(), input.1).copied(),
        _ => None,
    }
}

/// The outputs that inputs name. All of them are there.
pub fn outputs_of(
    alloc: Global,
    table: &Table,
    inputs: &[(Key, u64)],
) -> Result<Vec<Digest>, AllocError>
    requires table { IsTable table.now }
    requires there { AreThere table.now.entries.items inputs.now }
    ensures { IfOk result (λ outputs. AllZip (HasOutput table.now.entries.items) inputs.now outputs.items) }
{
    let mut outputs = Vec::with_capacity(alloc, inputs.len())?;
    for input in inputs {
        match output_of(table, input) {
            Some(output) => outputs.push(output)?,
            None => unreachable!(),
        }
    }
    Ok(outputs)
}
