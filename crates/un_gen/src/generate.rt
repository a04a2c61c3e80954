//! Generated functions.

ghost use Rattle.std.specs.Prelude.{◌≡◌, ◌<◌, ◌≤◌, true, IfOk};
ghost use Rattle.un_base.specs.Names.{is_name};
ghost use Rattle.un_ir.specs.declared.function.Kind.{Kind};
ghost use Rattle.un_ir.specs.declared.function.TheConstants.{BLOCKS};
ghost use Rattle.un_gen.specs.Generated.{all_names, all_params, IsGenerated};

use crate::blocks::{all_blocks, name_of};
use std::alloc::{AllocError, Global};
use un_base::ids::NameId;
use un_base::memory_error::NoMemory;
use un_base::name::Name;
use un_ir::function::{BLOCKS, Function, Kind};
use un_lists::items::Items;

/// The name of a word.
fn word(bytes: &[u8]) -> (Name, Kind)
    requires { is_name bytes.now ≡ true }
    ensures { result ≡ (bytes.now, Kind.General) }
{
    (name_of(bytes), Kind::General)
}

/// All names, as a vector.
fn name_vec(alloc: Global) -> Result<Vec<(Name, Kind)>, AllocError>
    ensures { IfOk result (λ names. names.items ≡ all_names) }
{
    let names = vec![in alloc;
        word(b"v0"),
        word(b"v1"),
        word(b"v2"),
        word(b"v3"),
        word(b"v4"),
        word(b"v5"),
        word(b"v6"),
        word(b"v7"),
        (name_of(b"p0"), Kind::Pred),
    ]?;
    Ok(names)
}

/// All names.
fn all_names(alloc: Global) -> Result<Items<(Name, Kind)>, NoMemory>
    ensures { IfOk result (λ names. names ≡ all_names) }
{
    Ok(Items::from_vec(name_vec(alloc)?))
}

/// The parameters, as a vector.
fn param_vec(alloc: Global) -> Result<Vec<NameId>, AllocError>
    ensures { IfOk result (λ params. params.items ≡ all_params) }
{
    let params = vec![in alloc; NameId(0), NameId(1), NameId(2), NameId(3)]?;
    Ok(params)
}

/// The parameters.
fn all_params(alloc: Global) -> Result<Items<NameId>, NoMemory>
    ensures { IfOk result (λ params. params ≡ all_params) }
{
    Ok(Items::from_vec(param_vec(alloc)?))
}

/// The function of so many blocks, 1 to `BLOCKS`, that a seed generates: `gen`, with four parameters. Its first block assigns all other names;
/// each other one has a frequency from 1 to 1000 and four operations, and goes on at the next one or at one of those behind the first.
///
/// # Errors
/// `NoMemory` where there is no memory for the function.
pub fn generate(alloc: Global, seed: u64, size: u32) -> Result<Function, NoMemory>
    requires some { 0 < size }
    requires few { size ≤ BLOCKS }
    ensures { IfOk result (IsGenerated seed size) }
{
    let names = all_names(alloc)?;
    let params = all_params(alloc)?;
    let blocks = all_blocks(alloc, seed, size)?;
    Ok(Function {
        name: name_of(b"gen"),
        params,
        names,
        blocks,
    })
}
