//! The code of given values of a model's variables.

ghost use Rattle.un_model.specs.Solutions.{IsSolution};
ghost use Rattle.un_problem.specs.Problems.{IsProblemOf};

use crate::rows::{cut, number};
use std::alloc::{AllocError, Global};
use un_base::memory_error::NoMemory;
use un_ir::function::Function;
use un_isa::table::hexagon;
use un_listing::print::print_code;
use un_lists::items::Items;
use un_model::cost::cost;
use un_model::model::{Model, Solution};
use un_problem::problem::{default_options, model};
use un_reader::read::read_function;
use un_top::search::code_of;
use un_violations::violations::violations;

/// Three blocks, of which the last returns at once.
static EMPTY: &[u8] = b"func e\nblock a freq 3\nblock b freq 7\nblock c freq 2\n  ret\n";

/// The code without copies, in which the saved values stay where they are: two packets' worth, as the last block runs twice.
static LISTING: &[u8] = b"frame 0\nblock a\nblock b\nblock c\n{ jumpr r31 }\n";

/// How many variables its model has.
const VARIABLES: usize = 269;

/// The values that are not 0, behind their places: the registers of the saved values at each block's start, the ends of the blocks, and the
/// cycle of the return.
static VALUES: &[u8] =
    b"0=16 1=17 2=18 3=19 4=20 5=21 6=22 7=23 8=24 9=25 10=26 11=27 12=31 119=1 120=16 121=17 122=18 123=19 124=20 125=21 126=22 127=23 \
128=24 129=25 130=26 131=27 132=31 146=1 147=16 148=17 149=18 150=19 151=20 152=21 153=22 154=23 155=24 156=25 157=26 158=27 \
159=31 205=1 267=2";

/// The values of the variables.
fn values(alloc: Global) -> Result<Items<u32>, AllocError> {
    let values = vec![in alloc; 0u32; VARIABLES]?;
    let mut values = Items::from_vec(values);
    for word in VALUES.split(|b| *b == b' ') {
        let (place, value) = cut(word, b'=');
        let (place, value) = (number(place), number(value).min(1000) as u32);
        if place < values.len() as u64 {
            values.set(place as usize, value);
        }
    }
    Ok(values)
}

/// The listing of the code of a solution that costs 2, and nothing where it costs otherwise.
fn costed(alloc: Global, f: &Function, m: &Model, s: &Solution) -> Result<Vec<u8>, NoMemory>
    requires problem { IsProblemOf f.now m.now }
    requires solution { IsSolution m.now s.now }
{
    if cost(m, s) != 2 {
        return Ok(Vec::new(alloc));
    }
    let code = code_of(alloc, f, m, s)?;
    print_code(alloc, &code)
}

/// The listing of the code of a solution, and nothing for other values.
fn listed(alloc: Global, f: &Function, m: &Model, s: &Solution) -> Result<Vec<u8>, NoMemory>
    requires { IsProblemOf f.now m.now }
{
    let broken = violations(alloc, m, s)?;
    if !broken.is_empty() {
        return Ok(Vec::new(alloc));
    }
    costed(alloc, f, m, s)
}

/// The listing of the values of the model of a function.
fn listing_of(alloc: Global, f: &Function, s: &Solution) -> Result<Vec<u8>, NoMemory> {
    let m = model(alloc, f, &hexagon(), &default_options())?;
    listed(alloc, f, &m, s)
}

/// Whether three empty blocks become their return alone.
fn empty_blocks_have_no_packets(alloc: Global, s: &Solution) -> Result<bool, NoMemory> {
    let Ok(f) = read_function(alloc, EMPTY) else {
        return Ok(false);
    };
    let listing = listing_of(alloc, &f, s)?;
    Ok(listing.as_slice() == LISTING)
}

/// The same with these values.
fn values_have_no_packets(alloc: Global) -> Result<bool, NoMemory> {
    let values = values(alloc)?;
    empty_blocks_have_no_packets(alloc, &Solution { values })
}

#[test]
fn prints_empty_blocks(rt: HostRuntime) {
    let well = matches!(values_have_no_packets(rt.alloc()), Ok(true));
    assert!(rt; well);
}
