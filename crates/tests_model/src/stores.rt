//! What cuts of a store answer and leave, what marks give back, and copies.

ghost use Rattle.std.specs.Prelude.{◌≡◌, ◌<◌, length, true, OnOk};
ghost use Rattle.un_domains.specs.Sets.{set_at, NoneEmpty};

use crate::sets::{has_sets, store_of};
use crate::words::{cut, number_at};
use std::alloc::Global;
use un_base::ids::VarId;
use un_base::lines::lines;
use un_base::memory_error::NoMemory;
use un_domains::cut::Cut;
use un_domains::store::Store;

/// Sets before, one step or two of a variable, a cut and its answer, and the sets that are left. Further steps are taken behind a second
/// mark.
static ROWS: &[u8] = b"# Two variables with values in two words, and marks within one another.
1,64,65,66,70 1,5>0 above 64 changed,1 above 1 changed>65,66,70 5>0 above 66 changed>70 5
# A range and a listed set.
0-70 1,5>1 without 1 changed,0 above 64 changed>65-70 5
0-70 1,5>0 above 70 emptied>none 1,5
# a range
3-4 0-5>1 most 3 changed>3-4 0-3
3-4 0-5>1 most 5 same>3-4 0-5
3-4 2-5>1 most 1 emptied>3-4 none
3-4 2-5>1 most 2 changed>3-4 2
3-4 2-5>1 above 3 changed>3-4 4-5
3-4 2-5>1 above 1 same>3-4 2-5
3-4 2-5>1 above 5 emptied>3-4 none
3-4 2-5>1 only 4 changed>3-4 4
3-4 7-7>1 only 7 same>3-4 7
3-4 2-5>1 only 6 emptied>3-4 none
3-4 2-5>1 without 2 changed>3-4 3-5
3-4 2-5>1 without 3 changed>3-4 2,4-5
3-4 2-5>1 without 9 same>3-4 2-5
3-4 7-7>1 without 7 emptied>3-4 none
3-4 0-0>1 most 0 same>3-4 0
3-4 0-1>1 above 0 changed>3-4 1
3-4 3-4>1 without 4 changed>3-4 3
3-4 0-63>1 without 63 changed>3-4 0-62
3-4 0-64>1 only 64 changed>3-4 64
3-4 5-69>1 most 68 changed>3-4 5-68
3-4 60-70>1 above 64 changed>3-4 65-70
# values with gaps
3-4 1,5>1 most 4 changed>3-4 1
3-4 1,5>1 most 0 emptied>3-4 none
3-4 1,5,6,90>1 above 5 changed>3-4 6,90
3-4 1,5,6,90>1 above 0 same>3-4 1,5-6,90
3-4 1,5,6,90>1 only 5 changed>3-4 5
3-4 1,5,6,90>1 only 4 emptied>3-4 none
3-4 1,5,6,90>1 without 90 changed>3-4 1,5-6
3-4 1,5,6,90>1 without 4 same>3-4 1,5-6,90
3-4 0,4294967295>1 most 4294967294 changed>3-4 0
3-4 3>1 without 3 emptied>3-4 none
3-4 8>1 only 8 same>3-4 8
3-4 2,4,8,16>1 most 16 same>3-4 2,4,8,16
3-4 2,4,8,17>1 above 17 emptied>3-4 none
3-4 0,63,64,127,128>1 above 63 changed>3-4 64,127-128
3-4 0,2,3,4,100>1 most 3 changed>3-4 0,2-3
3-4 10,20,30>1 without 20 changed>3-4 10,30
# thousands of values
3-4 1000-9000>1 most 4321 changed>3-4 1000-4321
3-4 1000-9000>1 above 8999 changed>3-4 9000
3-4 1000-9000>1 without 5000 changed>3-4 1000-4999,5001-9000
3-4 1000-9000>1 only 1064 changed>3-4 1064
3-4 1000-9000>1 above 999 same>3-4 1000-9000
3-4 0-4000>1 without 4096 same>3-4 0-4000
3-4 2000-7000>1 only 1999 emptied>3-4 none";

/// Cuts a variable by the word behind its number.
fn cut_by(store: &mut Store, v: VarId, text: &[u8]) -> Cut
    requires there { v.0 < length store.old.sets }
    requires some { 0 < length (set_at store.old.sets v.0) }
    ensures long { length store.new.sets ≡ length store.old.sets }
    ensures marked { store.new.marked ≡ store.old.marked }
{
    let x = number_at(text, 2);
    match text.get(2) {
        Some(b'm') => store.keep_le(v, x),
        Some(b'a') => store.keep_gt(v, x),
        Some(b'o') => store.keep_eq(v, x),
        _ => store.drop_value(v, x),
    }
}

/// Whether a cut has the answer at the end of its step.
fn is_answer(answer: Cut, text: &[u8]) -> bool {
    match answer {
        Cut::Same => text.ends_with(b"same"),
        Cut::Changed => text.ends_with(b"changed"),
        Cut::Emptied => text.ends_with(b"emptied"),
    }
}

/// Takes a step, and says whether the cut answers so.
fn step(store: &mut Store, text: &[u8]) -> bool
    ensures long { length store.new.sets ≡ length store.old.sets }
    ensures marked { store.new.marked ≡ store.old.marked }
{
    let v = VarId(number_at(text, 0));
    if v.0 >= store.len() || store.size(v) == 0 {
        return false;
    }
    is_answer(cut_by(store, v, text), text)
}

/// Takes one step or two, and says whether they answer so and leave these sets.
fn leave(store: &mut Store, steps: &[u8], left: &[u8]) -> bool
    ensures long { length store.new.sets ≡ length store.old.sets }
    ensures marked { store.new.marked ≡ store.old.marked }
{
    let (first, second) = cut(steps, b',');
    step(store, first) && (second.is_empty() || step(store, second)) && has_sets(store, left)
}

/// Whether steps behind a mark leave what is said. `undo` gives back what was before.
fn marked(store: &mut Store, text: &[u8]) -> Result<bool, NoMemory>
    requires { NoneEmpty store.old.sets }
    ensures { OnOk result (store.new ≡ store.old) }
{
    let (steps, left) = cut(text, b'>');
    store.mark()?;
    let well = leave(store, steps, left);
    store.undo();
    Ok(well)
}

/// Whether each variable has a value.
pub(crate) fn is_live(store: &Store) -> bool
    ensures { result ≡ true → NoneEmpty store.now.sets }
{
    for v in 0..store.len() {
        if store.size(VarId(v)) == 0 {
            return false;
        }
    }
    true
}

/// The same, with further steps behind a second mark, after which the sets are again those before it.
fn marked_twice(store: &mut Store, text: &[u8]) -> Result<bool, NoMemory>
    requires { NoneEmpty store.old.sets }
    ensures { OnOk result (store.new ≡ store.old) }
{
    let (steps, rest) = cut(text, b'>');
    let (left, more) = cut(rest, b'>');
    store.mark()?;
    let mut well = leave(store, steps, left);
    if !more.is_empty() && is_live(store) {
        well = marked(store, more)? && well && has_sets(store, left);
    }
    store.undo();
    Ok(well)
}

/// Whether steps leave what is said, and a copy of the store keeps the sets before them.
fn copied(alloc: Global, store: &mut Store, before: &[u8], text: &[u8]) -> Result<bool, NoMemory> {
    let (steps, rest) = cut(text, b'>');
    let (left, _) = cut(rest, b'>');
    let copy = store.copy(alloc)?;
    Ok(leave(store, steps, left) && has_sets(&copy, before))
}

/// Whether a store is cut as its row says: behind marks, which are taken back, and then beside a copy.
fn store_is_cut(alloc: Global, store: &mut Store, row: &[u8]) -> Result<bool, NoMemory>
    requires { NoneEmpty store.old.sets }
{
    let (before, text) = cut(row, b'>');
    Ok(marked_twice(store, text)? && has_sets(store, before) && copied(alloc, store, before, text)?)
}

/// The same for the store of the row.
fn is_cut(alloc: Global, row: &[u8]) -> Result<bool, NoMemory> {
    match store_of(alloc, cut(row, b'>').0)? {
        None => Ok(false),
        Some(mut store) => store_is_cut(alloc, &mut store, row),
    }
}

/// Whether each row but for comments is so.
fn all_cut(alloc: Global) -> Result<bool, NoMemory> {
    for row in lines(ROWS) {
        if !row.starts_with(b"#") && !is_cut(alloc, row)? {
            return Ok(false);
        }
    }
    Ok(true)
}

#[test]
fn stores_are_cut_as_was_worked_out(rt: HostRuntime) {
    let well = matches!(all_cut(rt.alloc()), Ok(true));
    assert!(rt; well);
}
