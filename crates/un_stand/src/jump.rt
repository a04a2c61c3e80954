//! From one place of a tree to another: up to the decisions that both paths begin with, and down again.

ghost use Rattle.std.specs.Prelude.{◌≡◌, ◌≢◌, ◌↔◌, ◌<◌, ◌≤◌, [], IsTrue, OnOk, length, slice_get, take};
ghost use Rattle.un_stand.specs.Rooms.{Goes, IsRoom, IsRoomOn, path_of};

use crate::room::{Room, go_down, go_up};
use un_base::memory_error::NoMemory;
use un_domains::side::Side;
use un_tree::node::Decision;

/// Whether two decisions are the same.
fn is_same(a: Decision, b: Decision) -> bool
    ensures { IsTrue result ↔ a ≡ b }
{
    let side = match (a.side, b.side) {
        (Side::AtMost, Side::AtMost) => true,
        (Side::Above, Side::Above) => true,
        (Side::AtMost, Side::Above) => false,
        (Side::Above, Side::AtMost) => false,
    };
    side && a.var == b.var && a.val == b.val
}

/// How many decisions two paths share.
fn shared(a: &[Decision], b: &[Decision]) -> usize
    ensures within { result ≤ length a.now }
    ensures same { take result a.now ≡ take result b.now }
    ensures most { result < length a.now → result < length b.now → slice_get a.now result ≢ slice_get b.now result }
{
    let mut count = 0;
    while count < a.len() && count < b.len() {
        if !is_same(a[count], b[count]) {
            return count;
        }
        count += 1;
    }
    count
}

/// Goes up to the first decisions.
fn rise(room: &mut Room, keep: usize)
    requires { IsRoom room.old }
    ensures at { Goes room.old room.new }
    ensures path { path_of room.new ≡ take keep (path_of room.old) }
{
    while room.stand.path.len() > keep {
        go_up(room);
    }
}

/// Goes up to the first box.
pub fn to_first(room: &mut Room)
    requires { IsRoom room.old }
    ensures at { Goes room.old room.new }
    ensures first { path_of room.new ≡ [] }
{
    rise(room, 0);
}

/// Goes down to the end of a path, of which it stands on the way.
fn descend(room: &mut Room, path: &[Decision]) -> Result<(), NoMemory>
    requires at { IsRoomOn path.now room.old }
    requires begun { path_of room.old ≡ take (length (path_of room.old)) path.now }
    ensures at { OnOk result (Goes room.old room.new) }
    ensures path { OnOk result (path_of room.new ≡ path.now) }
{
    let mut at = room.stand.path.len();
    while at < path.len() {
        go_down(room, path[at])?;
        at += 1;
    }
    Ok(())
}

/// Goes to the end of a path of which each decision has both sides.
///
/// # Errors
/// Where memory is short; then the room is good for nothing but to be dropped.
pub fn go_to(room: &mut Room, path: &[Decision]) -> Result<(), NoMemory>
    requires { IsRoomOn path.now room.old }
    ensures at { OnOk result (Goes room.old room.new) }
    ensures path { OnOk result (path_of room.new ≡ path.now) }
{
    let keep = shared(room.stand.path.as_slice(), path);
    rise(room, keep);
    descend(room, path)?;
    Ok(())
}
