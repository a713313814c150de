//! The lines of the connections.

ghost use Rattle.std.specs.Prelude.{◌≡◌, ◌+◌, ◌<◌, ℕ, [], IfNone, IfSome, IsSome, OnOk, is_ok, length, slice_get, vec_len};
ghost use Rattle.std.specs.BTreeMap.{get};
ghost use Rattle.std.specs.List.{remove};
ghost use Rattle.std.specs.Ordering.{nat_cmp};
ghost use Rattle.relay_switch.specs.Lines.{SameLines, SetsLine, WaitsSame, bytes_in, closed_if, empty_line, line_in, opened, popped, to_conn, without};
ghost use Rattle.relay_switch.specs.Moves.{left, taking};
ghost use Rattle.relay_switch.specs.Steps.{TakesFirst};

use crate::line::{Line, conn_of};
use chan_values::NoMemory;
use relay_core::Action;
use std::alloc::Global;
use std::collections::BTreeMap;

/// Whether the connection is open.
pub(crate) fn is_open(lines: &BTreeMap<u64, Line>, conn: u64) -> bool
    ensures { result ≡ (line_in lines.now.entries conn).is_open }
{
    match lines.get(&conn) {
        Some(line) => line.is_open(),
        None => false,
    }
}

/// How many bytes of texts and messages wait in the line of a connection.
pub(crate) fn bytes_waiting(lines: &BTreeMap<u64, Line>, conn: u64) -> u64
    ensures { result ≡ bytes_in (line_in lines.now.entries conn).waiting }
{
    match lines.get(&conn) {
        Some(line) => line.bytes(),
        None => 0,
    }
}

/// Sees to it that the connection has a line.
pub(crate) fn keep_line(
    alloc: Global,
    lines: &mut BTreeMap<u64, Line>,
    conn: u64,
) -> Result<(), NoMemory>
    ensures same { SameLines lines.old.entries lines.new.entries }
    ensures kept { OnOk result (IsSome (get nat_cmp lines.new conn)) }
{
    if lines.contains_key(&conn) {
        return Ok(());
    }
    lines.insert(conn, Line::new(alloc))?;
    Ok(())
}

/// Notes that a connection that has a line is open.
pub(crate) fn open_line(lines: &mut BTreeMap<u64, Line>, conn: u64)
    requires { IsSome (get nat_cmp lines.old conn) }
    ensures { SetsLine conn (opened (line_in lines.old.entries conn))
        lines.old.entries lines.new.entries }
{
    if let Some(line) = lines.get_mut(&conn) {
        line.open();
    }
}

/// Notes that a connection is not open, where this says so.
pub(crate) fn close_if(lines: &mut BTreeMap<u64, Line>, conn: u64, ends: bool)
    ensures { SetsLine conn (closed_if ends (line_in lines.old.entries conn))
        lines.old.entries lines.new.entries }
{
    if let Some(line) = lines.get_mut(&conn) {
        line.close_if(ends);
    }
}

/// Takes the first of what waits in the line of a connection.
fn pop_line(lines: &mut BTreeMap<u64, Line>, conn: u64) -> Option<Action>
    ensures first { result ≡ slice_get (line_in lines.old.entries conn).waiting 0 }
    ensures rest { SetsLine conn (popped (line_in lines.old.entries conn))
        lines.old.entries lines.new.entries }
{
    match lines.get_mut(&conn) {
        Some(line) => line.pop(),
        None => None,
    }
}

/// Moves the actions that were added last into the lines of their connections.
pub(crate) fn settle(
    alloc: Global,
    lines: &mut BTreeMap<u64, Line>,
    added: &mut Vec<Action>,
) -> Result<(), NoMemory>
    ensures same { WaitsSame lines.old.entries added.old.items lines.new.entries added.new.items }
    ensures done { OnOk result (added.new.items ≡ []) }
{
    while !added.is_empty() {
        move_first(alloc, lines, added)?;
    }
    Ok(())
}

/// Moves the first of the actions that were added last into the line of its connection.
fn move_first(
    alloc: Global,
    lines: &mut BTreeMap<u64, Line>,
    added: &mut Vec<Action>,
) -> Result<(), NoMemory>
    requires { 0 < vec_len added.old }
    ensures same { WaitsSame lines.old.entries added.old.items lines.new.entries added.new.items }
    ensures shorter { OnOk result (vec_len added.new + 1 ≡ vec_len added.old) }
{
    let conn = conn_of(&added[0]);
    keep_line(alloc, lines, conn)?;
    take_over(lines, conn, added)
}

/// Takes the first of these actions into the line of a connection, if there is memory for it.
fn take_over(
    lines: &mut BTreeMap<u64, Line>,
    conn: u64,
    added: &mut Vec<Action>,
) -> Result<(), NoMemory>
    requires line { IsSome (get nat_cmp lines.old conn) }
    requires some { 0 < vec_len added.old }
    ensures line { SetsLine conn
        (taking (is_ok result) added.old.items (line_in lines.old.entries conn))
        lines.old.entries lines.new.entries }
    ensures rest { added.new.items ≡ left (is_ok result) added.old.items }
    ensures shorter { OnOk result (vec_len added.new + 1 ≡ vec_len added.old) }
{
    match lines.get_mut(&conn) {
        Some(line) => line.take_over(added),
        None => unreachable!(),
    }
}

/// Takes the first action that waits for a connection, in its line or behind that.
pub(crate) fn take_first(
    lines: &mut BTreeMap<u64, Line>,
    added: &mut Vec<Action>,
    conn: u64,
) -> Option<Action>
    ensures { TakesFirst lines.old.entries added.old.items conn result
        lines.new.entries added.new.items }
{
    match pop_line(lines, conn) {
        Some(action) => Some(action),
        None => take_added(added, conn),
    }
}

/// Lets the line of a connection go, for which nothing waits and which is not open.
pub(crate) fn forget_line(lines: &mut BTreeMap<u64, Line>, conn: u64)
    requires { line_in lines.old.entries conn ≡ empty_line }
    ensures { SameLines lines.old.entries lines.new.entries }
{
    lines.remove(&conn);
}

/// Takes the first action at a connection out.
fn take_added(added: &mut Vec<Action>, conn: u64) -> Option<Action>
    ensures first { result ≡ slice_get (to_conn conn added.old.items) 0 }
    ensures rest { added.new.items ≡ without conn added.old.items }
{
    let index = index_to(added, conn)?;
    Some(added.remove(index))
}

/// Where the first action at a connection stands.
fn index_to(added: &[Action], conn: u64) -> Option<usize>
    ensures within { IfSome result (λ index. index < length added.now) }
    ensures out { IfSome result (λ index. remove added.now index ≡ without conn added.now) }
    ensures first { IfSome result (λ index.
        slice_get (to_conn conn added.now) 0 ≡ slice_get added.now index) }
    ensures none { IfNone result (to_conn conn added.now ≡ []) }
{
    for (index, action) in added.iter().enumerate() {
        if conn_of(action) == conn {
            return Some(index);
        }
    }
    None
}
