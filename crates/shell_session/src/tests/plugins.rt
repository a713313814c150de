//! The plugin's end.

ghost use Rattle.std.specs.Prelude.{◌≡◌, IfOk, true};
ghost use Rattle.session_feeds.specs.Sessions.{MayCall};

use super::{is_one, item};
use crate::{ShellPlugin, StreamFeeder};
use chan_io::{FaultySink, FaultySource};
use chan_ports::Local;
use session_feeds::{Session, SessionFault};
use session_run::Parcel;
use std::alloc::Global;
use std::test::Fail;

type Plugin = ShellPlugin<FaultySource, FaultySink, FaultySink>;

/// A plugin that was begun, with the feeder of its user's input; these writes to its output fail.
fn begun(alloc: Global, failing: &[u64]) -> Result<(Plugin, StreamFeeder<FaultySource>), Fail>
    ensures { IfOk result (λ begun. MayCall begun.0.begun begun.0.refused) }
{
    let local = Local {
        input: FaultySource::new(Vec::from_slice(alloc, b"ls")?, Vec::new(alloc)),
        output: FaultySink::new(alloc, Vec::from_slice(alloc, failing)?),
        errors: FaultySink::new(alloc, Vec::new(alloc)),
    };
    let mut plugin = ShellPlugin::new(alloc, local);
    let mut verdict = plugin.begin(1)?;
    match verdict.feeders.pop() {
        Some(feeder) => Ok((plugin, feeder)),
        None => Err(super::OtherAnswer)?,
    }
}

/// Whether a parcel makes it ask for nothing.
fn passes(plugin: &mut Plugin, parcel: Parcel) -> bool
    requires { MayCall plugin.old.begun plugin.old.refused }
    ensures { result ≡ true → MayCall plugin.new.begun plugin.new.refused }
{
    match plugin.take(2, parcel) {
        Ok(verdict) => verdict.puts.as_slice().is_empty() && !verdict.finish,
        Err(_) => false,
    }
}

/// Whether an item makes it ask for nothing.
fn hears(alloc: Global, plugin: &mut Plugin, ptype: u32, payload: &[u8]) -> bool
    requires { MayCall plugin.old.begun plugin.old.refused }
    ensures { result ≡ true → MayCall plugin.new.begun plugin.new.refused }
{
    match item(alloc, ptype, payload) {
        Ok(item) => passes(plugin, Parcel::Arrived(item)),
        Err(_) => false,
    }
}

#[test]
fn what_arrives_is_shown(rt: HostRuntime) -> Result<(), Fail> {
    let alloc = rt.alloc();
    let (mut plugin, _feeder) = begun(alloc, &[])?;
    assert!(rt; hears(alloc, &mut plugin, 1, b"a"), "output");
    assert!(rt; hears(alloc, &mut plugin, 11, b"b"), "errors");
    assert!(rt; hears(alloc, &mut plugin, 3, b"c"), "a Size");
    assert!(rt; hears(alloc, &mut plugin, 1, b"d"), "output again");
    assert!(rt; passes(&mut plugin, Parcel::Finished), "the last item");
    assert!(rt;
        plugin.output.taken() == b"ad".as_slice(),
        "the output in order"
    );
    assert!(rt;
        plugin.errors.taken() == b"b".as_slice(),
        "the errors apart"
    );
    Ok(())
}

#[test]
fn the_last_status_is_kept(rt: HostRuntime) -> Result<(), Fail> {
    let alloc = rt.alloc();
    let (mut plugin, _feeder) = begun(alloc, &[])?;
    assert!(rt; plugin.exit() == None, "none came");
    assert!(rt; hears(alloc, &mut plugin, 12, b"-128"), "a status");
    assert!(rt; plugin.exit() == Some(-128), "is kept");
    assert!(rt; hears(alloc, &mut plugin, 12, b"+1"), "a plus sign");
    assert!(rt; hears(alloc, &mut plugin, 12, b"01"), "a leading zero");
    assert!(rt; hears(alloc, &mut plugin, 12, b"2147483648"), "too large");
    assert!(rt; hears(alloc, &mut plugin, 12, b""), "no digit");
    assert!(rt; plugin.exit() == Some(-128), "these are none");
    Ok(())
}

#[test]
fn the_end_of_input_is_flagged_once(rt: HostRuntime) -> Result<(), Fail> {
    let alloc = rt.alloc();
    let (mut plugin, _feeder) = begun(alloc, &[])?;
    let flagged = plugin.take(2, Parcel::Over)?;
    assert!(rt; is_one(&flagged.puts, 10, &[0, 0, 0, 2]), "flag 2");
    assert!(rt;
        flagged.last && !flagged.finish,
        "as the last of its direction"
    );
    assert!(rt; passes(&mut plugin, Parcel::Over), "once");
    Ok(())
}

#[test]
fn a_write_that_fails_is_told(rt: HostRuntime) -> Result<(), Fail> {
    let alloc = rt.alloc();
    let (mut plugin, _feeder) = begun(alloc, &[1])?;
    assert!(rt; hears(alloc, &mut plugin, 1, b"a"), "a write");
    let fault = plugin.take(3, Parcel::Arrived(item(alloc, 1, b"b")?)).err();
    assert!(rt; fault == Some(SessionFault::Write), "one that fails");
    Ok(())
}

/// Whether it shows 100 messages and reports 100.
fn shows_hundred(alloc: Global, plugin: &mut Plugin) -> bool
    requires { MayCall plugin.old.begun plugin.old.refused }
{
    for count in 0u8..100 {
        if !hears(alloc, plugin, 1, &[count]) || !hears(alloc, plugin, 11, &[count]) {
            return false;
        }
    }
    true
}

#[test]
fn a_hundred_messages_are_shown_in_order(rt: HostRuntime) -> Result<(), Fail> {
    let alloc = rt.alloc();
    let (mut plugin, _feeder) = begun(alloc, &[])?;
    assert!(rt; shows_hundred(alloc, &mut plugin), "each is heard");
    let mut due = Vec::new(alloc);
    for count in 0u8..100 {
        due.push(count)?;
    }
    assert!(rt; plugin.output.taken() == due.as_slice(), "the output");
    assert!(rt; plugin.errors.taken() == due.as_slice(), "the errors");
    Ok(())
}
