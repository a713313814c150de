//! The worked handshake, a handshake for a port, and each answer once.

mod agent;
mod client;

ghost use Rattle.std.specs.Prelude.{◌≡◌, IfOk};

use crate::{Agreed, Step, Why};
use chan_values::{Bytes, Item, Text};
use std::alloc::Global;
use std::test::Fail;

const REQUEST: &str =
    "{\"AgentVersion\":\"3.3.0.0\",\"RequestedClientActions\":[{\"ActionParameters\":{\"Properties\":{},\"SessionType\":\"Standard_Stream\"},\"ActionType\":\"SessionType\"},{\"ActionParameters\":{\"KMSKeyId\":\"k\"},\"ActionType\":\"KMSEncryption\"}]}";

const PORT_REQUEST: &str =
    "{\"AgentVersion\":\"3.3.0.0\",\"RequestedClientActions\":[{\"ActionParameters\":{\"Properties\":{\"portNumber\":\"80\",\"type\":\"LocalPortForwarding\"},\"SessionType\":\"Port\"},\"ActionType\":\"SessionType\"}]}";

const RESPONSE: &str =
    "{\"ClientVersion\":\"1.2.0.0\",\"Errors\":[],\"ProcessedClientActions\":[{\"ActionResult\":null,\"ActionStatus\":1,\"ActionType\":\"SessionType\",\"Error\":\"\"},{\"ActionResult\":null,\"ActionStatus\":3,\"ActionType\":\"KMSEncryption\",\"Error\":\"Unsupported\"}]}";

const COMPLETION: &str = "{\"CustomerMessage\":\"\",\"HandshakeTimeToComplete\":4000000}";

/// A step has another answer than the one that is asked for.
#[derive(Debug, Drop)]
struct OtherStep;

fn text(alloc: Global, text: &str) -> Result<Text, Fail>
    ensures { IfOk result (λ copied. copied ≡ text.now) }
{
    Ok(Text::new(String::from_str(alloc, text)?))
}

fn item(alloc: Global, ptype: u32, payload: &str) -> Result<Item, Fail> {
    let payload = Vec::from_slice(alloc, payload.as_bytes())?;
    Ok(Item {
        ptype,
        payload: Bytes::new(payload),
    })
}

fn put(step: Step) -> Result<Item, OtherStep> {
    match step {
        Step::Put(item) => Ok(item),
        _ => Err(OtherStep),
    }
}

fn finish(step: Step) -> Result<(Item, Agreed), OtherStep> {
    match step {
        Step::Finish(item, agreed) => Ok((item, agreed)),
        _ => Err(OtherStep),
    }
}

fn done(step: Step) -> Result<Agreed, OtherStep> {
    match step {
        Step::Done(agreed) => Ok(agreed),
        _ => Err(OtherStep),
    }
}

fn pass(step: Step) -> Result<Item, OtherStep> {
    match step {
        Step::Pass(item) => Ok(item),
        _ => Err(OtherStep),
    }
}

fn refused(step: Step) -> Result<Why, OtherStep> {
    match step {
        Step::Refused(why) => Ok(why),
        _ => Err(OtherStep),
    }
}
