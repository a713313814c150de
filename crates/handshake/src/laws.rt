//! What holds of every step, and of every session that may be asked for.

ghost use Rattle.std.specs.Prelude.{◌≤◌};
ghost use Rattle.handshake.specs.AgentState.{IsShort};
ghost use Rattle.handshake.specs.Laws.{AgentHasOneStep, ClientHasOneStep};
ghost use Rattle.handshake.specs.Sessions.{properties_bytes};
ghost use Rattle.handshake.specs.declared.agreed.Agreed.{Agreed};

use json_bodies::laws::requests_are_short;

/// A client has one step with an item behind the same items, where there is memory.
pub fn a_client_has_one_step()
    ensures { ClientHasOneStep }
{}

/// An agent has one step with an item behind the same items, where there is memory.
pub fn an_agent_has_one_step()
    ensures { AgentHasOneStep }
{}

/// The request for a session whose properties have at most 10,000 bytes fits a message.
pub fn short_requests_fit()
    ensures { (choice : Agreed) → properties_bytes choice.properties ≤ 10000 → IsShort choice }
{
    requests_are_short();
}
