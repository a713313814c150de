//! What holds of every message and of every list of bytes.

ghost use Rattle.std.specs.Prelude.{◌≡◌, ◌<◌, ◌+◌, ◌++◌, ℕ, All, List, None, Option, Result, Ok, length};
ghost use Rattle.std.specs.List.{flat_map, sum_by};
ghost use Rattle.agent_message.specs.CaptureReading.{Pending, StandsFor};
ghost use Rattle.agent_message.specs.Captures.{IsCapture, Pieces, piece, piece_length};
ghost use Rattle.agent_message.specs.Decoding.{Decodes};
ghost use Rattle.agent_message.specs.Layout.{canonical, IsEncodable};
ghost use Rattle.agent_message.specs.declared.capture_fault.CaptureFault.{CaptureFault};
ghost use Rattle.agent_message.specs.declared.message.Message.{Message};
ghost use Rattle.agent_message.specs.declared.refusal.Refusal.{Refusal};

/// What is written is read again.
pub fn what_is_written_is_read()
    ensures { (m : Message) → IsEncodable m → Decodes (canonical m) (Ok m) }
{}

/// Bytes spell a sound message or have a first fault.
pub fn bytes_have_an_answer()
    ensures { (bytes : List ℕ) → All (λ byte. byte < 256) bytes
        → (answer : Result Message Refusal) × Decodes bytes answer }
{}

/// Bytes spell at most one sound message or have one first fault, and never both.
pub fn bytes_have_one_answer()
    ensures { (bytes : List ℕ) (a b : Result Message Refusal)
        → Decodes bytes a → Decodes bytes b → a ≡ b }
{}

/// The pieces of messages that can be written are a capture of these messages, without a fault.
pub fn what_is_captured_is_read()
    ensures { (messages : List Message) → All IsEncodable messages
        → IsCapture (flat_map (λ m. piece (canonical m)) messages) messages None }
{}

/// Bytes are a capture, up to their end or their first fault.
pub fn bytes_are_a_capture()
    ensures { (bytes : List ℕ) → All (λ byte. byte < 256) bytes
        → (messages : List Message) × (fault : Option CaptureFault)
        × IsCapture bytes messages fault }
{}

/// Bytes are a capture in one way.
pub fn bytes_are_one_capture()
    ensures { (bytes : List ℕ) (messages others : List Message) (fault other : Option CaptureFault)
        → IsCapture bytes messages fault → IsCapture bytes others other
        → (messages ≡ others) × (fault ≡ other) }
{}

/// The pieces of messages are as long as their payloads say, so the place of each is known.
pub fn pieces_have_their_length()
    ensures { (messages : List Message) (bytes rest : List ℕ) → Pieces messages bytes rest
        → length bytes ≡ sum_by piece_length messages + length rest }
{}

/// The messages that a reader gives of the first bytes of a capture are its first messages.
pub fn first_bytes_give_first_messages()
    ensures { (p : Pending) (bytes more : List ℕ) (given messages : List Message)
        (fault : Option CaptureFault)
        → All (λ byte. byte < 256) (bytes ++ more) → StandsFor p bytes given
        → IsCapture (bytes ++ more) messages fault
        → (others : List Message) × (messages ≡ given ++ others) }
{}
