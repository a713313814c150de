//! Outside values of the bodies, and each fault of each member.

mod examples;
mod faults;
mod handshakes;
mod readings;

use chan_values::Text;
use std::alloc::Global;
use std::test::Fail;

fn text(alloc: Global, text: &str) -> Result<Text, Fail> {
    Ok(Text::new(String::from_str(alloc, text)?))
}
