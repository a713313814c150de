//! Texts of values, of every right and wrong form.

use crate::{SessionName, Token, TokenValue};
use chan_values::Side;
use std::alloc::Global;
use std::test::Fail;

fn is_value(value: &TokenValue, session: &[u8], role: Side, token: Token) -> bool {
    value.session.as_bytes() == session && value.role == role && value.token == token
}

fn is_written(alloc: Global, value: &TokenValue, text: &[u8]) -> Result<bool, Fail> {
    Ok(value.write(alloc)?.as_slice() == text)
}

// The text is read as this value, which is written back as the text.
fn is_read(
    alloc: Global,
    text: &[u8],
    session: &[u8],
    role: Side,
    token: Token,
) -> Result<bool, Fail> {
    match TokenValue::read(text) {
        Some(value) => {
            Ok(is_value(&value, session, role, token) && is_written(alloc, &value, text)?)
        }
        None => Ok(false),
    }
}

fn is_no_value(text: &[u8]) -> bool {
    TokenValue::read(text).is_none()
}

fn is_name(text: &[u8]) -> bool {
    match SessionName::new(text) {
        Some(name) => name.as_bytes() == text,
        None => false,
    }
}

fn is_no_name(text: &[u8]) -> bool {
    SessionName::new(text).is_none()
}

#[test]
fn a_text_is_read_and_written_back(rt: HostRuntime) -> Result<(), Fail> {
    let cases: [(&[u8], &[u8], Side, Token); 3] = [
        (
            b"s-1.plugin.00000000000000010000000000000007",
            b"s-1",
            Side::Plugin,
            Token {
                count: 1,
                random: 7,
            },
        ),
        (
            b"plugin.agent.ffffffffffffffff0123456789abcdef",
            b"plugin",
            Side::Agent,
            Token {
                count: 18_446_744_073_709_551_615,
                random: 81_985_529_216_486_895,
            },
        ),
        (
            b"-.plugin.00000000000000000000000000000000",
            b"-",
            Side::Plugin,
            Token {
                count: 0,
                random: 0,
            },
        ),
    ];
    for (text, session, role, token) in cases {
        assert!(rt;
            is_read(rt.alloc(), text, session, role, token)?,
            "{text:?}"
        );
    }
    Ok(())
}

#[test]
fn a_text_of_another_form_is_no_value(rt: HostRuntime) {
    let texts: [&[u8]; 15] = [
        b"",
        b"s-1",
        b"00000000000000010000000000000007",
        b".plugin.00000000000000010000000000000007",
        b"s-1.00000000000000010000000000000007",
        b"s-1.server.00000000000000010000000000000007",
        b"s-1.Plugin.00000000000000010000000000000007",
        b"s-1plugin.00000000000000010000000000000007",
        b"s-1.plugin00000000000000010000000000000007",
        b"s-1.plugin.0000000000000001000000000000007",
        b"s-1.plugin.000000000000000010000000000000007",
        b"s-1.plugin.0000000000000001000000000000000A",
        b"s-1.plugin.0000000000000001000000000000000g",
        b"s.1.plugin.00000000000000010000000000000007",
        b"s-1.plugin.agent.00000000000000010000000000000007",
    ];
    for text in texts {
        assert!(rt; is_no_value(text), "{text:?}");
    }
}

#[test]
fn a_name_has_1_to_64_letters_digits_and_hyphens(rt: HostRuntime) {
    let good: [&[u8]; 4] = [b"s-1", b"-", b"AZaz09", &[b'a'; 64]];
    for text in good {
        assert!(rt; is_name(text), "{text:?}");
    }
    let bad: [&[u8]; 7] = [
        b"",
        b"s_1",
        b"s.1",
        b"s 1",
        b"s-1\n",
        "\u{e4}".as_bytes(),
        &[b'a'; 65],
    ];
    for text in bad {
        assert!(rt; is_no_name(text), "{text:?}");
    }
}
