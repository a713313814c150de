//! Each kind of member, read and written.

use crate::BodyFault::{Kind, Missing, Range};
use crate::Member;
use crate::reading::{
    fixed_text, id, natural, object, object_in, objects_in, optional_object, optional_text, signed,
    text, text_or_empty, texts, truth, unsigned, whole,
};
use crate::writing::{
    Members, put_id, put_optional_text, put_signed, put_str, put_text, put_truth, put_unsigned,
    put_value, texts_array,
};
use chan_values::Text;
use serde_json::{Map, Value};
use std::test::Fail;

const BODY: &str =
    "{\"MessageId\":\"00000000-0000-0000-0000-000000000001\",\"Output\":\"a\",\"cols\":-1,\"rows\":5,\"Ended\":true,\"Errors\":[\"a\",\"b\"],\"Error\":null,\"Properties\":{},\"ActionParameters\":[{}]}";

#[test]
fn each_kind_of_member_is_read(rt: HostRuntime) -> Result<(), Fail> {
    let body = object(rt.alloc(), BODY.as_bytes())?;
    let output = text(rt.alloc(), &body, Member::Output)?;
    assert!(rt; output.as_str() == "a", "a text");
    let version = optional_text(rt.alloc(), &body, Member::ClientVersion)?;
    assert!(rt; version.is_none(), "an absent text");
    let found = optional_text(rt.alloc(), &body, Member::Output)?;
    assert!(rt;
        found.is_some_and(|found| found.as_str() == "a"),
        "a text that is there"
    );
    let error = text_or_empty(rt.alloc(), &body, Member::Error)?;
    assert!(rt; error.as_str() == "", "null as the empty text");
    let errors = texts(rt.alloc(), &body, Member::Errors)?;
    assert_eq!(rt; errors.as_slice().len(), 2);
    assert_eq!(rt;
        fixed_text(&body, Member::Output, "b"),
        Err(Range(Member::Output))
    );
    assert_eq!(rt; truth(&body, Member::Ended), Ok(true));
    assert_eq!(rt; signed(&body, Member::Cols), Ok(-1));
    assert_eq!(rt; unsigned(&body, Member::Rows), Ok(5));
    assert_eq!(rt; natural(&body, Member::Cols), Err(Range(Member::Cols)));
    assert_eq!(rt; whole(&body, Member::Rows, 1, 3), Err(Range(Member::Rows)));
    assert_eq!(rt; id(&body, Member::MessageId).map(|id| id[15]), Ok(1));
    Ok(())
}

#[test]
fn each_kind_of_object_is_read(rt: HostRuntime) -> Result<(), Fail> {
    let body = object(rt.alloc(), BODY.as_bytes())?;
    assert!(rt; object_in(&body, Member::Properties).is_ok(), "an object");
    let fault = object_in(&body, Member::ActionParameters).map(|_| ());
    assert_eq!(rt; fault, Err(Kind(Member::ActionParameters)));
    let absent = optional_object(&body, Member::Error)?;
    assert!(rt; absent.is_none(), "null as no object");
    assert_eq!(rt; objects_in(&body, Member::ActionParameters)?.len(), 1);
    assert_eq!(rt; objects_in(&body, Member::Error)?.len(), 0);
    let fault = objects_in(&body, Member::Errors).map(|_| ());
    assert_eq!(rt; fault, Err(Kind(Member::Errors)));
    let fault = object_in(&body, Member::SessionId).map(|_| ());
    assert_eq!(rt; fault, Err(Missing(Member::SessionId)));
    Ok(())
}

#[test]
fn each_kind_of_member_is_written(rt: HostRuntime) -> Result<(), Fail> {
    let alloc = rt.alloc();
    let mut body: Members = Map::new(alloc);
    let a = [Text::new(String::from_str(alloc, "a")?)];
    put_id(alloc, &mut body, Member::MessageId, [0; 16])?;
    put_text(alloc, &mut body, Member::Output, &a[0])?;
    put_optional_text(alloc, &mut body, Member::ClientVersion, &None)?;
    put_str(alloc, &mut body, Member::SessionId, "s")?;
    put_truth(alloc, &mut body, Member::Ended, true)?;
    put_signed(alloc, &mut body, Member::Cols, -1)?;
    put_unsigned(alloc, &mut body, Member::Rows, 5)?;
    let errors = texts_array(alloc, a.as_slice())?;
    put_value(alloc, &mut body, Member::Errors, errors)?;
    let written = Value::Object(body).to_vec(alloc)?;
    let expected =
        "{\"Ended\":true,\"Errors\":[\"a\"],\"MessageId\":\"00000000-0000-0000-0000-000000000000\",\"Output\":\"a\",\"SessionId\":\"s\",\"cols\":-1,\"rows\":5}";
    assert!(rt;
        written.as_slice() == expected.as_bytes(),
        "each member is written"
    );
    Ok(())
}
