//! Readers and writers that fail or move few bytes per call.

use audit_files::{Feed, ReadFault, Script, Sink, read_whole, write_all_of};
use std::test::Fail;

#[test]
fn a_writer_that_fails_at_its_third_call(rt: HostRuntime) -> Result<(), Fail> {
    let mut writer = Script::of(rt.alloc(), b"", 3)?.failing_at(3);
    let Err(fault) = write_all_of(&mut writer, b"abcdefgh") else {
        assert!(rt; false);
        return Ok(());
    };
    assert!(rt; fault.written == 6);
    assert!(rt; writer.taken() == b"abcdef".as_slice());
    Ok(())
}

#[test]
fn a_writer_that_never_fails(rt: HostRuntime) -> Result<(), Fail> {
    let mut writer = Script::of(rt.alloc(), b"", 3)?;
    assert!(rt; write_all_of(&mut writer, b"abcdefgh").is_ok());
    assert!(rt; writer.taken() == b"abcdefgh".as_slice());
    let mut stuck = Script::of(rt.alloc(), b"", 0)?;
    let Err(fault) = write_all_of(&mut stuck, b"abcdefgh") else {
        assert!(rt; false);
        return Ok(());
    };
    assert!(rt; fault.written == 0);
    Ok(())
}

#[test]
fn a_reader_that_fails_at_each_call(rt: HostRuntime) -> Result<(), Fail> {
    for call in 1..5 {
        let mut reader = Script::of(rt.alloc(), b"abcdefgh", 3)?.failing_at(call);
        assert!(rt; read_whole(rt.alloc(), &mut reader, 8).is_err());
    }
    let mut reader = Script::of(rt.alloc(), b"abcdefgh", 3)?.failing_at(5);
    let text = read_whole(rt.alloc(), &mut reader, 8)?;
    assert!(rt; text.as_slice() == b"abcdefgh".as_slice());
    Ok(())
}

#[test]
fn a_text_past_the_limit(rt: HostRuntime) -> Result<(), Fail> {
    let mut reader = Script::of(rt.alloc(), b"abcdefgh", 3)?;
    let result = read_whole(rt.alloc(), &mut reader, 7);
    assert!(rt; matches!(result, Err(ReadFault::TooLong)));
    Ok(())
}

#[test]
fn a_writer_of_ten_bytes_that_fails_at_each_call(rt: HostRuntime) -> Result<(), Fail> {
    let text = b"sender,number,verdict,line,tags\ns,1,allow,1,NOPASSWD\ns,2,unknown-user,,\n";
    for call in 1..9 {
        let mut writer = Script::of(rt.alloc(), b"", 10)?.failing_at(call);
        let Err(fault) = write_all_of(&mut writer, text) else {
            assert!(rt; false);
            return Ok(());
        };
        assert!(rt; fault.written == 10 * (call - 1));
    }
    let mut writer = Script::of(rt.alloc(), b"", 10)?.failing_at(9);
    assert!(rt; write_all_of(&mut writer, text).is_ok());
    assert!(rt; writer.taken() == text.as_slice());
    Ok(())
}
