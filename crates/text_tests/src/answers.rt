use std::test::Fail;
use text::replies::{NotUnderstood, put_answer, put_number};

// Each answer is a line of its own, after what was printed before.
#[test]
fn answers(rt: HostRuntime) -> Result<(), Fail> {
    let mut out = Vec::new(rt.alloc());
    put_answer(&mut out, Err(NotUnderstood))?;
    let fine: Result<(), NotUnderstood> = Ok(());
    put_answer(&mut out, fine)?;
    assert_eq!(rt; out.as_slice(), b"no 7\nok\n".as_slice());
    Ok(())
}

// The line of a refusal's number is that of the refusal.
#[test]
fn numbers(rt: HostRuntime) -> Result<(), Fail> {
    let mut out = Vec::new(rt.alloc());
    put_number(&mut out, 7)?;
    put_number(&mut out, 26)?;
    assert_eq!(rt; out.as_slice(), b"no 7\nno 26\n".as_slice());
    Ok(())
}
