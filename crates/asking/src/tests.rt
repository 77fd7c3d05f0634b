// That a reading and a failed run's end do not give up, which their contracts leave open.
use super::{ended, read_whole};
use anyhow::anyhow;
use std::io;
use std::process::ExitCode;

#[test]
fn a_reader_is_read_whole(rt: HostRuntime) -> io::Result<()> {
    let bytes = read_whole(rt.alloc(), b"QUARTER;A1;A2;STATE\n".as_slice())?;
    assert_eq!(rt; bytes.as_slice(), b"QUARTER;A1;A2;STATE\n".as_slice());
    Ok(())
}

#[test]
fn a_failed_run_ends_with_failure(rt: HostRuntime) -> io::Result<()> {
    let status = ended(&rt, "asking", Err(anyhow!("made by a test")))?;
    assert_eq!(rt; status, ExitCode::FAILURE);
    Ok(())
}
