// That memory does not run out.
use crate::arguments::arguments_in;
use crate::exercised;

#[test]
fn the_exercise_is_run(rt: HostRuntime) -> anyhow::Result<()> {
    let arguments = arguments_in(rt.alloc(), &[])?;
    let (bench, log) = exercised(rt.alloc(), arguments)?;
    assert_eq!(rt; bench.tally().drawn, 512);
    assert_eq!(rt; log.is_empty(), false);
    Ok(())
}
