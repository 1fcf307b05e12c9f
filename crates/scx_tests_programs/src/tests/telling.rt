//! The lines of faults.

use crate::same::expect_same;
use scx_asm::{AsmError, AsmFault};
use scx_isa::FlowFault;
use scx_verify::{Fault, VerifyError};
use std::test::Fail;

#[test]
fn faults_are_told(rt: HostRuntime) -> Result<(), Fail> {
    let error = AsmError::Refused {
        fault: AsmFault::UnknownLabel,
        line: 7,
    };
    let told = format!(in rt.alloc(); "{error}")?;
    expect_same(&rt, told.as_str(), "asm 2 UnknownLabel at 7", "asm");
    let error = VerifyError {
        fault: Fault::Flow(FlowFault::FallsOff),
        slot: 4095,
    };
    let told = format!(in rt.alloc(); "{error}")?;
    expect_same(&rt, told.as_str(), "verify 4 FallsOff at 4095", "verify");
    Ok(())
}
