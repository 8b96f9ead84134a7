//! The printed text of each fault is its name.

use super::same;
use pnm_image::{DeviceFailed, HeadFault};
use std::test::Fail;

const NAMES: &[(HeadFault, &str)] = &[
    (HeadFault::ZeroSize, "ZeroSize"),
    (HeadFault::TooLarge, "TooLarge"),
    (HeadFault::BadMaxval, "BadMaxval"),
    (HeadFault::Memory, "Memory"),
];

#[test]
fn prints_names(rt: HostRuntime) -> Result<(), Fail> {
    for (fault, name) in NAMES {
        let text = format!(in rt.alloc(); "{fault}")?;
        same(&rt, &text.as_str(), name, fault);
    }
    let text = format!(in rt.alloc(); "{}", DeviceFailed)?;
    same(&rt, &text.as_str(), &"DeviceFailed", &"a device");
    Ok(())
}
