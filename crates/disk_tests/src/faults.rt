//! The faults and their texts.

use aio_disk::{DeviceFault, OpenFault, WriteFault};
use std::test::Fail;

#[test]
fn faults_have_their_texts(rt: HostRuntime) -> Result<(), Fail> {
    let alloc = rt.alloc();
    let texts = format!(in alloc;
        "{DeviceFault}, {}, {}, {}, {}",
        OpenFault::Device,
        OpenFault::Memory,
        WriteFault::Device,
        WriteFault::Memory
    )?;
    let wanted = "device fault, device fault, out of memory, device fault, out of memory";
    assert_eq!(rt; texts.as_str(), wanted);
    Ok(())
}
