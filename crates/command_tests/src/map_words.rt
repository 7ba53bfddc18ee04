//! Words that name a map.
use crate::words::joined;
use command_fixtures::words_of;
use command_line::read_command;
use std::test::Fail;
use vis_map::Skip;

#[test]
fn maps(rt: HostRuntime) -> Result<(), Fail> {
    let alloc = rt.alloc();
    // Each with the name of the map, and which blocks are left out.
    let rows = [
        ("--map m f", "m", Skip::Visible),
        ("--map=m f", "m", Skip::Visible),
        ("f --map m", "m", Skip::Visible),
        ("--skip visible --map m f", "m", Skip::Visible),
        ("--skip frozen --map m f", "m", Skip::Frozen),
        ("--map m --skip=frozen f", "m", Skip::Frozen),
        (
            "--map f_vm --zero-damaged --tuples f",
            "f_vm",
            Skip::Visible,
        ),
    ];
    for (line, name, skip) in rows {
        let words = words_of(alloc, line)?;
        let Ok(command) = read_command(alloc, words.as_slice()) else {
            return Err(Fail::from(line));
        };
        let Some(map) = command.map() else {
            return Err(Fail::from(line));
        };
        assert_eq!(rt; (map.name, map.skip), (name, skip), "{line}");
        assert_eq!(rt; joined(alloc, command.files())?.as_str(), "f ", "{line}");
    }
    let words = words_of(alloc, "f")?;
    let Ok(command) = read_command(alloc, words.as_slice()) else {
        return Err(Fail::from("f"));
    };
    assert!(rt; command.map().is_none());
    Ok(())
}
